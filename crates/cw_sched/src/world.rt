//! Worlds.

ghost use Rattle.std.specs.Prelude.{◌≡◌, ◌≢◌, ◌<◌, ◌↔◌, false, true, ◌-◌, [], ◌∷◌, None, Some, length, IfOk, IfSome, IfErr, OnOk, OnErr, MatchResult, IsSome};
ghost use Rattle.std.specs.Arc.{arc_value};
ghost use Rattle.std.specs.Option.{option_copied};
ghost use Rattle.cw_machine.specs.Answering.{IsOfWhole};
ghost use Rattle.cw_sched.specs.core.Board.{newest, oldest, of_worker};
ghost use Rattle.cw_sched.specs.declared.event.Event.TheVariants as event;
ghost use Rattle.cw_sched.specs.declared.event.Refused.TheVariants as refused;
ghost use Rattle.cw_sched.specs.Scenes.{jobs_of, top, posted, scene, stacks, stage_of, staged, out_of, Goes, Made};
ghost use Rattle.cw_sched.specs.declared.post.Out.TheVariants as out;
ghost use Rattle.cw_sched.specs.Boards.{boarded, cell_of};
ghost use Rattle.cw_text.specs.declared.fault.Fault.TheVariants as fault;
ghost use Rattle.cw_sched.specs.WorkerFrames.{Begins};
ghost use Rattle.cw_sched.specs.Sound.{KeepsRuns, Sound};
ghost use Rattle.cw_sched.specs.Worlds.{answer_in, answer_of, has_ended, idle, AnswersAsCode, IsSound, Starts};
ghost use Rattle.cw_sched.specs.Worlds.{Happens, HasHappened, IsForMemory, IsNotNow, KeepsAnswer};
ghost use Rattle.cw_sched.specs.Lacking.{PreservesMemory};
ghost use Rattle.cw_sched.specs.Table as table;
ghost use Rattle.cw_sched.specs.Table.{is_possible};
ghost use Rattle.cw_sched.specs.Events.{board_without, but_top, with_top, HasRoomIn, HasTurned, IsBack, IsBegun};
ghost use Rattle.cw_sched.specs.Copied.{IsOptionCopy};
ghost use Rattle.cw_sched.specs.MemoryNeeds.{IsLastFrame, MayNeedMemory};

use crate::board::{Board, Offer};
use crate::copy::copy_of;
use crate::event::{Event, Refused};
use crate::post::{Out, WorkerFrame};
use cw_jobs::effect::Effect;
use cw_jobs::job::Job;
use cw_machine::alone::Ended;
use cw_machine::answering::answer;
use cw_model::burden::Burden;
use cw_model::limits::MOST_WORKERS;
use cw_runnable::verified::Verified;
use cw_text::Fault;
use std::alloc::{AllocError, Global};
use std::snapshot::Snapshot;
use std::sync::Arc;

/// What a worker has begun and not settled.
#[derive(Drop)]
pub enum Begun {
    /// A strand that has not ended.
    Goes(WorkerFrame),
    /// A stolen job that has ended, by its number, with its effect.
    Made(usize, Effect),
    /// The root has ended, with the answer of the run.
    Answered(Result<Ended, Fault>),
}

/// Workers with their strands and deques, over one run of code.
#[derive(Drop)]
pub struct World {
    /// A share of the code.
    pub(crate) code: Arc<Verified>,
    /// The jobs by number, in the proof only.
    pub(crate) jobs: Vec<Snapshot<Job>>,
    /// What each worker has begun and not settled, the newest last.
    pub(crate) begun: Vec<Vec<Begun>>,
    /// The jobs that were offered, and the effects that wait.
    pub(crate) board: Board,
}

// A post that goes on, or the effect by which it ended; for the root, the answer of the run.
fn as_begun(alloc: Global, code: &Verified, post: WorkerFrame, ended: Option<Effect>) -> Begun
    requires { post.number ≡ 0 → IfSome ended (λ e. ∥ IsOfWhole code.now e ∥₁) }
    ensures { IsBegun code.now (posted post) ended (stage_of result) }
{
    match ended {
        None => Begun::Goes(post),
        Some(effect) => {
            if post.number == 0 {
                Begun::Answered(answer(alloc, code, effect))
            } else {
                Begun::Made(post.number, effect)
            }
        }
    }
}

// Pops the newest strand of a worker, which has not ended.
fn take(begun: &mut Vec<Vec<Begun>>, w: usize) -> WorkerFrame
    requires { table.goes (newest (of_worker (stacks begun.old) w)) ≡ true }
    ensures top { newest (of_worker (stacks begun.old) w) ≡ Some (Goes (posted result)) }
    ensures last { IsLastFrame begun.old w result }
    ensures left { stacks begun.new ≡ but_top (stacks begun.old) w }
    ensures room { HasRoomIn begun.new w }
{
    match begun[w].pop() {
        Some(Begun::Goes(post)) => post,
        Some(Begun::Made(_, _)) => unreachable!(),
        Some(Begun::Answered(_)) => unreachable!(),
        None => unreachable!(),
    }
}

// Pushes this to the list of a worker.
fn put(begun: &mut Vec<Vec<Begun>>, w: usize, next: Begun)
    requires { HasRoomIn begun.old w }
    ensures { stacks begun.new ≡ with_top (stacks begun.old) w (stage_of next) }
{
    begun[w].push_reserved(next);
}

// Pushes a post back to the list of its worker, or the effect by which it ended.
fn turn(
    begun: &mut Vec<Vec<Begun>>,
    code: &Arc<Verified>,
    w: usize,
    post: WorkerFrame,
    ended: Option<Effect>,
)
    requires room { HasRoomIn begun.old w }
    requires root { post.number ≡ 0 → IfSome ended (λ e. ∥ IsOfWhole (arc_value code.now) e ∥₁) }
    ensures { HasTurned (arc_value code.now) post ended begun.old w begun.new }
{
    let alloc = *begun.allocator();
    let next = as_begun(alloc, code, post, ended);
    put(begun, w, next);
}

// Pops the newest entry of a worker, a stolen job that has ended: its number and its effect.
fn take_made(begun: &mut Vec<Vec<Begun>>, w: usize) -> (usize, Effect)
    requires { table.has_made (newest (of_worker (stacks begun.old) w)) ≡ true }
    ensures top { newest (of_worker (stacks begun.old) w) ≡ Some (Made result.0 result.1) }
    ensures left { stacks begun.new ≡ but_top (stacks begun.old) w }
{
    match begun[w].pop() {
        Some(Begun::Made(number, effect)) => (number, effect),
        Some(Begun::Goes(_)) => unreachable!(),
        Some(Begun::Answered(_)) => unreachable!(),
        None => unreachable!(),
    }
}

// The root has number 0.
fn first_jobs(alloc: Global, root: &Job) -> Result<Vec<Snapshot<Job>>, AllocError>
    ensures { IfOk result (λ jobs. jobs_of jobs ≡ root.now ∷ []) }
{
    let mut jobs = Vec::with_capacity(alloc, 1)?;
    jobs.push_reserved(Snapshot::of(root));
    Ok(jobs)
}

// Begins the strand of the root.
fn first_frame(alloc: Global, root: Job) -> Result<WorkerFrame, Fault>
    ensures { MatchResult result (Begins 0 root) (λ e. e ≡ fault.Memory) }
{
    match WorkerFrame::start(alloc, 0, root) {
        Ok(post) => Ok(post),
        Err(_) => Err(Fault::Memory),
    }
}

// The lists of all workers: worker 0 has begun this post, the others are idle.
fn first_begun(
    alloc: Global,
    workers: usize,
    post: WorkerFrame,
) -> Result<Vec<Vec<Begun>>, AllocError>
    requires { 0 < workers }
    ensures { IfOk result (λ begun. stacks begun ≡ (Goes (posted post) ∷ []) ∷ idle (workers - 1)) }
{
    let mut begun = Vec::with_capacity(alloc, workers)?;
    let mut first = Vec::with_capacity(alloc, 1)?;
    first.push_reserved(Begun::Goes(post));
    begun.push_reserved(first);
    for _ in 0..workers - 1 {
        begun.push_reserved(Vec::new(alloc));
    }
    Ok(begun)
}

// Makes room for one more entry in the list of a worker.
fn room(begun: &mut Vec<Vec<Begun>>, w: usize) -> Result<(), AllocError>
    requires { w < length begun.old.items }
    ensures same { stacks begun.new ≡ stacks begun.old }
    ensures room { OnOk result (HasRoomIn begun.new w) }
{
    begun[w].reserve(1)
}

// Whether it is a strand that has not ended.
fn goes(top: Option<&Begun>) -> bool
    ensures { result ≡ table.goes (staged top.entry) }
{
    match top {
        Some(Begun::Goes(_)) => true,
        _ => false,
    }
}

// The newest job that it has out.
fn newest_out(top: Option<&Begun>) -> Option<&Out>
    ensures { out_of result ≡ table.newest_out (staged top.entry) }
{
    match top {
        Some(Begun::Goes(post)) => post.outs.as_slice().last(),
        _ => None,
    }
}

// Whether it is at a spawn whose continuation is neither offered nor kept yet.
fn is_at_spawn(top: Option<&Begun>) -> bool
    ensures { result ≡ table.is_at_spawn (staged top.entry) }
{
    match newest_out(top) {
        Some(Out::Undecided(_, _)) => true,
        _ => false,
    }
}

// Whether it is at a join.
fn is_at_join(top: Option<&Begun>) -> bool
    ensures { result ≡ table.is_at_join (staged top.entry) }
{
    match top {
        Some(Begun::Goes(post)) => post.at_join,
        _ => false,
    }
}

// Whether it is a stolen job that has ended.
fn has_made(top: Option<&Begun>) -> bool
    ensures { result ≡ table.has_made (staged top.entry) }
{
    match top {
        Some(Begun::Made(_, _)) => true,
        _ => false,
    }
}

// The answer of the run, if this is the root and has ended.
fn answered(first: Option<&Begun>) -> Option<&Result<Ended, Fault>>
    ensures { option_copied result ≡ answer_in (staged first.entry) }
{
    match first {
        Some(Begun::Answered(answer)) => Some(answer),
        _ => None,
    }
}

// Whether this job is kept, or at the back of the worker's deque.
fn can_retake(board: &Board, w: usize, out: Option<&Out>) -> bool
    ensures { result ≡ table.can_retake (boarded board.now) w (out_of out.entry) }
{
    match out {
        Some(Out::Kept(_, _)) => true,
        Some(Out::Offered(number)) => match board.newest(w) {
            Some(back) => *number == back,
            None => false,
        },
        _ => false,
    }
}

// The job at a spawn that is neither offered nor kept yet, with its number.
fn undecided(latest: Option<Out>) -> (usize, Job)
    requires { table.is_undecided latest ≡ true }
    ensures { latest ≡ Some (out.Undecided result.0 result.1) }
{
    match latest {
        Some(Out::Undecided(number, job)) => (number, job),
        Some(Out::Kept(_, _)) => unreachable!(),
        Some(Out::Offered(_)) => unreachable!(),
        None => unreachable!(),
    }
}

// Takes back a job that was kept, or is at the back of the worker's deque; nobody ran it.
fn unrun(board: &mut Board, w: usize, latest: Option<Out>) -> Job
    requires { table.can_retake (boarded board.old) w latest ≡ true }
    ensures job { IfSome latest (λ o. IsBack (boarded board.old) w o result) }
    ensures some { latest ≢ None }
    ensures board { IfSome latest (λ o. boarded board.new ≡ board_without (boarded board.old) w o) }
{
    match latest {
        Some(Out::Kept(_, job)) => job,
        Some(Out::Offered(number)) => board.retake(w, number),
        Some(Out::Undecided(_, _)) => unreachable!(),
        None => unreachable!(),
    }
}

// The number of a job whose effect is in its cell, and the index of the cell.
fn settled(board: &Board, latest: Option<Out>) -> (usize, usize)
    requires { table.is_settled (boarded board.now) latest ≡ true }
    ensures number { latest ≡ Some (out.Offered result.0) }
    ensures place { cell_of (boarded board.now) result.0 ≡ Some result.1 }
{
    match latest {
        Some(Out::Offered(number)) => match board.cell(number) {
            Some(place) => (number, place),
            None => unreachable!(),
        },
        Some(Out::Kept(_, _)) => unreachable!(),
        Some(Out::Undecided(_, _)) => unreachable!(),
        None => unreachable!(),
    }
}

// Whether the effect of this job is in its cell.
fn is_settled(board: &Board, out: Option<&Out>) -> bool
    ensures { result ≡ table.is_settled (boarded board.now) (out_of out.entry) }
{
    match out {
        Some(Out::Offered(number)) => board.cell(*number).is_some(),
        _ => false,
    }
}

impl World {
    /// Makes a world of `workers` workers, in which worker 0 has begun the run of this code on these arguments within
    /// `n` instructions, and the others are idle. `burden` is the charge for a spawn; only the burdened spans depend
    /// on it.
    ///
    /// # Errors
    ///
    /// `Arguments` if and only if `workers` is not in 1..=64, the number of arguments is not that of `main`'s
    /// parameters, `n` is not in 1..=2^62, or the charge is above 1,000,000,000 instructions; otherwise `Memory` if
    /// memory runs out.
    pub fn start(
        alloc: Global,
        code: Arc<Verified>,
        args: &[i64],
        n: u64,
        burden: Burden,
        workers: usize,
    ) -> Result<World, Fault>
        ensures { Starts code.value args.now n burden workers result }
    {
        if workers == 0 || workers > MOST_WORKERS {
            return Err(Fault::Arguments);
        }
        let root = Job::root(alloc, code, args, n, burden)?;
        let code = Arc::try_clone(&root.parts.code)?;
        let jobs = first_jobs(alloc, &root)?;
        let board = Board::open(alloc, workers)?;
        let post = first_frame(alloc, root)?;
        let begun = first_begun(alloc, workers, post)?;
        Ok(World {
            code,
            jobs,
            begun,
            board,
        })
    }

    // The newest entry of a worker.
    fn top(&self, w: usize) -> Option<&Begun>
        ensures { staged result ≡ top (scene self.now) w }
    {
        match self.begun.get(w) {
            Some(stack) => stack.as_slice().last(),
            None => None,
        }
    }

    // The oldest entry of worker 0.
    fn first(&self) -> Option<&Begun>
        ensures { staged result ≡ oldest (of_worker (stacks self.now.begun) 0) }
    {
        match self.begun.get(0) {
            Some(stack) => stack.as_slice().first(),
            None => None,
        }
    }

    /// Returns whether an event is possible now.
    pub fn is_possible(&self, event: Event) -> bool
        ensures { result ≡ is_possible (scene self.now) event }
    {
        match event {
            Event::Run(w) => {
                let top = self.top(w);
                goes(top) && !is_at_spawn(top) && !is_at_join(top)
            }
            Event::Offer(w) => is_at_spawn(self.top(w)),
            Event::Inline(w) => is_at_spawn(self.top(w)),
            Event::Retake(w) => {
                let top = self.top(w);
                is_at_join(top) && can_retake(&self.board, w, newest_out(top))
            }
            Event::Steal(w, v) => {
                w < self.begun.len()
                    && (self.top(w).is_none() || is_at_join(self.top(w)))
                    && self.board.has_offer(v)
            }
            Event::Settle(w) => has_made(self.top(w)),
            Event::Collect(w) => {
                let top = self.top(w);
                is_at_join(top) && is_settled(&self.board, newest_out(top))
            }
        }
    }

    // Executes one instruction of a worker's strand.
    fn run(&mut self, w: usize) -> Result<(), Refused>
        requires sound { IsSound self.old }
        requires possible { is_possible (scene self.old) (event.Run w) ≡ true }
        ensures code { self.new.code ≡ self.old.code }
        ensures memory { IfErr result (λ e. e ≡ refused.Memory) }
        ensures wants { OnErr result (MayNeedMemory self.old (event.Run w)) }
        ensures does { Happens self.old (event.Run w) result self.new }
    {
        let mut post = take(&mut self.begun, w);
        match post.step(&mut self.jobs) {
            Ok(ended) => {
                turn(&mut self.begun, &self.code, w, post, ended);
                Ok(())
            }
            Err(_) => {
                put(&mut self.begun, w, Begun::Goes(post));
                Err(Refused::Memory)
            }
        }
    }

    // Offers the continuation at a spawn.
    fn offer(&mut self, w: usize) -> Result<(), Refused>
        requires sound { IsSound self.old }
        requires possible { is_possible (scene self.old) (event.Offer w) ≡ true }
        ensures code { self.new.code ≡ self.old.code }
        ensures memory { IfErr result (λ e. e ≡ refused.Memory) }
        ensures wants { OnErr result (MayNeedMemory self.old (event.Offer w)) }
        ensures does { Happens self.old (event.Offer w) result self.new }
    {
        let mut post = take(&mut self.begun, w);
        let latest = post.outs.pop();
        let (number, job) = undecided(latest);
        match self.board.offer(w, number, job) {
            Ok(()) => {
                post.outs.push_reserved(Out::Offered(number));
                put(&mut self.begun, w, Begun::Goes(post));
                Ok(())
            }
            Err(job) => {
                post.outs.push_reserved(Out::Undecided(number, job));
                put(&mut self.begun, w, Begun::Goes(post));
                Err(Refused::Memory)
            }
        }
    }

    // Keeps the continuation at a spawn.
    fn inline(&mut self, w: usize)
        requires sound { IsSound self.old }
        requires possible { is_possible (scene self.old) (event.Inline w) ≡ true }
        ensures code { self.new.code ≡ self.old.code }
        ensures does { HasHappened self.old (event.Inline w) self.new }
    {
        let mut post = take(&mut self.begun, w);
        let latest = post.outs.pop();
        let (number, job) = undecided(latest);
        post.outs.push_reserved(Out::Kept(number, job));
        put(&mut self.begun, w, Begun::Goes(post));
    }

    // Takes the newest job out back; nobody ran it.
    fn retake(&mut self, w: usize)
        requires sound { IsSound self.old }
        requires possible { is_possible (scene self.old) (event.Retake w) ≡ true }
        ensures code { self.new.code ≡ self.old.code }
        ensures does { HasHappened self.old (event.Retake w) self.new }
    {
        let mut post = take(&mut self.begun, w);
        let latest = post.outs.pop();
        let rest = unrun(&mut self.board, w, latest);
        let ended = post.take_in(rest);
        turn(&mut self.begun, &self.code, w, post, ended);
    }

    // Begins the oldest job of a deque, with room in the thief's list.
    fn begin_stolen(&mut self, w: usize, v: usize) -> Result<(), Refused>
        requires sound { Sound (arc_value self.old.code) (scene self.old) }
        requires there { w < length (scene self.old).begun }
        requires some { oldest (of_worker (scene self.old).board.offers v) ≢ None }
        requires room { HasRoomIn self.old.begun w }
        ensures code { self.new.code ≡ self.old.code }
        ensures memory { IfErr result (λ e. e ≡ refused.Memory) }
        ensures does { Happens self.old (event.Steal w v) result self.new }
    {
        let Offer { number, job } = self.board.steal(v);
        match WorkerFrame::start(*self.begun.allocator(), number, job) {
            Ok(mut post) => {
                let ended = post.stand();
                turn(&mut self.begun, &self.code, w, post, ended);
                Ok(())
            }
            Err(job) => {
                self.board.unsteal(v, Offer { number, job });
                Err(Refused::Memory)
            }
        }
    }

    // Begins the oldest job of a deque.
    fn steal(&mut self, w: usize, v: usize) -> Result<(), Refused>
        requires sound { IsSound self.old }
        requires possible { is_possible (scene self.old) (event.Steal w v) ≡ true }
        ensures code { self.new.code ≡ self.old.code }
        ensures memory { IfErr result (λ e. e ≡ refused.Memory) }
        ensures does { Happens self.old (event.Steal w v) result self.new }
    {
        match room(&mut self.begun, w) {
            Ok(()) => self.begin_stolen(w, v),
            Err(_) => Err(Refused::Memory),
        }
    }

    // Puts the effect of a stolen job into its cell.
    fn settle(&mut self, w: usize) -> Result<(), Refused>
        requires sound { IsSound self.old }
        requires possible { is_possible (scene self.old) (event.Settle w) ≡ true }
        ensures code { self.new.code ≡ self.old.code }
        ensures memory { IfErr result (λ e. e ≡ refused.Memory) }
        ensures wants { OnErr result (MayNeedMemory self.old (event.Settle w)) }
        ensures does { Happens self.old (event.Settle w) result self.new }
    {
        match self.board.room_to_settle() {
            Ok(()) => {
                let (number, effect) = take_made(&mut self.begun, w);
                self.board.settle(number, effect);
                Ok(())
            }
            Err(_) => Err(Refused::Memory),
        }
    }

    // Gives a strand the effect of its newest job out.
    fn collect(&mut self, w: usize)
        requires sound { IsSound self.old }
        requires possible { is_possible (scene self.old) (event.Collect w) ≡ true }
        ensures code { self.new.code ≡ self.old.code }
        ensures does { HasHappened self.old (event.Collect w) self.new }
    {
        let mut post = take(&mut self.begun, w);
        let latest = post.outs.pop();
        let (number, place) = settled(&self.board, latest);
        let effect = self.board.collect(place, number);
        let ended = post.give(effect);
        turn(&mut self.begun, &self.code, w, post, ended);
    }

    /// Applies one event.
    ///
    /// If memory is lacking in a strand, the event happens, and the strand stops for lack of memory. Only these events
    /// do that: `Run`; `Collect`, if the strand takes in what the continuation has shown; and `Retake` and `Steal`, if
    /// they end a strand at its join.
    ///
    /// # Errors
    ///
    /// `NotNow` if and only if the event is not possible; otherwise `Memory` if there is no memory for the lists of
    /// the world or for a new strand: for `Run`, `Offer` and `Settle` only if a list that the event may add to is
    /// full, for `Steal` at any time, because no contract bounds the memory of a new strand, and for the other events
    /// never. After an error the world is unchanged.
    pub fn apply(&mut self, event: Event) -> Result<(), Refused>
        requires { IsSound self.old }
        ensures sound { IsSound self.new }
        ensures code { self.new.code ≡ self.old.code }
        ensures run { KeepsRuns (scene self.old).jobs (scene self.new).jobs }
        ensures stays { KeepsAnswer (scene self.old) (scene self.new) }
        ensures not_now { IsNotNow result ↔ (is_possible (scene self.old) event ≡ false) }
        ensures wants { IsForMemory result → MayNeedMemory self.old event }
        ensures keeps { PreservesMemory event (scene self.old) (scene self.new) }
        ensures does { Happens self.old event result self.new }
    {
        if !self.is_possible(event) {
            return Err(Refused::NotNow);
        }
        match event {
            Event::Run(w) => self.run(w),
            Event::Offer(w) => self.offer(w),
            Event::Inline(w) => {
                self.inline(w);
                Ok(())
            }
            Event::Retake(w) => {
                self.retake(w);
                Ok(())
            }
            Event::Steal(w, v) => self.steal(w, v),
            Event::Settle(w) => self.settle(w),
            Event::Collect(w) => {
                self.collect(w);
                Ok(())
            }
        }
    }

    /// Returns a copy of the answer of the run, as `run_alone` answers, once the root has ended. The answer does not
    /// change.
    ///
    /// # Errors
    ///
    /// `OverLimit` and `Trap` as in `run_alone`, and `Memory` if memory was lacking in a strand, for the answer or for
    /// its copy.
    pub fn outcome(&self) -> Option<Result<Ended, Fault>>
        requires { IsSound self.now }
        ensures ended { IsSome result ↔ (has_ended (scene self.now) ≡ true) }
        ensures copy { IsOptionCopy (answer_of (scene self.now)) result }
        ensures answers { AnswersAsCode self.now result }
    {
        match answered(self.first()) {
            Some(answer) => Some(copy_of(*self.begun.allocator(), answer)),
            None => None,
        }
    }
}
