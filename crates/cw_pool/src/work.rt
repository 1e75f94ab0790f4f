//! A worker.

ghost use Rattle.std.specs.Prelude.{◌≡◌, [], IfSome};
ghost use Rattle.cw_jobs.specs.Means.{IsMeaningOf};
ghost use Rattle.cw_yard.specs.Seats.{IsSeatOf};
ghost use Rattle.cw_pool.specs.StrandStacks.{KeepsStack};
ghost use Rattle.cw_pool.specs.WorkerFrames.{IsFound, Works};
ghost use Rattle.cw_yard.specs.declared.seat.Yard as yards;

use crate::gate::{Gate, Moment};
use crate::post::{Turn, WorkerFrame, settle};
use crate::sign::{BUDGET, Tally};
use crossbeam_utils::sync::Key;
use cw_jobs::effect::Effect;
use cw_jobs::job::Job;
use cw_yard::seat::{Seat, Yard};
use cw_yard::ticket::Duty;
use std::alloc::Global;
use std::sync::Wait;
use std::{hint, mem, thread};

/// The number of looks in vain that are followed by a pause; later ones are followed by a yield.
const SPINS: u32 = 64;

/// The number of looks in vain after which an idle worker sleeps.
const PATIENCE: u32 = 1024;

/// The number of looks in vain with which a worker begins after it has slept, so that it soon sleeps again.
const SLEPT: u32 = 992;

/// A post that waits, and the duty of the stolen job that is run above it. It must be finished.
pub struct Below {
    pub(crate) post: WorkerFrame,
    pub(crate) duty: Duty,
    // The bytes of this frame and of all frames below it.
    pub(crate) held: usize,
}

/// Where a worker looks next for a job to steal, and how often it has looked in vain since it found one.
#[derive(Drop)]
pub struct Search {
    next: usize,
    tries: u32,
    // The bytes of the frames that wait on the worker, once the uppermost one has given back what it does not use.
    held: Option<usize>,
}

impl Search {
    // Begins with the worker after this one.
    fn new(me: usize) -> Search {
        Search {
            next: me,
            tries: 0,
            held: None,
        }
    }

    // Looks once at the next victim.
    fn look(&mut self, yard: &Yard, seat: &mut Seat, me: usize) -> Option<(Job, Duty)>
        requires { IsSeatOf yard.now seat.old }
        ensures seat { IsSeatOf yard.now seat.new }
        ensures found { IfSome result (IsFound yard.now) }
    {
        let mut victim = self.next;
        if victim == me && victim < yard.workers() {
            victim += 1;
        }
        if victim >= yard.workers() {
            self.next = 0;
            return None;
        }
        self.next = victim + 1;
        match yard.steal(seat, victim) {
            Some(found) => {
                self.tries = 0;
                Some(found)
            }
            None => None,
        }
    }

    // The worker has something to do again.
    #[inline(always)]
    fn rest(&mut self) {
        self.tries = 0;
        self.held = None;
    }

    // Returns the bytes of the frames that wait on the worker: of the uppermost one, which gives back what it does not use when
    // it begins to wait, and of all frames below it.
    fn weigh(&mut self, me: usize, post: &mut WorkerFrame, below: &Vec<Below>) -> usize
        ensures of { post.new.strand.of ≡ post.old.strand.of }
        ensures works { (y : yards.Yard) → Works y post.old → Works y post.new }
    {
        if let Some(held) = self.held {
            return held;
        }
        let enough = enough_for(me, below);
        let held = post.settle_down(enough).saturating_add(held_below(below));
        self.held = Some(held);
        held
    }

    // Lets a worker that may not steal wait a little; with a key it sleeps until the bell rings, because an effect arrived or
    // one that it left was collected.
    fn wait<R: Wait>(&mut self, rt: &R, key: Option<Key<'_>>) {
        match key {
            Some(key) => key.wait(rt),
            None => self.idle(),
        }
    }

    // Lets a worker that found nothing wait a little.
    fn idle(&mut self) {
        if self.tries < PATIENCE {
            self.tries += 1;
        }
        if self.tries < SPINS {
            hint::spin_loop();
        } else {
            thread::yield_now();
        }
    }

    // Takes a key of the bell after many looks in vain: the worker then looks again before it sleeps.
    fn tire<'a>(&mut self, yard: &'a Yard) -> Option<Key<'a>> {
        if self.tries < PATIENCE {
            return None;
        }
        self.tries = SLEPT;
        Some(yard.bell().prepare_wait())
    }

    // Looks once for work; with a key, looks once at each victim and then sleeps.
    fn find<R: Wait>(
        &mut self,
        rt: &R,
        yard: &Yard,
        seat: &mut Seat,
        me: usize,
        key: Option<Key<'_>>,
    ) -> Option<(Job, Duty)>
        requires { IsSeatOf yard.now seat.old }
        ensures seat { IsSeatOf yard.now seat.new }
        ensures found { IfSome result (IsFound yard.now) }
    {
        if let Some(key) = key {
            return doze(rt, yard, seat, me, key);
        }
        match self.look(yard, seat, me) {
            Some(found) => Some(found),
            None => {
                self.idle();
                None
            }
        }
    }
}

// Looks once at each victim, then sleeps until the bell rings: a job is offered or settled, or the end is marked.
fn doze<R: Wait>(
    rt: &R,
    yard: &Yard,
    seat: &mut Seat,
    me: usize,
    key: Key<'_>,
) -> Option<(Job, Duty)>
    requires { IsSeatOf yard.now seat.old }
    ensures seat { IsSeatOf yard.now seat.new }
    ensures found { IfSome result (IsFound yard.now) }
{
    let mut victim = 0;
    while victim < yard.workers() {
        if victim != me {
            match yard.steal(seat, victim) {
                Some(found) => return Some(found),
                None => {}
            }
        }
        victim += 1;
    }
    key.wait(rt);
    None
}

// Returns the number of bytes up to which a waiting frame is measured: 0 for the root, because each strand of the run needs
// its arrays.
fn enough_for(me: usize, below: &Vec<Below>) -> usize {
    if me == 0 && below.is_empty() {
        return 0;
    }
    BUDGET as usize
}

// Returns the bytes of all frames below a worker's frame.
fn held_below(below: &Vec<Below>) -> usize {
    match below.last() {
        Some(last) => last.held,
        None => 0,
    }
}

// Looks for a job to steal while the worker's frame waits, and executes it in a frame above. Makes room for the frame before
// it steals, and gives up a job that cannot begin. With a key it sleeps if it finds none. `held` is the number of bytes
// of the frames that then wait.
fn steal_above<G: Gate, R: Wait>(
    rt: &R,
    alloc: Global,
    yard: &Yard,
    seat: &mut Seat,
    gate: &G,
    tally: &Tally,
    post: &mut WorkerFrame,
    below: &mut Vec<Below>,
    search: &mut Search,
    key: Option<Key<'_>>,
    held: usize,
)
    requires seat { IsSeatOf yard.now seat.old }
    ensures seat { IsSeatOf yard.now seat.new }
    ensures stands { KeepsStack yard.now post.old below.old.items post.new below.new.items }
{
    if below.reserve(1).is_err() {
        search.idle();
        return;
    }
    let me = tally.me;
    let Some((stolen, duty)) = search.find(rt, yard, seat, me, key) else {
        return;
    };
    gate.turn(me, Moment::Stolen);
    match WorkerFrame::start(alloc, tally, stolen) {
        Ok(above) => {
            let waiting = mem::replace(post, above);
            below.push_reserved(Below {
                post: waiting,
                duty,
                held,
            });
            search.rest();
        }
        Err(stolen) => {
            settle(yard, seat, gate, tally, duty, stolen.give_up());
        }
    }
}

// Steals like `steal_above`, but only while neither the waiting frames nor the uncollected effects of the worker have more
// bytes than the budget.
fn run_above<G: Gate, R: Wait>(
    rt: &R,
    alloc: Global,
    yard: &Yard,
    seat: &mut Seat,
    gate: &G,
    tally: &Tally,
    post: &mut WorkerFrame,
    below: &mut Vec<Below>,
    search: &mut Search,
    key: Option<Key<'_>>,
)
    requires seat { IsSeatOf yard.now seat.old }
    ensures seat { IsSeatOf yard.now seat.new }
    ensures stands { KeepsStack yard.now post.old below.old.items post.new below.new.items }
{
    let held = search.weigh(tally.me, post, below);
    if held as u64 > BUDGET || tally.is_full() {
        search.wait(rt, key);
        return;
    }
    steal_above(
        rt, alloc, yard, seat, gate, tally, post, below, search, key, held,
    );
}

/// Runs a job to its end. While it waits for a job that another worker has, it runs stolen ones. Without memory to
/// begin it, the job is given up.
pub(crate) fn work<G: Gate, R: Wait>(
    rt: &R,
    alloc: Global,
    yard: &Yard,
    seat: &mut Seat,
    gate: &G,
    tally: &mut Tally,
    job: Job,
) -> Effect
    requires { IsSeatOf yard.now seat.old }
    ensures seat { IsSeatOf yard.now seat.new }
    ensures means { IsMeaningOf job result }
{
    let mut post = match WorkerFrame::start(alloc, tally, job) {
        Ok(post) => post,
        Err(job) => return job.give_up(),
    };
    let mut below: Vec<Below> = Vec::new(alloc);
    let mut search = Search::new(tally.me);
    for _ in rt.forever() {
        post.heed(tally);
        let key = search.tire(yard);
        match post.turn(yard, seat, gate, tally) {
            Turn::Went => search.rest(),
            Turn::Waits => run_above(
                rt,
                alloc,
                yard,
                seat,
                gate,
                tally,
                &mut post,
                &mut below,
                &mut search,
                key,
            ),
            Turn::Ends(end) => match below.pop() {
                Some(
                    Below {
                        post: waiting,
                        duty,
                        held: _,
                    },
                ) => {
                    let mut ended = mem::replace(&mut post, waiting);
                    let effect = ended.effect(end);
                    ended.finish();
                    settle(yard, seat, gate, tally, duty, effect);
                    search.rest();
                }
                None => {
                    let effect = post.effect(end);
                    post.finish();
                    below.destroy_empty();
                    return effect;
                }
            },
        }
    }
    unreachable!()
}

/// Steals, runs and settles jobs until the end is marked.
pub(crate) fn help<G: Gate, R: Wait>(
    rt: &R,
    alloc: Global,
    yard: &Yard,
    seat: &mut Seat,
    gate: &G,
    tally: &mut Tally,
)
    requires { IsSeatOf yard.now seat.old }
    ensures { IsSeatOf yard.now seat.new }
{
    let me = tally.me;
    let mut search = Search::new(me);
    for _ in rt.forever() {
        let key = search.tire(yard);
        if yard.ended(seat) {
            return;
        }
        if tally.is_full() {
            search.wait(rt, key);
            continue;
        }
        match search.find(rt, yard, seat, me, key) {
            Some((job, duty)) => {
                gate.turn(me, Moment::Stolen);
                let effect = work(rt, alloc, yard, seat, gate, tally, job);
                settle(yard, seat, gate, tally, duty, effect);
                search.rest();
            }
            None => {}
        }
    }
}
