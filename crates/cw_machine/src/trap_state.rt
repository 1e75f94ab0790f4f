//! The state of a run at its trap: the operands of its last instruction, and the calls and loops around it.

ghost use Rattle.std.specs.Prelude.{◌≡◌, ◌≤◌, length, IfOk};
ghost use Rattle.cw_code.specs.Code.{code_view};
ghost use Rattle.cw_machine.specs.declared.trap_state.TheConstants.{MOST_ROUND};
ghost use Rattle.cw_machine.specs.Calls.{SeesEach};
ghost use Rattle.cw_machine.specs.RepresentsState.{IsAlone, IsAt};
ghost use Rattle.cw_machine.specs.TrapState.{HaltsAny, AreTrapOperands, TrapsAsCode};

use crate::alone::main_takes;
use crate::machine::{Machine, Moved};
use crate::steps::op_at;
use cw_code::code::UnaryOperator;
use cw_jobs::first::is_asked;
use cw_model::burden::{Burden, Edges};
use cw_model::syntax::Operator;
use cw_model::trap::Trap;
use cw_runnable::op::Op;
use cw_runnable::verified::Verified;
use cw_text::Fault;
use std::alloc::{AllocError, Global};

/// The maximum number of calls and loops around an instruction that are returned one by one. It is above the number of
/// nested calls that a run may have.
pub const MOST_ROUND: usize = 16_384;

/// The loop of a run to a trap, as the fast path uses it.
pub(crate) struct ToTrap {}

/// The operands of an instruction that can trap.
#[derive(Clone, Copy, Debug, PartialEq, Eq)]
pub enum TrapOperands {
    /// It cannot trap.
    Nothing,
    /// An operator and its operand.
    One(UnaryOperator, i64),
    /// An operator and its operands, the first one first.
    Two(Operator, i64, i64),
    /// An index, and the count of the elements of its array.
    Index(i64, usize),
    /// The place where an array is cut, and the count of its elements.
    Cut(i64, usize),
    /// The length of a new array.
    Length(i64),
    /// The ends of a loop's range, and the least count of elements of the arrays that it goes over, if it goes over any.
    Range(i64, i64, Option<usize>),
    /// The depth of the caller, and the number of the site of the call.
    Call(usize, u32),
}

/// A call or a loop around an instruction.
#[derive(Clone, Copy, Debug, PartialEq, Eq)]
pub enum Round {
    /// A call, by the number of its site.
    Call(u32),
    /// Turns of a loop, by its line.
    Turns(u32),
}

/// The state of a run at its trap.
#[derive(Debug, Drop)]
pub struct TrapState {
    /// The trap.
    pub trap: Trap,
    /// Its line.
    pub line: u32,
    /// The operands of the instruction.
    pub trap_operands: TrapOperands,
    /// The calls and loops around it, the innermost first, at most `MOST_ROUND`. A loop by halves appears once.
    pub round: Vec<Round>,
    /// The number of further ones.
    pub further: usize,
}

/// The reason why a run to a trap stopped.
#[derive(Clone, Copy, Debug)]
enum Halt {
    /// It may execute no more instructions.
    Over,
    /// It ended.
    Ended,
    /// A trap, with its line and the operands of the instruction.
    Trapped(Trap, u32, TrapOperands),
    /// Memory ran out.
    NoMemory,
}

// Returns the call or loop of the instruction before this `pc`, except a call that a loop's function makes of itself.
fn round_of(ops: &[Op], place: usize) -> Option<Round> {
    if place == 0 || place > ops.len() {
        return None;
    }
    match &ops[place - 1] {
        Op::Call(_, _, c) => Some(Round::Call(c.site)),
        Op::Start(_, _, line) => Some(Round::Turns(*line)),
        _ => None,
    }
}

// Returns the minimum of a count and the previous minimum, if there is one.
fn lesser(so_far: Option<usize>, count: usize) -> Option<usize> {
    match so_far {
        Some(least) if least < count => Some(least),
        _ => Some(count),
    }
}

impl Machine {
    // Returns the minimum number of elements of the arrays in these slots.
    fn least_length(&self, passed: &[u32]) -> Option<usize>
        requires { SeesEach self.now passed.now }
    {
        let mut least = None;
        for k in 0..passed.len() {
            least = lesser(least, self.view(passed[k]).len);
        }
        least
    }

    // Returns the operands of the instruction at the machine's `pc`.
    #[inline(always)]
    fn trap_operands(&self, code: &Verified, op: &Op) -> TrapOperands
        requires { ∥ IsAt code.now self.now op.now ∥₁ }
        ensures { AreTrapOperands self.now result op.now }
    {
        match op {
            Op::Unary(d, operator, _) => TrapOperands::One(*operator, self.get(*d)),
            Op::Binary(d, operator, _) => TrapOperands::Two(
                *operator,
                self.get(*d),
                self.get(*d + 1),
            ),
            Op::NewArray(d, _, _) => TrapOperands::Length(self.get(*d)),
            Op::Element(d, a, _) => TrapOperands::Index(self.get(*d), self.view(*a).len),
            Op::SetElement(d, a, _) => TrapOperands::Index(self.get(*d), self.view(*a).len),
            Op::Cut(d, h, _) => TrapOperands::Cut(self.get(*d), self.view(h.array).len),
            Op::Start(d, c, _) => {
                let least = self.least_length(code.slots_named(c.passed));
                TrapOperands::Range(self.get(*d), self.get(*d + 1), least)
            }
            Op::Call(_, _, c) => TrapOperands::Call(self.depth, c.site),
            _ => TrapOperands::Nothing,
        }
    }

    // Executes at most this number of instructions and returns why the machine stopped.
    #[inline(never)]
    fn run_to_trap(&mut self, code: &Verified, limit: u64) -> Halt
        requires { ∥ IsAlone code.now self.old ∥₁ }
        ensures { HaltsAny code.now self.old limit result self.new }
    {
        let ops = code.ops.as_slice();
        let fast = code.fast.as_slice();
        let mut left = limit;
        loop {
            left = self.fast_path::<ToTrap>(code, fast, left);
            if left == 0 {
                return Halt::Over;
            }
            let o = op_at(ops, self.place);
            let trap_operands = self.trap_operands(code, o);
            match self.step::<ToTrap>(code, o) {
                Moved::On => {}
                Moved::Gave(_value) => return Halt::Ended,
                Moved::Trapped(trap, line) => return Halt::Trapped(trap, line, trap_operands),
                Moved::NoMemory => return Halt::NoMemory,
            }
            left -= 1;
        }
    }

    // Returns the calls and loops around the running call, the innermost first, at most `MOST_ROUND`, and the number of further
    // ones.
    fn round(&self, alloc: Global, code: &Verified) -> Result<(Vec<Round>, usize), AllocError>
        ensures { IfOk result (λ told. length told.0.items ≤ MOST_ROUND) }
    {
        let ops = code.ops.as_slice();
        let mut round: Vec<Round> = Vec::new(alloc);
        let mut further: usize = 0;
        for frame in self.frames.iter().rev() {
            match round_of(ops, frame.place) {
                None => {}
                Some(one) if round.len() < MOST_ROUND => round.push(one)?,
                Some(_) => further = further.saturating_add(1),
            }
        }
        Ok((round, further))
    }
}

/// Runs code on these arguments within `n` instructions up to the instruction that traps, without measures. Returns the
/// trap, its line and the operands of that instruction, as the meaning of the code has them, and the calls and loops around
/// it, of which the contract states only the maximum number. Returns `None` exactly if the run ends.
///
/// # Errors
///
/// `Fault::Arguments` exactly if the number of arguments is not the number of `main`'s parameters, or `n` is not in
/// 1..=2^62; otherwise `Fault::OverLimit` exactly if the run costs more than `n`, and `Fault::Memory` if memory runs out.
pub fn trap_state(
    alloc: Global,
    code: &Verified,
    args: &[i64],
    n: u64,
) -> Result<Option<TrapState>, Fault>
    ensures { TrapsAsCode (code_view code.now.code) args.now n result }
{
    let burden = Burden {
        charge: 0,
        edges: Edges::Spawn,
    };
    if !is_asked(main_takes(code), args.len(), n, burden) {
        return Err(Fault::Arguments);
    }
    let mut machine = Machine::begun(alloc, code, args)?;
    match machine.run_to_trap(code, n) {
        Halt::Over => Err(Fault::OverLimit),
        Halt::Ended => Ok(None),
        Halt::Trapped(trap, line, trap_operands) => {
            let (round, further) = machine.round(alloc, code)?;
            Ok(Some(TrapState {
                trap,
                line,
                trap_operands,
                round,
                further,
            }))
        }
        Halt::NoMemory => Err(Fault::Memory),
    }
}
