//! The greedy schedules of small runs, worked out by hand.

use crate::machine::measures::INTO_FIRST;
use crate::machine::{MOST, Setting, code_in};
use cw_code::code::Instr;
use cw_greedy_schedule::schedules::{Schedule, schedule_alone};
use cw_text::Fault;
use std::alloc::Global;

// fib(4), of a `main` without arguments.
const FIB_OF_4: &[Instr] = &[
    Instr::Push(4),
    INTO_FIRST,
    Instr::Load(0),
    Instr::ReturnValue,
];

// Returns the schedule of fib(4) within a limit.
fn scheduled(alloc: Global, args: &[i64], limit: u64, processors: u64) -> Result<Schedule, Fault> {
    let code = code_in(alloc, Setting::Fib, FIB_OF_4)?;
    schedule_alone(alloc, code, args, limit, processors)
}

// The number of steps on each number of processors: on one it is the work, on three or more the span. On two, there
// are two ready strands in 36 steps, and one in 30.
static STEPS: [(u64, u64); 4] = [(1, 102), (2, 66), (3, 53), (1_000_000, 53)];

// Each case holds within each of these limits.
static LIMITS: [u64; 3] = [102, 1_000_000, MOST];

// Returns whether the schedule within a limit on this number of processors takes this number of steps.
fn takes(alloc: Global, limit: u64, processors: u64, greedy: u64) -> bool {
    match scheduled(alloc, &[], limit, processors) {
        Ok(schedule) => {
            schedule.processors == processors
                && schedule.work == 102
                && schedule.span == 53
                && schedule.greedy == greedy
        }
        Err(_) => false,
    }
}

#[test]
fn fib(rt: HostRuntime) {
    for (processors, greedy) in &STEPS {
        for limit in &LIMITS {
            assert!(rt;
                takes(rt.alloc(), *limit, *processors, *greedy),
                "{processors} in {limit}"
            );
        }
    }
}

// The arguments, the limit and the processors, and the number of the fault, or 0 if there is a schedule.
static REFUSALS: [(&[i64], u64, u64, u8); 7] = [
    (&[], 102, 1, 0),
    (&[], 101, 1, 7),
    (&[], 0, 1, 11),
    (&[], MOST + 1, 1, 11),
    (&[], 102, 0, 11),
    (&[], 102, 1_000_001, 11),
    (&[4], 102, 1, 11),
];

fn refusal(alloc: Global, args: &[i64], limit: u64, processors: u64) -> u8 {
    match scheduled(alloc, args, limit, processors) {
        Ok(_) => 0,
        Err(fault) => fault.number(),
    }
}

#[test]
fn refusals(rt: HostRuntime) {
    for (args, limit, processors, number) in &REFUSALS {
        assert_eq!(rt; refusal(rt.alloc(), args, *limit, *processors), *number);
    }
}
