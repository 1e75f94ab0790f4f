//! The answer to a run: its values, and the totals of its reducers.

use crate::report::code_with;
use cw_machine::values::Values;
use cw_model::syntax::Reduction;
use cw_model::total::Total;
use cw_model::trap::Trap;
use cw_report::{Counted, answer};
use cw_text::Fault;
use std::alloc::{AllocError, Global};

// How a run ended.
#[derive(Clone, Copy)]
enum End {
    // It returned this value, after it printed these lines, with these totals.
    Value(i64, &'static [i64], &'static [Total]),
    // It trapped after it printed these lines.
    Trap(&'static [i64]),
}

// The answer to a run of code with these reducers.
#[derive(Clone, Copy)]
struct Answer {
    name: &'static str,
    reducers: &'static [(&'static str, Reduction)],
    end: End,
    text: &'static [u8],
}

// Returns the values of a run, or its fault.
fn values_of(alloc: Global, end: &End) -> Result<Result<Values, Fault>, AllocError> {
    match end {
        End::Value(value, lines, totals) => Ok(Ok(Values {
            value: *value,
            lines: Vec::from_slice(alloc, lines)?,
            totals: Vec::from_slice(alloc, totals)?,
        })),
        End::Trap(lines) => Ok(Err(Fault::Trap {
            code: Trap::Overflow,
            line: 7,
            output: Vec::from_slice(alloc, lines)?,
        })),
    }
}

// Returns whether a run has this answer.
fn is_answered(alloc: Global, told: &Answer) -> Result<bool, Fault> {
    let code = code_with(alloc, told.reducers, &[])?;
    let values = values_of(alloc, &told.end)?;
    let mut sink = Counted::new(Vec::new(alloc));
    answer(alloc, &code, &values, &mut sink)?;
    Ok(sink.into_inner().as_slice() == told.text)
}

static ANSWERS: [Answer; 3] = [
    Answer {
        name: "the least value",
        reducers: &[],
        end: End::Value(-9223372036854775808, &[], &[]),
        text: b"return -9223372036854775808\n",
    },
    Answer {
        name: "what was printed before a trap",
        reducers: &[],
        end: End::Trap(&[0, -1, 9223372036854775807]),
        text: b"0\n-1\n9223372036854775807\n",
    },
    Answer {
        name: "totals between what was printed and the value",
        reducers: &[
            ("total", Reduction::Sum),
            ("top", Reduction::Max),
            ("none", Reduction::Max),
            ("least", Reduction::Sum),
        ],
        end: End::Value(
            3,
            &[7],
            &[
                Total::Sum(9223372036854775808),
                Total::Max(Some(-9223372036854775808)),
                Total::Max(None),
                Total::Sum(-42535295865117307932921825928971026432),
            ],
        ),
        text: b"7\nsum total = 9223372036854775808\nmax top = -9223372036854775808\nmax none = none\nsum least = -42535295865117307932921825928971026432\nreturn 3\n",
    },
];

#[test]
fn runs_are_answered(rt: HostRuntime) -> Result<(), Fault> {
    for told in &ANSWERS {
        assert!(rt; is_answered(rt.alloc(), told)?, "{}", told.name);
    }
    Ok(())
}
