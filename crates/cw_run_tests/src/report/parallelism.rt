//! Parallelism, rounded down, in the table of tags of code without tags.

use crate::report::tables::{Asked, End, Report, is_taken};
use cw_meter::Readings;
use cw_text::Fault;
use std::alloc::Global;

static SCALES: [(Readings, &[u8]); 11] = [
    (
        Readings {
            work: 0,
            span: 0,
            burdened: 0,
        },
        b"tag,work,span,parallelism,burdened_span,burdened_parallelism\n,0,0,0.000,0,0.000\n",
    ),
    (
        Readings {
            work: 1,
            span: 0,
            burdened: 0,
        },
        b"tag,work,span,parallelism,burdened_span,burdened_parallelism\n,1,0,0.000,0,0.000\n",
    ),
    (
        Readings {
            work: 0,
            span: 1,
            burdened: 1,
        },
        b"tag,work,span,parallelism,burdened_span,burdened_parallelism\n,0,1,0.000,1,0.000\n",
    ),
    (
        Readings {
            work: 1,
            span: 1000,
            burdened: 1000,
        },
        b"tag,work,span,parallelism,burdened_span,burdened_parallelism\n,1,1000,0.001,1000,0.001\n",
    ),
    (
        Readings {
            work: 1,
            span: 1001,
            burdened: 1001,
        },
        b"tag,work,span,parallelism,burdened_span,burdened_parallelism\n,1,1001,0.000,1001,0.000\n",
    ),
    (
        Readings {
            work: 2,
            span: 3,
            burdened: 3,
        },
        b"tag,work,span,parallelism,burdened_span,burdened_parallelism\n,2,3,0.666,3,0.666\n",
    ),
    (
        Readings {
            work: 1999,
            span: 1000,
            burdened: 1000,
        },
        b"tag,work,span,parallelism,burdened_span,burdened_parallelism\n,1999,1000,1.999,1000,1.999\n",
    ),
    (
        Readings {
            work: 19999,
            span: 10000,
            burdened: 10000,
        },
        b"tag,work,span,parallelism,burdened_span,burdened_parallelism\n,19999,10000,1.999,10000,1.999\n",
    ),
    (
        Readings {
            work: 1007,
            span: 100,
            burdened: 100,
        },
        b"tag,work,span,parallelism,burdened_span,burdened_parallelism\n,1007,100,10.070,100,10.070\n",
    ),
    (
        Readings {
            work: 18446744073709551615,
            span: 1,
            burdened: 1,
        },
        b"tag,work,span,parallelism,burdened_span,burdened_parallelism\n,18446744073709551615,1,18446744073709551615.000,1,18446744073709551615.000\n",
    ),
    (
        Readings {
            work: 18446744073709551615,
            span: 18446744073709551615,
            burdened: 340282366920938463463374607431768211455,
        },
        b"tag,work,span,parallelism,burdened_span,burdened_parallelism\n,18446744073709551615,18446744073709551615,1.000,340282366920938463463374607431768211455,0.000\n",
    ),
];

// Returns whether this is the table of code without tags, for a run with these readings.
fn is_scaled(alloc: Global, measure: Readings, text: &'static [u8]) -> Result<bool, Fault> {
    let report = Report {
        name: "",
        asked: Asked::Scale,
        tags: &[],
        end: End::Readings(measure, &[]),
        text,
    };
    is_taken(alloc, &report)
}

#[test]
fn parallelism_is_rounded_down(rt: HostRuntime) -> Result<(), Fault> {
    for (measure, text) in &SCALES {
        assert!(rt;
            is_scaled(rt.alloc(), *measure, text)?,
            "{} {}",
            measure.work,
            measure.span
        );
    }
    Ok(())
}
