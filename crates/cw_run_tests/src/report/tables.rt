//! The tables of tags and of call sites, with numbers worked out on paper, on sinks with much and with little room.

use crate::report::{Taken, code_with};
use cw_machine::alone::Ended;
use cw_machine::values::Values;
use cw_meter::Readings;
use cw_model::trap::Trap;
use cw_regions::RegionRow;
use cw_report::{Counted, Sink, answer, scale, sites};
use cw_runnable::verified::Verified;
use cw_sites::table::SiteRow;
use cw_text::Fault;
use indexmap::IndexMap;
use std::alloc::{AllocError, Global};
use std::io::Cursor;

/// More room than any text here takes.
pub(crate) const ROOM: usize = 500;

/// The kind of a report.
#[derive(Clone, Copy)]
pub(crate) enum Asked {
    Run,
    Scale,
    Sites,
    ScaleTable,
    SitesTable,
}

/// How a run ended.
#[derive(Clone, Copy)]
pub(crate) enum End {
    /// It finished with these readings, and these rows for its tags.
    Readings(Readings, &'static [(&'static str, RegionRow)]),
    /// It trapped after it printed these lines.
    Trap(&'static [i64]),
    /// It exceeded its limit.
    OverLimit,
    /// It ran out of memory.
    Memory,
}

/// A report of a run of code with these tags.
#[derive(Clone, Copy)]
pub(crate) struct Report {
    pub(crate) name: &'static str,
    pub(crate) asked: Asked,
    pub(crate) tags: &'static [&'static str],
    pub(crate) end: End,
    pub(crate) text: &'static [u8],
}

const ROOT: SiteRow = SiteRow {
    calls: 1,
    own_work: 5,
    own_span: 4,
    work: 30,
    span: 20,
};

const FIB: SiteRow = SiteRow {
    calls: 2,
    own_work: 10,
    own_span: 6,
    work: 25,
    span: 4611686018427387904,
};

const LEAF: SiteRow = SiteRow {
    calls: 0,
    own_work: 0,
    own_span: 0,
    work: 0,
    span: 0,
};

// The rows of call sites by number.
static SITES: [(u32, SiteRow); 3] = [(0, ROOT), (1, FIB), (2, LEAF)];

// Adds these rows of call sites.
fn place_sites(sites: &mut IndexMap<u32, SiteRow>) -> Result<(), AllocError> {
    for (number, row) in &SITES {
        sites.insert(*number, *row)?;
    }
    Ok(())
}

// Adds these rows of tags.
fn place_regions(
    alloc: Global,
    regions: &mut IndexMap<Vec<u8>, RegionRow>,
    rows: &[(&str, RegionRow)],
) -> Result<(), AllocError> {
    for (tag, row) in rows {
        regions.insert(Vec::from_slice(alloc, tag.as_bytes())?, *row)?;
    }
    Ok(())
}

// Returns a run with these readings, without output and rows.
fn empty_end(alloc: Global, measure: Readings) -> Ended {
    Ended {
        value: -3,
        lines: Vec::new(alloc),
        totals: Vec::new(alloc),
        measure,
        sites: IndexMap::new(alloc),
        regions: IndexMap::new(alloc),
    }
}

// Returns a run with these readings, and these rows for its tags.
fn ended_with(
    alloc: Global,
    measure: Readings,
    rows: &[(&str, RegionRow)],
) -> Result<Ended, AllocError> {
    let mut ended = empty_end(alloc, measure);
    ended.lines.push(7)?;
    place_sites(&mut ended.sites)?;
    place_regions(alloc, &mut ended.regions, rows)?;
    Ok(ended)
}

// Returns a trap after these lines.
fn trap_after(alloc: Global, lines: &[i64]) -> Result<Fault, AllocError> {
    Ok(Fault::Trap {
        code: Trap::DivisionByZero,
        line: 3,
        output: Vec::from_slice(alloc, lines)?,
    })
}

// Returns a run with this end.
fn ended_of(alloc: Global, end: &End) -> Result<Result<Ended, Fault>, AllocError> {
    match end {
        End::Readings(measure, rows) => Ok(Ok(ended_with(alloc, *measure, rows)?)),
        End::Trap(lines) => Ok(Err(trap_after(alloc, lines)?)),
        End::OverLimit => Ok(Err(Fault::OverLimit)),
        End::Memory => Ok(Err(Fault::Memory)),
    }
}

// Returns the values of a run, or its fault.
fn values_of(alloc: Global, end: &End) -> Result<Result<Values, Fault>, AllocError> {
    match end {
        End::Readings(..) => Ok(Ok(Values {
            value: -3,
            lines: Vec::from_slice(alloc, &[7])?,
            totals: Vec::new(alloc),
        })),
        End::Trap(lines) => Ok(Err(trap_after(alloc, lines)?)),
        End::OverLimit => Ok(Err(Fault::OverLimit)),
        End::Memory => Ok(Err(Fault::Memory)),
    }
}

// A run: its code, its outcome and its values.
#[derive(Drop)]
struct Run {
    code: Verified,
    ended: Result<Ended, Fault>,
    values: Result<Values, Fault>,
}

// Returns the run of a report.
fn run_of(alloc: Global, report: &Report) -> Result<Run, Fault> {
    Ok(Run {
        code: code_with(alloc, &[], report.tags)?,
        ended: ended_of(alloc, &report.end)?,
        values: values_of(alloc, &report.end)?,
    })
}

// Writes a report to a sink with this room.
fn report_to_room(
    alloc: Global,
    asked: Asked,
    run: &Run,
    room: usize,
) -> Result<Taken, AllocError> {
    let mut bytes = vec![in alloc; 0; room]?;
    let mut sink = Counted::new(Cursor::new(bytes.as_mut_slice()));
    let told = match asked {
        Asked::Run => answer(alloc, &run.code, &run.values, &mut sink),
        Asked::Scale => scale(alloc, &run.ended, false, &mut sink),
        Asked::ScaleTable => scale(alloc, &run.ended, true, &mut sink),
        Asked::Sites => sites(alloc, &run.code, &run.ended, false, &mut sink),
        Asked::SitesTable => sites(alloc, &run.code, &run.ended, true, &mut sink),
    };
    let failures = sink.failures();
    let taken = sink.into_inner().position();
    bytes.truncate(taken as usize);
    Ok(Taken {
        bytes,
        told,
        failures,
    })
}

/// Returns whether a sink with more room than needed takes the whole report, and a sink without room takes nothing.
pub(crate) fn is_taken(alloc: Global, report: &Report) -> Result<bool, Fault> {
    let run = run_of(alloc, report)?;
    let none = report_to_room(alloc, report.asked, &run, 0)?;
    let all = report_to_room(alloc, report.asked, &run, ROOM)?;
    Ok(none.is_beginning(report.text, 0) && all.is_beginning(report.text, ROOM))
}

// Returns whether sinks with each amount of room take a prefix of the report.
fn is_taken_by_rooms(alloc: Global, report: &Report) -> Result<bool, Fault> {
    let run = run_of(alloc, report)?;
    for room in 0..ROOM {
        let taken = report_to_room(alloc, report.asked, &run, room)?;
        if !taken.is_beginning(report.text, room) {
            return Ok(false);
        }
    }
    Ok(true)
}

const SMALL: Readings = Readings {
    work: 10,
    span: 4,
    burdened: 7,
};

const SORT: RegionRow = RegionRow {
    work: 2000,
    span: 3,
    burdened: 2000,
};

const NEVER: RegionRow = RegionRow {
    work: 0,
    span: 0,
    burdened: 0,
};

const SORTED: End = End::Readings(SMALL, &[("sort", SORT), ("never", NEVER)]);

static ENDED: [Report; 3] = [
    Report {
        name: "a run",
        asked: Asked::Run,
        tags: &["sort", "never"],
        end: SORTED,
        text: b"7\nreturn -3\n",
    },
    Report {
        name: "tags",
        asked: Asked::Scale,
        tags: &["sort", "never"],
        end: SORTED,
        text: b"tag,work,span,parallelism,burdened_span,burdened_parallelism\n,10,4,2.500,7,1.428\nsort,2000,3,666.666,2000,1.000\nnever,0,0,0.000,0,0.000\n",
    },
    Report {
        name: "call sites",
        asked: Asked::Sites,
        tags: &["sort", "never"],
        end: SORTED,
        text: b"site,kind,line,callee,calls,own_work,own_span,work,span\n0,root,12,main,1,5,4,30,20\n1,spawn,14,fib,2,10,6,25,4611686018427387904\n2,call,4294967295,leaf,0,0,0,0,0\n",
    },
];

static SCALES: [Report; 2] = [
    Report {
        name: "code with no tag has one line",
        asked: Asked::Scale,
        tags: &[],
        end: End::Readings(
            Readings {
                work: 4611686018427387904,
                span: 7,
                burdened: 4611686018427387905,
            },
            &[],
        ),
        text: b"tag,work,span,parallelism,burdened_span,burdened_parallelism\n,4611686018427387904,7,658812288346769700.571,4611686018427387905,0.999\n",
    },
    // no source has such tags, but code may
    Report {
        name: "fields that need quotes get them",
        asked: Asked::Scale,
        tags: &["a,b", "a\"b", "a\nb", "a\rb", "a b"],
        end: End::Readings(
            SMALL,
            &[
                ("a,b", NEVER),
                ("a\"b", NEVER),
                ("a\nb", NEVER),
                ("a\rb", NEVER),
                ("a b", NEVER),
            ],
        ),
        text: b"tag,work,span,parallelism,burdened_span,burdened_parallelism\n,10,4,2.500,7,1.428\n\"a,b\",0,0,0.000,0,0.000\n\"a\"\"b\",0,0,0.000,0,0.000\n\"a\nb\",0,0,0.000,0,0.000\n\"a\rb\",0,0,0.000,0,0.000\na b,0,0,0.000,0,0.000\n",
    },
];

const STOPPED: End = End::Trap(&[7, -1]);

// A run that did not finish has no table.
static NOT_ENDED: [Report; 7] = [
    Report {
        name: "what was printed before a trap",
        asked: Asked::Run,
        tags: &["sort"],
        end: STOPPED,
        text: b"7\n-1\n",
    },
    Report {
        name: "tags of a trap",
        asked: Asked::Scale,
        tags: &["sort"],
        end: STOPPED,
        text: b"",
    },
    Report {
        name: "call sites of a trap",
        asked: Asked::Sites,
        tags: &["sort"],
        end: STOPPED,
        text: b"",
    },
    Report {
        name: "tags of a run over its limit",
        asked: Asked::Scale,
        tags: &["sort"],
        end: End::OverLimit,
        text: b"",
    },
    Report {
        name: "call sites of a run over its limit",
        asked: Asked::Sites,
        tags: &["sort"],
        end: End::OverLimit,
        text: b"",
    },
    Report {
        name: "tags of a run without memory",
        asked: Asked::Scale,
        tags: &["sort"],
        end: End::Memory,
        text: b"",
    },
    Report {
        name: "call sites of a run without memory",
        asked: Asked::Sites,
        tags: &["sort"],
        end: End::Memory,
        text: b"",
    },
];

// Aligned tables; a run that did not finish has none.
static TABLES: [Report; 6] = [
    Report {
        name: "a table of tags",
        asked: Asked::ScaleTable,
        tags: &["sort", "never"],
        end: SORTED,
        text: b"tag         work  span  parallelism  burdened_span  burdened_parallelism\n(program)     10     4        2.500              7                 1.428\nsort       2,000     3      666.666          2,000                 1.000\nnever          0     0        0.000              0                 0.000\n",
    },
    Report {
        name: "a table of call sites",
        asked: Asked::SitesTable,
        tags: &["sort", "never"],
        end: SORTED,
        text: b"site  kind         line  callee  calls  own_work  % work  own_span  % span  work                       span\n   0  root           12  main        1         5    16.6         4    20.0    30                         20\n   1  spawn          14  fib         2        10    33.3         6    30.0    25  4,611,686,018,427,387,904\n   2  call   4294967295  leaf        0         0     0.0         0     0.0     0                          0\n",
    },
    Report {
        name: "a table with one row and wide numbers",
        asked: Asked::ScaleTable,
        tags: &[],
        end: End::Readings(
            Readings {
                work: 4611686018427387904,
                span: 7,
                burdened: 4611686018427387905,
            },
            &[],
        ),
        text: b"tag                             work  span                  parallelism              burdened_span  burdened_parallelism\n(program)  4,611,686,018,427,387,904     7  658,812,288,346,769,700.571  4,611,686,018,427,387,905                 0.999\n",
    },
    Report {
        name: "a table with a name of 64 bytes",
        asked: Asked::ScaleTable,
        tags: &["nnnnnnnnnnnnnnnnnnnnnnnnnnnnnnnnnnnnnnnnnnnnnnnnnnnnnnnnnnnnnnnn"],
        end: End::Readings(
            SMALL,
            &[(
                "nnnnnnnnnnnnnnnnnnnnnnnnnnnnnnnnnnnnnnnnnnnnnnnnnnnnnnnnnnnnnnnn",
                NEVER,
            )],
        ),
        text: b"tag                                                               work  span  parallelism  burdened_span  burdened_parallelism\n(program)                                                           10     4        2.500              7                 1.428\nnnnnnnnnnnnnnnnnnnnnnnnnnnnnnnnnnnnnnnnnnnnnnnnnnnnnnnnnnnnnnnnn     0     0        0.000              0                 0.000\n",
    },
    Report {
        name: "the table of a trap",
        asked: Asked::SitesTable,
        tags: &["sort"],
        end: STOPPED,
        text: b"",
    },
    Report {
        name: "the table of a run over its limit",
        asked: Asked::ScaleTable,
        tags: &["sort"],
        end: End::OverLimit,
        text: b"",
    },
];

#[test]
fn each_room_takes_a_beginning(rt: HostRuntime) -> Result<(), Fault> {
    for report in &ENDED {
        assert!(rt; is_taken_by_rooms(rt.alloc(), report)?, "{}", report.name);
    }
    Ok(())
}

#[test]
fn tables_of_tags(rt: HostRuntime) -> Result<(), Fault> {
    for report in &SCALES {
        assert!(rt; is_taken(rt.alloc(), report)?, "{}", report.name);
    }
    Ok(())
}

#[test]
fn a_run_that_did_not_end_has_no_table(rt: HostRuntime) -> Result<(), Fault> {
    for report in &NOT_ENDED {
        assert!(rt; is_taken(rt.alloc(), report)?, "{}", report.name);
    }
    Ok(())
}

#[test]
fn aligned_tables(rt: HostRuntime) -> Result<(), Fault> {
    for report in &TABLES {
        assert!(rt; is_taken_by_rooms(rt.alloc(), report)?, "{}", report.name);
    }
    Ok(())
}
