//! The rows of call sites of small runs, whole and joined from pieces, and the chosen paths, worked out by hand.

use SiteCall::{EndChild, EndHalf, Enter, Join, Leave, Note, Spawn, SpawnHalf};
use cw_sites::table::SiteTable;
use std::alloc::{AllocError, Global};

/// A call of a method of a table, at a number of instructions.
#[derive(Clone, Copy)]
enum SiteCall {
    /// A plain call of a site begins.
    Enter(u64, u32),
    /// A plain call ends, inside an invocation of a site.
    Leave(u64, u32),
    /// A spawned call of a site begins; the flag is true for the first child of its block since the last join.
    Spawn(u64, u32, bool),
    /// A spawned call ends, inside an invocation of a site.
    EndChild(u64, u32),
    /// The half of a loop begins; the flag is true for the first spawn of its block since the last join.
    SpawnHalf(u64, bool),
    /// The half of a loop ends.
    EndHalf(u64),
    /// The current block joins.
    Join(u64),
    /// The instructions so far are attributed to their sites.
    Note(u64),
}

fn tell(table: &mut SiteTable, told: SiteCall) -> Result<(), AllocError> {
    match told {
        Enter(count, site) => table.enter(count, site),
        Leave(count, outer) => table.leave(count, outer),
        Spawn(count, site, first) => table.spawn(count, site, first),
        EndChild(count, outer) => table.end_child(count, outer),
        SpawnHalf(count, first) => table.spawn_half(count, first),
        EndHalf(count) => table.end_half(count),
        Join(count) => table.join(count),
        Note(count) => table.note(count),
    }
}

fn tell_all(table: &mut SiteTable, all: &[SiteCall]) -> Result<(), AllocError> {
    for told in all {
        tell(table, *told)?;
    }
    Ok(())
}

/// Returns the calls, own work, own span, work and span of a site.
fn numbers(table: &SiteTable, site: u32) -> [u64; 5] {
    let row = table.site(site);
    [row.calls, row.own_work, row.own_span, row.work, row.span]
}

/// Returns the first site whose row differs.
fn wrong_row(table: &SiteTable, rows: &[(u32, [u64; 5])]) -> Option<u32> {
    for (site, row) in rows {
        if numbers(table, *site) != *row {
            return Some(*site);
        }
    }
    None
}

/// A piece of a run with its own table.
struct Piece {
    /// The site of the invocation in which it begins.
    here: u32,
    /// The calls of its table.
    told: &'static [SiteCall],
    /// Whether its block has not spawned before it since the last join.
    first: bool,
}

/// A run, with or without a piece that has its own table.
struct Run {
    name: &'static str,
    /// The calls of the run's table before the piece is joined.
    before: &'static [SiteCall],
    piece: Option<Piece>,
    /// The calls of the run's table after the piece was joined.
    after: &'static [SiteCall],
    /// Rows of sites at the end: calls, own work, own span, work and span.
    rows: &'static [(u32, [u64; 5])],
}

fn join_piece(alloc: Global, table: &mut SiteTable, piece: &Piece) -> Result<(), AllocError> {
    let mut apart = SiteTable::apart(alloc, piece.here);
    tell_all(&mut apart, piece.told)?;
    table.join_piece(apart, piece.first)
}

fn tell_run(alloc: Global, table: &mut SiteTable, run: &Run) -> Result<(), AllocError> {
    tell_all(table, run.before)?;
    if let Some(piece) = &run.piece {
        join_piece(alloc, table, piece)?;
    }
    tell_all(table, run.after)
}

fn wrong_row_of(alloc: Global, run: &Run) -> Result<Option<u32>, AllocError> {
    wrong_row_in(alloc, SiteTable::new(alloc, 0), run)
}

/// Returns the first site whose row differs if the run is itself a piece of another one, so that some rows are in
/// pages.
fn wrong_row_apart(alloc: Global, run: &Run) -> Result<Option<u32>, AllocError> {
    wrong_row_in(alloc, SiteTable::apart(alloc, 0), run)
}

fn wrong_row_in(alloc: Global, table: SiteTable, run: &Run) -> Result<Option<u32>, AllocError> {
    let mut table = table;
    tell_run(alloc, &mut table, run)?;
    Ok(wrong_row(&table, run.rows))
}

fn path_of(alloc: Global, run: &Run) -> Result<u64, AllocError> {
    let mut table = SiteTable::new(alloc, 0);
    tell_run(alloc, &mut table, run)?;
    Ok(table.path())
}

/// Runs without a piece that has its own table.
static WHOLE_RUNS: [Run; 6] = [
    Run {
        // A short child of 2 instructions in parallel with a continuation of 4, one instruction before and three
        // after.
        name: "a longer rest",
        before: &[
            Enter(0, 0),
            Spawn(1, 1, true),
            EndChild(3, 0),
            Join(7),
            Leave(10, 0),
        ],
        piece: None,
        after: &[],
        rows: &[
            (0, [1, 8, 8, 10, 8]),
            (1, [1, 2, 0, 2, 2]),
            (2, [0, 0, 0, 0, 0]),
        ],
    },
    Run {
        // A child that is as heavy as the continuation is chosen.
        name: "a tie of child and rest",
        before: &[
            Enter(0, 0),
            Spawn(1, 1, true),
            EndChild(5, 0),
            Join(9),
            Leave(10, 0),
        ],
        piece: None,
        after: &[],
        rows: &[(0, [1, 6, 2, 10, 6]), (1, [1, 4, 4, 4, 4])],
    },
    Run {
        // If the paths of two children from the first spawn on are equally heavy, the earlier one is chosen.
        name: "a tie of children",
        before: &[
            Enter(0, 0),
            Spawn(1, 1, true),
            EndChild(7, 0),
            Spawn(9, 2, false),
            EndChild(13, 0),
            Join(13),
            Leave(13, 0),
        ],
        piece: None,
        after: &[],
        rows: &[
            (0, [1, 3, 1, 13, 7]),
            (1, [1, 6, 6, 6, 6]),
            (2, [1, 4, 0, 4, 4]),
        ],
    },
    Run {
        // The later of two children is longer by one instruction between the spawns: the instructions between are on
        // the path.
        name: "a later child",
        before: &[
            Enter(0, 0),
            Spawn(1, 1, true),
            EndChild(7, 0),
            Spawn(10, 2, false),
            EndChild(14, 0),
            Join(14),
            Leave(14, 0),
        ],
        piece: None,
        after: &[],
        rows: &[
            (0, [1, 4, 4, 14, 8]),
            (1, [1, 6, 0, 6, 6]),
            (2, [1, 4, 4, 4, 4]),
        ],
    },
    Run {
        // A function that calls itself twice more from one site: only the outermost call of the site is added.
        name: "a recursion",
        before: &[
            Enter(0, 0),
            Enter(4, 2),
            Enter(15, 1),
            Enter(26, 1),
            Leave(32, 1),
            Leave(35, 2),
            Leave(38, 0),
            Leave(40, 0),
        ],
        piece: None,
        after: &[],
        rows: &[
            (0, [1, 6, 6, 40, 40]),
            (1, [2, 20, 20, 20, 20]),
            (2, [1, 14, 14, 34, 34]),
        ],
    },
    Run {
        // The halves of a loop belong to the invocation around the loop: 1 instruction, a half of 3 in parallel with
        // one of 5, 1 instruction.
        name: "halves of a loop",
        before: &[
            Enter(0, 0),
            SpawnHalf(1, true),
            Enter(2, 1),
            Leave(3, 0),
            EndHalf(4),
            Enter(5, 1),
            Leave(8, 0),
            Join(9),
            Leave(10, 0),
        ],
        piece: None,
        after: &[],
        rows: &[(0, [1, 6, 4, 10, 7]), (1, [2, 4, 3, 4, 4])],
    },
];

/// A child of 6 with calls of its own, a continuation of 5 with a call, and a child of 4 with a call: with the
/// continuation the later child is longer, and the steps of the earlier one are dropped from between.
const A_LONG_CHILD_REPLACED: [SiteCall; 13] = [
    Enter(0, 0),
    Spawn(1, 1, true),
    Enter(2, 2),
    Leave(3, 1),
    Enter(4, 3),
    Leave(6, 1),
    EndChild(7, 0),
    Enter(8, 4),
    Leave(11, 0),
    Spawn(12, 5, false),
    Enter(13, 6),
    Leave(15, 5),
    EndChild(16, 0),
];

/// Runs in which a long child is replaced.
static LONG_RUNS: [Run; 2] = [
    Run {
        // A continuation of 3 follows: the later child is chosen.
        name: "a long child replaced and chosen",
        before: &A_LONG_CHILD_REPLACED,
        piece: None,
        after: &[Enter(18, 7), Leave(19, 0), Join(19), Leave(20, 0)],
        rows: &[
            (0, [1, 6, 4, 20, 11]),
            (1, [1, 3, 0, 6, 6]),
            (2, [1, 1, 0, 1, 1]),
            (3, [1, 2, 0, 2, 2]),
            (4, [1, 3, 3, 3, 3]),
            (5, [1, 2, 2, 4, 4]),
            (6, [1, 2, 2, 2, 2]),
            (7, [1, 1, 0, 1, 1]),
        ],
    },
    Run {
        // A continuation of 8 follows: it is chosen, and the steps of the later child are dropped from between.
        name: "a long rest chosen",
        before: &A_LONG_CHILD_REPLACED,
        piece: None,
        after: &[Enter(18, 7), Leave(24, 0), Join(24), Leave(25, 0)],
        rows: &[
            (0, [1, 6, 6, 25, 15]),
            (4, [1, 3, 3, 3, 3]),
            (5, [1, 2, 0, 4, 4]),
            (6, [1, 2, 0, 2, 2]),
            (7, [1, 6, 6, 6, 6]),
        ],
    },
];

/// Runs with a piece that has its own table.
static JOINED_RUNS: [Run; 4] = [
    Run {
        // 1 instruction, a child of 2, and in the continuation, with 1 instruction at each place, a child of 4 and
        // one of 2; then a join and 3 instructions. The path goes through the continuation to the child of 4: 1 + 1 +
        // 4 from the first spawn on, in parallel with 2.
        name: "a rest that ran apart",
        before: &[Enter(0, 0), Spawn(1, 1, true), EndChild(3, 0)],
        piece: Some(Piece {
            here: 0,
            told: &[
                Spawn(1, 2, true),
                EndChild(5, 0),
                Spawn(6, 1, false),
                EndChild(8, 0),
                Note(9),
            ],
            first: false,
        }),
        after: &[Join(12), Leave(15, 0)],
        rows: &[
            (0, [1, 7, 5, 15, 9]),
            (1, [2, 4, 0, 4, 4]),
            (2, [1, 4, 4, 4, 4]),
        ],
    },
    Run {
        // The continuation's longest child ties with the child before it: that child is chosen, as in a serial run.
        name: "a tie with a rest that ran apart",
        before: &[Enter(0, 0), Spawn(1, 1, true), EndChild(6, 0)],
        piece: Some(Piece {
            here: 0,
            told: &[Spawn(1, 2, true), EndChild(5, 0)],
            first: false,
        }),
        after: &[Join(11), Leave(11, 0)],
        rows: &[
            (0, [1, 2, 1, 11, 6]),
            (1, [1, 5, 5, 5, 5]),
            (2, [1, 4, 0, 4, 4]),
        ],
    },
    Run {
        // A piece with its own join, after one instruction of a block that has spawned nothing: before its join a
        // child of 3 in parallel with a continuation of 1, after it a child of 2 in parallel with a continuation of
        // 1.
        name: "a piece that has joined",
        before: &[Enter(0, 0), Note(1)],
        piece: Some(Piece {
            here: 0,
            told: &[
                Spawn(0, 2, true),
                EndChild(3, 0),
                Join(4),
                Spawn(4, 2, true),
                EndChild(6, 0),
                Note(7),
            ],
            first: true,
        }),
        after: &[Join(8), Leave(9, 0)],
        rows: &[(0, [1, 4, 2, 9, 7]), (2, [2, 5, 5, 5, 5])],
    },
    Run {
        // A separately executed piece inside an invocation of its own site, whose work is not added a second time.
        name: "a piece inside its own site",
        before: &[Enter(0, 0), Enter(1, 1), Note(3)],
        piece: Some(Piece {
            here: 1,
            told: &[Enter(0, 1), Leave(5, 1)],
            first: true,
        }),
        after: &[Leave(9, 0), Leave(10, 0)],
        rows: &[(0, [1, 2, 2, 10, 10]), (1, [2, 8, 8, 8, 8])],
    },
];

/// Runs with sites on both sides of the boundaries of pages (64 sites) and of their shelves (2,048), up to the
/// maximum, in a piece whose vector grows.
static PAGED_RUNS: [Run; 2] = [
    Run {
        // Consecutive calls, some of them of sites that were called before: the row of site 100 is in a page at its
        // first call, and in the vector from the second on.
        name: "calls across borders",
        before: &[Enter(0, 0), Enter(1, 320), Leave(9, 0), Note(10)],
        piece: Some(Piece {
            here: 0,
            told: &[
                Enter(0, 100),
                Leave(1, 0),
                Enter(1, 255),
                Leave(2, 0),
                Enter(2, 256),
                Leave(4, 0),
                Enter(4, 319),
                Leave(7, 0),
                Enter(7, 320),
                Leave(11, 0),
                Enter(11, 2_047),
                Leave(16, 0),
                Enter(16, 2_048),
                Leave(22, 0),
                Enter(22, 65_535),
                Leave(29, 0),
                Enter(29, 100),
                Leave(31, 0),
            ],
            first: true,
        }),
        after: &[Enter(41, 256), Leave(43, 0), Leave(44, 0)],
        rows: &[
            (0, [1, 3, 3, 44, 44]),
            (99, [0, 0, 0, 0, 0]),
            (100, [2, 3, 3, 3, 3]),
            (101, [0, 0, 0, 0, 0]),
            (254, [0, 0, 0, 0, 0]),
            (255, [1, 1, 1, 1, 1]),
            (256, [2, 4, 4, 4, 4]),
            (257, [0, 0, 0, 0, 0]),
            (318, [0, 0, 0, 0, 0]),
            (319, [1, 3, 3, 3, 3]),
            (320, [2, 12, 12, 12, 12]),
            (321, [0, 0, 0, 0, 0]),
            (384, [0, 0, 0, 0, 0]),
            (2_046, [0, 0, 0, 0, 0]),
            (2_047, [1, 5, 5, 5, 5]),
            (2_048, [1, 6, 6, 6, 6]),
            (2_049, [0, 0, 0, 0, 0]),
            (65_534, [0, 0, 0, 0, 0]),
            (65_535, [1, 7, 7, 7, 7]),
        ],
    },
    Run {
        // A piece inside an invocation of site 2,048 calls it again, and spawns a call of 64,000 that is longer than
        // the continuation in parallel with it.
        name: "a spawn across borders",
        before: &[Enter(0, 0), Enter(2, 2_048), Note(5)],
        piece: Some(Piece {
            here: 2_048,
            told: &[
                Enter(1, 2_048),
                Leave(3, 2_048),
                Spawn(4, 64_000, true),
                Enter(5, 2_047),
                Leave(9, 64_000),
                EndChild(10, 2_048),
                Note(12),
            ],
            first: true,
        }),
        after: &[Join(18), Leave(19, 0), Leave(20, 0)],
        rows: &[
            (0, [1, 3, 3, 20, 17]),
            (2_047, [1, 4, 4, 4, 4]),
            (2_048, [2, 11, 8, 17, 14]),
            (64_000, [1, 2, 2, 6, 6]),
        ],
    },
];

#[test]
fn whole_runs(rt: HostRuntime) -> Result<(), AllocError> {
    for run in &WHOLE_RUNS {
        assert_eq!(rt; wrong_row_of(rt.alloc(), run)?, None, "{}", run.name);
    }
    Ok(())
}

#[test]
fn long_runs(rt: HostRuntime) -> Result<(), AllocError> {
    for run in &LONG_RUNS {
        assert_eq!(rt; wrong_row_of(rt.alloc(), run)?, None, "{}", run.name);
    }
    Ok(())
}

#[test]
fn joined_runs(rt: HostRuntime) -> Result<(), AllocError> {
    for run in &JOINED_RUNS {
        assert_eq!(rt; wrong_row_of(rt.alloc(), run)?, None, "{}", run.name);
    }
    Ok(())
}

#[test]
fn rows_in_pages(rt: HostRuntime) -> Result<(), AllocError> {
    for run in &PAGED_RUNS {
        assert_eq!(rt; wrong_row_of(rt.alloc(), run)?, None, "{}", run.name);
        assert_eq!(rt;
            wrong_row_apart(rt.alloc(), run)?,
            None,
            "{}, in a piece",
            run.name
        );
    }
    Ok(())
}

// The weight of the path of the first run is its span.
#[test]
fn the_path_of_a_run(rt: HostRuntime) -> Result<(), AllocError> {
    assert_eq!(rt; path_of(rt.alloc(), &WHOLE_RUNS[0])?, 8);
    Ok(())
}

/// Executes an iteration of a loop, of 15 instructions, that calls site 1, which calls site 2.
fn turn_with_two_calls(table: &mut SiteTable, turn: u32) -> Result<(), AllocError> {
    let count = turn as u64 * 15;
    table.enter(count + 1, 1)?;
    table.enter(count + 3, 2)?;
    table.leave(count + 6, 1)?;
    table.leave(count + 10, 0)
}

/// Returns the maximum number of steps of the path after each of 2,000 iterations.
fn most_steps_in_turns(table: &mut SiteTable) -> Result<usize, AllocError> {
    let mut most = 0;
    for turn in 0..2_000u32 {
        turn_with_two_calls(table, turn)?;
        most = most.max(table.paths.steps.len());
    }
    Ok(most)
}

/// Executes a call with such iterations, and returns this maximum.
fn run_with_turns(table: &mut SiteTable) -> Result<usize, AllocError> {
    table.enter(0, 0)?;
    let most = most_steps_in_turns(table)?;
    table.leave(30_000, 0)?;
    Ok(most)
}

static ROWS_OF_TURNS: [(u32, [u64; 5]); 3] = [
    (0, [1, 12_000, 12_000, 30_000, 30_000]),
    (1, [2_000, 12_000, 12_000, 18_000, 18_000]),
    (2, [2_000, 6_000, 6_000, 6_000, 6_000]),
];

// A path through many calls of two sites has at most twice the number of sites plus a constant steps.
#[test]
fn a_long_loop_of_calls(rt: HostRuntime) -> Result<(), AllocError> {
    let mut table = SiteTable::new(rt.alloc(), 0);
    assert!(rt; run_with_turns(&mut table)? <= 71);
    assert_eq!(rt; wrong_row(&table, &ROWS_OF_TURNS), None);
    Ok(())
}

/// Spawns 300 children of 2 instructions each, with 9 before each.
fn spawn_many(table: &mut SiteTable) -> Result<(), AllocError> {
    for turn in 0..300u64 {
        table.spawn(11 * turn + 9, 1, turn == 0)?;
        table.end_child(11 * turn + 11, 0)?;
    }
    Ok(())
}

/// Executes a call with such children, and returns the number of the path's steps before the join.
fn run_with_many_spawns(table: &mut SiteTable) -> Result<usize, AllocError> {
    table.enter(0, 0)?;
    spawn_many(table)?;
    let steps = table.paths.steps.len();
    table.join(3300)?;
    table.leave(3300, 0)?;
    Ok(steps)
}

static ROWS_OF_MANY_SPAWNS: [(u32, [u64; 5]); 2] = [
    (0, [1, 2700, 2700, 3300, 2702]),
    (1, [300, 600, 2, 600, 600]),
];

// 300 spawns without a join, 9 instructions before each and 2 in its child: the last child is chosen, with all
// instructions before it, and their steps are merged before they become many.
#[test]
fn many_spawns_without_a_join(rt: HostRuntime) -> Result<(), AllocError> {
    let mut table = SiteTable::new(rt.alloc(), 0);
    assert!(rt; run_with_many_spawns(&mut table)? < 100);
    assert_eq!(rt; wrong_row(&table, &ROWS_OF_MANY_SPAWNS), None);
    Ok(())
}

/// The instructions of one call of each of three sites (0 if it is not called), in our table and in the table of a
/// piece that is joined to it: the calls and the sums of both.
struct Merged {
    ours: [u32; 3],
    piece: [u32; 3],
    calls: [u32; 3],
    sums: [u32; 3],
}

static MERGED: [Merged; 4] = [
    Merged {
        ours: [5, 7, 0],
        piece: [20, 0, 0],
        calls: [2, 1, 0],
        sums: [25, 7, 0],
    },
    Merged {
        ours: [5, 0, 0],
        piece: [20, 30, 40],
        calls: [2, 1, 1],
        sums: [25, 30, 40],
    },
    Merged {
        ours: [0, 0, 0],
        piece: [20, 0, 40],
        calls: [1, 0, 1],
        sums: [20, 0, 40],
    },
    Merged {
        ours: [5, 0, 9],
        piece: [0, 0, 0],
        calls: [1, 0, 1],
        sums: [5, 0, 9],
    },
];

/// Calls each site that has instructions once.
fn call_each(table: &mut SiteTable, works: &[u32; 3]) -> Result<(), AllocError> {
    for site in 0..3u32 {
        call_once(table, site, works[site as usize])?;
    }
    Ok(())
}

fn call_once(table: &mut SiteTable, site: u32, work: u32) -> Result<(), AllocError> {
    if work == 0 {
        return Ok(());
    }
    let begin = table.noted;
    table.enter(begin, site)?;
    table.leave(begin.saturating_add(work as u64), 0)
}

/// Returns whether this is the row of a site, and a further call of 3 instructions is added to it.
fn is_summed(table: &mut SiteTable, site: u32, calls: u32, sum: u32) -> Result<bool, AllocError> {
    let (calls, sum) = (calls as u64, sum as u64);
    let before = numbers(table, site) == [calls, sum, sum, sum, sum];
    call_once(table, site, 3)?;
    let more = sum + 3;
    let after = numbers(table, site) == [calls + 1, more, more, more, more];
    Ok(before && after)
}

fn merge(alloc: Global, table: &mut SiteTable, row: &Merged) -> Result<(), AllocError> {
    call_each(table, &row.ours)?;
    let mut piece = SiteTable::new(alloc, 0);
    call_each(&mut piece, &row.piece)?;
    table.join_piece(piece, true)
}

/// Returns the first site whose row is not the sum of both.
fn wrong_sum(table: &mut SiteTable, row: &Merged) -> Result<Option<u32>, AllocError> {
    for site in 0..3u32 {
        let k = site as usize;
        if !is_summed(table, site, row.calls[k], row.sums[k])? {
            return Ok(Some(site));
        }
    }
    Ok(None)
}

fn wrong_sum_of(alloc: Global, row: &Merged) -> Result<Option<u32>, AllocError> {
    let mut table = SiteTable::new(alloc, 0);
    merge(alloc, &mut table, row)?;
    wrong_sum(&mut table, row)
}

// The calls of a piece are added to ours, site by site, whichever of the two has rows for more sites; and a call that
// begins later is added as usual.
#[test]
fn rows_of_more_sites_stay(rt: HostRuntime) -> Result<(), AllocError> {
    for (k, row) in MERGED.iter().enumerate() {
        assert_eq!(rt; wrong_sum_of(rt.alloc(), row)?, None, "row {k}");
    }
    Ok(())
}
