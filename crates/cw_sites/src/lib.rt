//! Computes the measures of each call site.
//!
//! A [`table::SiteTable`] computes, over a run so far, calls, own work, own span on the chosen path, and work and
//! span of the outermost invocations of each site. No path is ever copied: the paths of a strand and of its enclosing
//! blocks are consecutive parts of one list of steps, and a choice between paths removes a part of the list. The
//! steps of one path have no order, so a gap is filled from the end, and at most as many steps move as are removed.
//! If a path is longer than twice the number of sites plus a constant, the steps of equal sites are merged. So the
//! memory for paths is at most a constant times the number of sites, for the strand and for each open block that has
//! spawned (`laws::paths_are_few`), and each call takes amortized constant time.
//!
//! # How a run calls a `SiteTable`
//!
//! The run knows the number of its instructions, whether the current block has spawned since its last join, and for
//! each invocation the site of the enclosing one. `Tracks base busy opens events table` states that a table represents
//! a run so far: its open parts, the innermost first, and the events of the current block; `base` is the site in
//! which the table began, and `busy` the number of invocations of each site that were open around it (0, and none,
//! for a whole run).
//!
//! | event | call |
//! |---|---|
//! | start and end of a run | `enter(0, 0)`; the joins of `main` as below, `leave(count, 0)`, `site(q)` for each site |
//! | a call, after its instruction | `enter(count, site)` |
//! | the return of a call, after it and its block's join | `leave(count, outer)`; `outer`: the enclosing invocation's site |
//! | a spawn whose child this strand executes, after its instruction | `spawn(count, site, first)` |
//! | the return of a spawned call | `end_child(count, outer)` |
//! | the spawned half of a loop, which belongs to the enclosing invocation | `spawn_half(count, first)`, `end_half(count)` |
//! | a join of a block that has spawned since its last join, before its instruction | `join(count)` |
//! | a join of any other block | none |
//! | a scope, cut, iteration or region, before its start and before its end | `note(count)` (`laws::quiet_parts_need_no_call`) |
//! | any other instruction | none |
//!
//! # Pieces that are executed separately
//!
//! A piece that another worker executes inside open parts has its own table: `SiteTable::apart(alloc, here)`, with
//! the site of the innermost open invocation. It does not know the other open invocations: the work and span of
//! invocations inside open ones of the same site are left out when the piece is joined. This table takes memory only
//! for the sites that the piece meets, for all site numbers, and counts its own instructions from 0. When the piece
//! has ended and no part of it is open, call `note` for both tables; then `join_piece(piece, first)` appends the
//! piece as the next events of the current block. The piece must have no join, or the block must not have spawned
//! since its last join.
//!
//! `first` says that the block has not spawned since its last join. Later counts continue from the sum of both. The
//! table then represents all events in serial order, as if none had been executed separately
//! (`laws::pieces_are_one`), ties included. A join takes one step for each row of the piece and for each step of its
//! path, which is at most twice the number of sites plus a constant.
//!
//! After an error, which means that memory ran out, a table is meaningless.
//!
//! A machine states the following against the trace of the code's meaning: if the waiting calls of the state are the
//! open parts, and the trace's events are `es ++ fs`, then the table represents `es`, and `fs` are `Since` its last
//! call up to the count: instructions, and joins of a block that had spawned nothing. So an instruction without a
//! call only adds to `fs`. The numbers fit if the work, the calls and the open invocations of a run are below 2^64
//! (`Small`).
#![tactic(auto)]

mod compacting;
pub mod laws;
mod memory;
pub mod paths;
pub mod rows;
pub mod steps;
pub mod table;
