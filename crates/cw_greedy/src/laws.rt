//! The laws of the definitions. Each function states a law as its contract, and does nothing.

ghost use Rattle.std.specs.Prelude.{ℕ, ◌≤◌, ◌≡◌};
ghost use Rattle.cw_model.specs.Trees.{Tree};
ghost use Rattle.cw_greedy.specs.Bounds.{GreedyIsBounded, NobodyWaits};
ghost use Rattle.cw_greedy.specs.Blocks.{RecordsCount, RecordsJoin, TreesByJumps};
ghost use Rattle.cw_greedy.specs.Counts.{StrandsAreCounted};
ghost use Rattle.cw_greedy.specs.Edges.{IsLeaf, StepsByEdges};
ghost use Rattle.cw_model.specs.Dag.{Place};
ghost use Rattle.cw_greedy.specs.Greedy.{greedy_length};
ghost use Rattle.cw_model.specs.TreeLaws.{Regrouped};
ghost use Rattle.cw_greedy.specs.Jumps.{StepsAtOnce};
ghost use Rattle.cw_greedy.specs.Jumping.{CanBeCounted, Going, JumpsAreGreedy};
ghost use Rattle.cw_greedy.specs.Slots.{ShowsBoard};
ghost use Rattle.cw_greedy.specs.Rounds.{RoundsPreserveLength};

/// States that the length of a greedy schedule is at least the work per processor and at least the span, and at most
/// their sum.
pub fn greedy_is_bounded()
    ensures { (p : ℕ) (t : Tree) → 1 ≤ p → GreedyIsBounded p t }
{}

/// States that with more processors than spawns the length of the schedule is the span.
pub fn nobody_waits()
    ensures { NobodyWaits }
{}

/// States that steps may be combined into one jump as long as each executing strand has an instruction left.
pub fn steps_at_once()
    ensures { StepsAtOnce }
{}

/// States that trees that differ only in the grouping of series, the division into strands, and the positions of
/// empty strands have greedy schedules of the same length.
pub fn regrouped_trees_take_as_long()
    ensures { (p : ℕ) (t u : Tree) → Regrouped t u → greedy_length p t ≡ greedy_length p u }
{}

/// States that the number of steps of the algorithm's moves, in any order, is the length of the greedy schedule.
pub fn jumps_are_greedy()
    ensures { JumpsAreGreedy }
{}

/// States that in a step the first ready strands in serial order execute one instruction each, and no other strand
/// does. A strand is ready if some of its instructions are left and all strands with an edge of the dag into it are
/// done. It is among the first if fewer than `processors` ready strands come before it in serial order.
pub fn steps_go_by_edges()
    ensures { (processors : ℕ) (t : Tree) (p : Place) → IsLeaf t p → StepsByEdges processors t p }
{}

/// States that the number of steps of the algorithm's moves on the block of a strand tree is the length of the tree's
/// greedy schedule.
pub fn trees_go_by_jumps()
    ensures { TreesByJumps }
{}

/// States that the codes of the pieces of a sync block's events, concatenated, are the codes of the whole, for every
/// division.
pub fn records_join()
    ensures { RecordsJoin }
{}

/// States that after all joins, the record of a run and the run's tree have the same number of strands.
pub fn records_count_strands()
    ensures { RecordsCount }
{}

/// States that a run has one strand, two more for each call of a call statement, two more for each spawn, and one
/// more for each join that follows a spawn.
pub fn strands_are_counted()
    ensures { StrandsAreCounted }
{}

/// States that a jump of the schedule needs only the list of a state's strands, with the remaining instructions of the ready
/// ones.
pub fn lists_show_boards()
    ensures { (g : Going) → ShowsBoard g }
{}

/// States that the algorithm terminates.
pub fn jumps_end()
    ensures { CanBeCounted }
{}

/// States the invariant of the algorithm's loop on its board: the number of steps so far, plus the number of steps
/// from the current state on.
pub fn rounds_preserve_length()
    ensures { (p : ℕ) → 1 ≤ p → RoundsPreserveLength p }
{}
