//! The laws of the definitions. Each function states a law as its contract, and does nothing.

ghost use Rattle.std.specs.Prelude.{◌<◌, ◌≡◌, true, ℕ};
ghost use Rattle.cw_model.specs.declared.burden.Burden.{Burden};
ghost use Rattle.cw_model.specs.Dag.{IsBurdenedSpan, IsSpan};
ghost use Rattle.cw_model.specs.FreedLaws.{AllFreedLeavesNothing, FallsByOwnSpanAtMost, FreedByItsSites, FreedIsNeverAbove, FreedIsRegrouped, NothingFreedIsTheSame};
ghost use Rattle.cw_model.specs.SiteLaw.{SitesAreNumbered};
ghost use Rattle.cw_model.specs.LoopLaws.{ForsAreByHalves, ForsHaveBodies, LoopsRunAsPlain, LoopsTrapAsPlain, LoopWorkAddsUp, LoopsAreDeepEnough};
ghost use Rattle.cw_model.specs.Rows.{sites_below};
ghost use Rattle.cw_model.specs.TreeLaws.{ReadSame, Regrouped, SitesAddUp};
ghost use Rattle.cw_model.specs.Trees.{Tree, burdened_span, normal, span};
ghost use Rattle.cw_model.specs.WhileLaw.{WhilesAreLeast};
ghost use Rattle.cw_model.specs.WorkLaw.{CallsTakeTheirWork};

/// States that, for each burden, the burdened span of a tree is the weight of a heaviest path; and that the span is
/// the weight of a heaviest path without a burden.
pub fn span_is_heaviest()
    ensures burdened { (burden : Burden) (t : Tree)
        → IsBurdenedSpan burden t (burdened_span burden t) }
    ensures plain { (t : Tree) → IsSpan t (span t) }
{}

/// States that a tree and its normal form have equal work, burdened spans, site rows and region rows.
pub fn normal_form_reads_the_same()
    ensures { (t : Tree) → ReadSame (normal t) t }
{}

/// States that the normal form of a tree differs from it only in grouping, that trees that differ only in grouping
/// have the same normal form, and that a normal form is its own normal form.
pub fn normal_form_is_one()
    ensures grouped { (t : Tree) → Regrouped (normal t) t }
    ensures one { (t u : Tree) → Regrouped t u → normal t ≡ normal u }
    ensures its_own { (t : Tree) → normal (normal t) ≡ normal t }
{}

/// States that if each invocation is of a site below a count, the own work of the sites below the count adds up to
/// the tree's work, and their own span to its span.
pub fn sites_add_up()
    ensures { (count : ℕ) (t : Tree) → 0 < count → sites_below count t ≡ true → SitesAddUp count t }
{}

/// States that, for each burden, the burdened span does not grow if sites cost nothing; the span is the case without a
/// burden. If the sites of a function cost nothing, the span falls by at most the own span of these sites.
pub fn freed_spans_are_bounded()
    ensures above { FreedIsNeverAbove }
    ensures below { FallsByOwnSpanAtMost }
{}

/// States that the tree is unchanged if no site is zero-cost, and that the span is 0 if all sites are zero-cost.
pub fn nothing_and_all_freed()
    ensures nothing { NothingFreedIsTheSame }
    ensures all { AllFreedLeavesNothing }
{}

/// States that trees that differ only in grouping still differ only in grouping if sites cost nothing, so the
/// measures of a tree and of its normal form agree; and that sites outside the tree have no effect.
pub fn freed_trees_are_alike()
    ensures grouped { FreedIsRegrouped }
    ensures sites { FreedByItsSites }
{}

/// States that the names held after a `while` are the least set that contains those held before it and those that an
/// iteration leaves held of the set.
pub fn while_is_least()
    ensures { WhilesAreLeast }
{}

/// States that a call that is done spends exactly the work of its tree.
pub fn call_takes_its_work()
    ensures { CallsTakeTheirWork }
{}

/// States that a `cilk_for` is a divide-and-conquer loop, and that its body satisfies the premise of the laws of
/// these loops: it is one part in series, and leaves at most the budget that it was given.
pub fn for_is_divide_and_conquer()
    ensures meaning { ForsAreByHalves }
    ensures body { ForsHaveBodies }
{}

/// States that a divide-and-conquer loop that is done did what the iterations of the plain loop do in order: to the
/// frame, the output and the reducers. Its cost is the cost of its leaves and inner nodes plus the cost of its
/// iterations, and its tree is made of their trees accordingly.
pub fn loop_runs_as_plain()
    ensures { LoopsRunAsPlain }
{}

/// States that a divide-and-conquer loop that traps did what fewer iterations of the plain loop do in order, and that
/// the next iteration traps in the same way.
pub fn loop_traps_as_plain()
    ensures { LoopsTrapAsPlain }
{}

/// States that the work of a loop's tree is the cost of its leaves and inner nodes plus the work of its iterations.
pub fn loop_work_adds_up()
    ensures { LoopWorkAddsUp }
{}

/// States that the bound on the depth of a loop is never reached: every larger bound has the same result.
pub fn loop_is_deep_enough()
    ensures { LoopsAreDeepEnough }
{}

/// States that the call statements of a derived program are numbered from 1, in source order.
#[tactic(auto, using(crate::proofs::Numbering::derived_is_numbered))]
pub fn derived_sites_are_numbered()
    ensures { SitesAreNumbered }
{}
