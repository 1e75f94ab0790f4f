//! The laws of region tables. Each function states a law as its contract, and does nothing.

ghost use Rattle.cw_regions.specs.Regions.{RegionsKeep};

/// States that instructions, joins, and parts that are not executions of a tag need no call of the table.
#[tactic(auto, using(crate::proofs::RegionLaws::regions_keep))]
pub fn regions_need_no_call()
    ensures { RegionsKeep }
{}
