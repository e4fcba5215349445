ghost use Rattle.ug_problem.specs.Better.{BetterIsBelowCutoff, CoveredUnderMore};
ghost use Rattle.ug_problem.specs.Right.{OneIsKept};

/// A point is better than those kept by more than the gap exactly where it is feasible, is not
/// kept, and its value is below the cutoff of the last, if as many are kept as may be.
#[tactic(auto, using(crate::proofs::Cutoffs::better_below_cutoff))]
pub fn better_is_below_the_cutoff()
    ensures { BetterIsBelowCutoff }
{}

/// Boxes that are Covered under a gap are so under a larger one.
pub fn gaps_may_grow()
    ensures { CoveredUnderMore }
{}

/// What better and right mean if one point is kept at most.
#[tactic(auto, using(crate::proofs::Incumbents::one_is_kept))]
pub fn one_point_is_kept()
    ensures { OneIsKept }
{}
