ghost use Rattle.ug_surrogate.specs.Implied.{ImpliedIsKept};
ghost use Rattle.ug_surrogate.specs.Weights.{BoundsAreBelow};

/// The least of a weighted sum over a box, divided by the weight of the objective and rounded up,
/// is at most the value of each feasible point of the box.
#[tactic(auto, using(crate::proofs::Below::bounds_are_below))]
pub fn bounds_are_below()
    ensures { BoundsAreBelow }
{}

/// Each feasible point with a value below a cutoff satisfies the row that multipliers imply under
/// it.
pub fn implied_rows_keep_good_points()
    ensures { ImpliedIsKept }
{}
