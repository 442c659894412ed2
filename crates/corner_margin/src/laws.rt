// What the definitions give, as the contract of a function with nothing to do.
ghost use Rattle.qp_model.specs.bounds.CornerClass.{FineCornersLaw};

/// What the enclosures show of a policy is no more than it truly shows at the corners of the box: slacks that are at most the true ones, and costs
/// that are at least those.
pub fn fine_corners_law()
    ensures { FineCornersLaw }
{}
