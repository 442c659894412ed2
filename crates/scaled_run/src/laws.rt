// The laws, for who stands on them.
ghost use Rattle.scaled_run.specs.ScaledLaws.{FineIsScaled, ExactRunLaw, ExactCostLaw, ExactLimitLaw, ExactIsScaled, ExactRadiiLaw, FineSizesLaw, ExactReachLaw, ExactSizesLaw, ExactRoomLaw};
ghost use Rattle.scaled_run.specs.ScaledCorners.{FineCornersAreScaled, ExactCornersAreScaled, ExactCornerRoomLaw};

/// The form in enclosures is the one recipe's, where whole numbers are over `2^40` and products over `2^80 / 2^40`.
pub fn fine_is_scaled()
    ensures { FineIsScaled }
{}

/// Over the plant's denominator to the power of the stages each state of a run is the exact one, and no radius is left.
pub fn exact_run_law()
    ensures { ExactRunLaw }
{}

/// So is what each cost row has of it.
pub fn exact_cost_law()
    ensures { ExactCostLaw }
{}

/// And what each limit row has of it.
pub fn exact_limit_law()
    ensures { ExactLimitLaw }
{}

/// The exact form is the one recipe's, number by number.
pub fn exact_is_scaled()
    ensures { ExactIsScaled }
{}

/// It has no radius.
pub fn exact_radii_law()
    ensures { ExactRadiiLaw }
{}

/// The quantities of enclosures are the one recipe's.
pub fn fine_sizes_law()
    ensures { FineSizesLaw }
{}

/// Without a slack the recursion of the reach is a product of powers.
pub fn exact_reach_law()
    ensures { ExactReachLaw }
{}

/// The exact quantities are the one recipe's.
pub fn exact_sizes_law()
    ensures { ExactSizesLaw }
{}

/// Where the exact quantity `hessian` is within its limit, so is each sum before it is divided.
pub fn exact_room_law()
    ensures { ExactRoomLaw }
{}

/// Corners in enclosures are the one recipe's.
pub fn fine_corners_are_scaled()
    ensures { FineCornersAreScaled }
{}

/// And so are exact corners.
pub fn exact_corners_are_scaled()
    ensures { ExactCornersAreScaled }
{}

/// Where the quantity `corner_cost` of exact corners is within its limit, so is each sum of their runs before it is divided.
pub fn exact_corner_room_law()
    ensures { ExactCornerRoomLaw }
{}
