//! How near a controller's plans are to an affine law of the state where limits bind, and how loops settle that begin there.
#![tactic(auto)]

ghost use Rattle.near_check.specs.Distance.{DistanceLaw};
ghost use Rattle.near_check.specs.Near.{NearLaw, CertifiedNearLaw};
ghost use Rattle.near_check.specs.LeanNear.{LeanNearLaw};
ghost use Rattle.near_check.specs.FarRows.{FarRowLaw};
ghost use Rattle.near_check.specs.FarTube.{FarTubeLaw};
ghost use Rattle.near_check.specs.FarSettling.{FarSettlingLaw, CertifiedFarLaw};
ghost use Rattle.near_check.specs.Worked.{WorkedFar};

/// Input by input, how far a plan is from one whose gradient is small, where it costs little more.
pub fn distance_law()
    ensures { DistanceLaw }
{}

/// The first inputs of an averaged plan are near those of the plan that the multipliers 0 give, where some feasible plan costs little more than the best
/// without limits.
pub fn near_law()
    ensures { NearLaw }
{}

/// So are those of a certified controller from every grid state of the box, where a policy's excess shows it.
pub fn certified_near_law()
    ensures { CertifiedNearLaw }
{}

/// And those of a lean controller, by any policy and references.
pub fn lean_near_law()
    ensures { LeanNearLaw }
{}

/// From a state at which the plan is near, what the plant's next state has of a whole row, with any shift between two lists, is at most what the state
/// has of any other, and what the turn adds at most.
pub fn far_row_law()
    ensures { FarRowLaw }
{}

/// A loop that lies for its first turns where plans are near, and then where no multiplier moves, lies in the tube of both.
pub fn far_tube_law()
    ensures { FarTubeLaw }
{}

/// Where a certificate with first turns is met, every loop from the start box, under every list of shifts between two lists, lies in the controller's
/// box, after the first turns where no multiplier moves, and from turn n on in the settled box, for every number of turns.
pub fn far_settling_law()
    ensures { FarSettlingLaw }
{}

/// So it does of a certified controller where a policy's excess shows that plans are near, and the controller is certified at the state of each turn.
pub fn certified_far_law()
    ensures { CertifiedFarLaw }
{}

/// A worked loop that begins where limits bind, computed from the definitions.
pub fn worked_law()
    ensures { WorkedFar }
{}
