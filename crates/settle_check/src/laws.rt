// What the definitions give, as the contract of a function with nothing to do.
ghost use Rattle.settle_check.specs.Still.{StillLaw, FastStillLaw};
ghost use Rattle.settle_check.specs.ClosedRows.{RowLaw};
ghost use Rattle.settle_check.specs.Tube.{TubeRowsLaw, TubeLaw};
ghost use Rattle.settle_check.specs.Settling.{SettlingLaw, RowSettlingLaw, CertifiedSettlingLaw};
ghost use Rattle.settle_check.specs.Worked.{WorkedSettling};

/// From each state of a box that passes the test of every row, in a run of any controller in form, all multipliers are 0 after each step, and
/// each plan is the one that these give.
pub fn still_law()
    ensures { StillLaw }
{}

/// So it is in a run of the accelerated machine, and what was reached of the multipliers is 0 too: its averaged plan is the same.
pub fn fast_still_law()
    ensures { FastStillLaw }
{}

/// From there, what the plant's next state has of a whole row, with any shift between two lists, is at most what the state has of any other, and
/// what the turn adds at most.
pub fn row_law()
    ensures { RowLaw }
{}

/// As long as a loop's states lie in such a box, this holds for any rows, turn after turn, and the next state lies in the tube.
pub fn tube_law()
    ensures rows { TubeRowsLaw }
    ensures tube { TubeLaw }
{}

/// Where a certificate is met, every loop from the start box, under every list of shifts between two lists, lies in the box where no multiplier
/// moves at each turn, for every number of turns, and from turn n on in the settled box.
pub fn settling_law()
    ensures { SettlingLaw }
{}

/// There any whole row of the state is, at each turn from a number of turns on, at most what these turns show from the box where no multiplier moves:
/// also of states that don't settle themselves, as a temperature less its target.
pub fn row_settling_law()
    ensures { RowSettlingLaw }
{}

/// Where loops settle and the controller is certified in the design's box with its bounds, the state of each turn lies in that box, and the run from it
/// keeps the printed bounds.
pub fn certified_settling_law()
    ensures { CertifiedSettlingLaw }
{}

/// A worked loop, computed from the definitions: the test of its rows at the ends of the greatest box that passes, and where it lies turn by turn.
pub fn worked_law()
    ensures { WorkedSettling }
{}
