// What the definitions give, as the contract of a function with nothing to do.
ghost use Rattle.stay_check.specs.Staying.{StayLaw};
ghost use Rattle.stay_check.specs.LoopStay.{LoopUnderLaw, LoopStayLaw, UnshiftedLaw};

/// Where every face of the box holds, a plan that exceeds no first row by more than is stated leads from every grid state of the box to
/// a state whose nearest grid state, with any shift, lies in the box.
pub fn stay_law()
    ensures { StayLaw }
{}

/// A closed loop of a certified controller stays in the box, at every turn and from every grid state of the box, where each plan that exceeds
/// no first row by more than its number leads to a grid state of the box with any shift between two lists, no printed violation is above these
/// numbers, and the state is shifted after each turn by numbers between these lists.
pub fn loop_under_law()
    ensures { LoopUnderLaw }
{}

/// The same where no state is shifted.
pub fn loop_stay_law()
    ensures stays { LoopStayLaw }
    ensures same { UnshiftedLaw }
{}
