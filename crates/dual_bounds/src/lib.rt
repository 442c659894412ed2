//! The bound of the multipliers, the number of steps and the printed bounds, from the margin of a policy; and why the margin at the
//! corners of the box says something of every state in it.
#![tactic(auto)]

ghost use Rattle.dual_bounds.specs.Corners.{BoxLaw, RepairLaw, ExcessBoxLaw, ThresholdLaw, ExcessShownLaw};

mod numbers;

pub use numbers::{
    TooManySteps, fast_multiplier, fast_steps, lean_multiplier, lean_row_violation, multiplier,
    row_violation, steps, undercut, violation,
};

/// Where the corners' plans have a slack in each row and cost at most so much, some plan at every grid state of the box does. A plan there that
/// exceeds each row by at most v has a feasible plan that costs at most R v more.
pub fn corner_law()
    ensures box_margin { BoxLaw }
    ensures repair { RepairLaw }
{}

/// The same with the excess of the corners' plans, by how much they cost more than the best plan without limits, in place of their cost, and for plans
/// that exceed some row by more than a threshold: then a unit of excess is worth R where R is at least the corners' excess over the sum of their slack
/// and the threshold. Reference plans show such an excess.
pub fn threshold_law()
    ensures shown { ExcessShownLaw }
    ensures box_excess { ExcessBoxLaw }
    ensures repair { ThresholdLaw }
{}
