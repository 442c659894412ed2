// What the definitions give, each as the contract of a function with nothing to do.
ghost use Rattle.qp_model.specs.form.Condensing.{CondensingLaw, TrajectoryLaw};
ghost use Rattle.qp_model.specs.problem.Runs.{PlantRunLaw, ResponseLaw, ResidualLaw, RowBoundLaw, GramLaw, AgreesLaw, CostBoundLaw};
ghost use Rattle.qp_model.specs.problem.CostShape.{ExpansionLaw, HessianLaw, CurvatureLaw, AverageLaw, DifferenceLaw, FloorLaw};
ghost use Rattle.qp_model.specs.form.Form.{ExactFormLaw};
ghost use Rattle.qp_model.specs.bounds.Excess.{ExcessLaw};
ghost use Rattle.qp_model.specs.problem.Scaling.{ScalingLaw};
ghost use Rattle.qp_model.specs.machine.Within.{PlanMagnitudeLaw};

/// Each state of a trajectory is the free state plus the responses times the plan.
pub fn trajectory_law()
    ensures { TrajectoryLaw }
{}

/// The condensed numbers of a design give its costs and its residuals at every state and plan.
pub fn condensing_law()
    ensures { CondensingLaw }
{}

/// The exact condensed numbers of a design are a form that a controller may be made of.
pub fn exact_form_law()
    ensures { ExactFormLaw }
{}

/// A plan with its numerators and its denominator times c costs c^2 times as much, and breaks each row by c times as much.
pub fn scaling_law()
    ensures { ScalingLaw }
{}

/// A trajectory is a run of the plant from whole numbers, and a run's growth is bounded.
pub fn run_law()
    ensures { PlantRunLaw }
{}

/// A residual is what a row has of a run, less the row's bound.
pub fn residual_law()
    ensures { ResidualLaw }
{}

/// What the rows have of unit plans and unit states gives the residuals.
pub fn response_law()
    ensures { ResponseLaw }
{}

/// What rows have of runs stays within bounds.
pub fn row_bound_law()
    ensures { RowBoundLaw }
{}

/// The condensed costs are weighted sums of products of what the cost rows have of unit plans and unit states.
pub fn gram_law()
    ensures { GramLaw }
{}

/// Numbers that agree with a design's below its sizes are its condensed form.
pub fn agrees_law()
    ensures { AgreesLaw }
{}

/// The cost after a step is the cost before, the gradient along the step, and the step's own curvature.
pub fn expansion_law()
    ensures { ExpansionLaw }
{}

/// Twice the curvature of a step is the hessian's form of it.
pub fn hessian_law()
    ensures { HessianLaw }
{}

/// The curvature of a step is at least the least input weight times the squares of its entries.
pub fn curvature_law()
    ensures { CurvatureLaw }
{}

/// The average of some plans costs at most the average of their costs.
pub fn average_law()
    ensures { AverageLaw }
{}

/// Twice what a plan costs more than another is the sum of the gradients at both along the step between them.
pub fn difference_law()
    ensures { DifferenceLaw }
{}

/// No plan costs less than a plan by more than the squares of the gradient there, over four times the least input weight.
pub fn floor_law()
    ensures { FloorLaw }
{}

/// The plans of a policy cost at their corners at most the excess more than any plan, whatever reference plans show it.
pub fn excess_law()
    ensures { ExcessLaw }
{}

/// What cost rows have of runs stays within bounds.
pub fn cost_bound_law()
    ensures { CostBoundLaw }
{}

/// In a run from a state of the box no entry of a step's plan is above the bound that the absolute sums give it.
pub fn plan_magnitude_law()
    ensures { PlanMagnitudeLaw }
{}
