// The errors of the accelerated machine's steps on a design, and the bound of its runs.
ghost use Rattle.fast_bounds.specs.FastCertified.{FastCertifiedLaw, FastLeanLaw};
ghost use Rattle.fast_bounds.specs.FastMargin.{FastMarginLaw, FastMarginCausesLaw, FastMarginPassingLaw};
ghost use Rattle.fast_bounds.specs.FastRefusals.{FastCausesLaw, FastPassingLaw};
ghost use Rattle.fast_bounds.specs.FastDesign.{PlanErrorsLaw, FastCarriedLaw, FastDesignRunLaw, FastStatedRunLaw};

/// The plan that a machine makes from a state of its design's box at any multipliers in 0 .. 2 r is within the plan bound, its gradient and residuals are
/// within their errors: by the stated ones, and by what the residuals of the controller's gains come to.
pub fn plan_errors_law()
    ensures { PlanErrorsLaw }
{}

/// So is the plan of each step of the accelerated machine of a controller that is made for a design.
pub fn fast_carried_law()
    ensures { FastCarriedLaw }
{}

/// A run of it bounds the Lagrangian of its design at the averaged plan, against every feasible plan and all multipliers in 0 .. 2 r, whatever bounds the
/// errors of its steps: those of the gradient count J times, and more by what rounding the means adds.
pub fn fast_design_run_law()
    ensures { FastDesignRunLaw }
{}

/// It has that bound by the stated errors.
pub fn fast_stated_run_law()
    ensures { FastStatedRunLaw }
{}

/// A controller of it whose numbers are derived from a form of a design, and whose errors at each grid state and step are at most those that its bounds count,
/// keeps the whole promise of these bounds, at every state of the box: where repairs are known for all plans, or for those that exceed some row by more than
/// a threshold, which is at least what steps and errors leave.
pub fn fast_certified_law()
    ensures { FastCertifiedLaw }
{}

/// A controller of it that is made for a design, a policy and reference plans keeps the whole promise of its bounds, whatever these plans are; and the bounds
/// meet the design's targets.
pub fn fast_lean_law()
    ensures { FastLeanLaw }
{}

/// So does one that is made for a design and a policy alone.
pub fn fast_margin_law()
    ensures { FastMarginLaw }
{}

/// A design with a policy and reference plans has at most one refusal with a cause by the tests of this machine, and none where it passes every test. So has
/// a design with a policy alone.
pub fn fast_causes_law()
    ensures one { FastCausesLaw }
    ensures none { FastPassingLaw }
    ensures one_by_margin { FastMarginCausesLaw }
    ensures none_by_margin { FastMarginPassingLaw }
{}
