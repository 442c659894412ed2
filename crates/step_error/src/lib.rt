//! What rounding costs the dual gradient method: the law of one inexact step, and of a run of them, by the stated errors and by the residuals that the
//! gains of a controller really leave; and the fewest fraction bits at which it costs no more than it may.
#![tactic(auto)]

ghost use Rattle.step_error.specs.Laws.{DesignStepLaw, DesignRunLaw};
ghost use Rattle.step_error.specs.Carried.{GradientLaw, PlanEntryLaw, EpsilonLaw, FallingLaw};
ghost use Rattle.step_error.specs.MachineLaws.{CarriedLaw, MachineStepLaw, StatedStepLaw, MachineRunLaw, StatedRunLaw};
ghost use Rattle.step_error.specs.RealLaws.{RealCarriedLaw, RealCostLaw, RealStepLaw, RealRunLaw};

mod choice;
mod errors;
mod means;
mod radii;
mod real_cost;
mod real_gains;
mod runs;
mod sums;

pub use choice::{Choice, TooFine, choose_bits};
pub use errors::{epsilon, errors_cost, plan_bound, residual_error};
pub use means::{carry_of, mean_error};
pub use radii::farthest_row;
pub use real_cost::{real_epsilon, real_run_epsilon};
pub use real_gains::Means;
pub use runs::run_sums;
pub use sums::{ErrorSums, error_sums};

/// One inexact step bounds the Lagrangian of the design at its plan.
pub fn design_step_law()
    ensures { DesignStepLaw }
{}

/// A run of such steps bounds the Lagrangian of the design at the average of its plans.
pub fn design_run_law()
    ensures { DesignRunLaw }
{}

/// How far the gradient at a rounded plan is from 0, from good solutions.
pub fn gradient_law()
    ensures { GradientLaw }
{}

/// Where the curvature is at least a number times the squares, a plan whose gradient is small is small.
pub fn entry_law()
    ensures { PlanEntryLaw }
{}

/// What the errors of a step cost is at most the four sums of theirs.
pub fn epsilon_law()
    ensures { EpsilonLaw }
{}

/// Epsilon does not rise with the number of fraction bits.
pub fn falling_law()
    ensures { FallingLaw }
{}

/// Each step of the machine of a controller that is made for a design, by a form of it, has its multipliers in 0 .. 2 r, its plan within the plan
/// bound, and its gradient and residuals within their errors.
pub fn carried_law()
    ensures { CarriedLaw }
{}

/// One step of such a machine, whatever bounds its errors, bounds the Lagrangian of its design at the step's plan, against every feasible plan and all
/// multipliers in 0 .. 2 r.
pub fn machine_step_law()
    ensures { MachineStepLaw }
{}

/// Each step of it has that bound by the stated errors.
pub fn stated_step_law()
    ensures { StatedStepLaw }
{}

/// A whole run of it bounds the Lagrangian at the averaged plan.
pub fn machine_run_law()
    ensures { MachineRunLaw }
{}

/// A whole run has that bound by the stated errors.
pub fn stated_run_law()
    ensures { StatedRunLaw }
{}

/// Each step of the machine of a controller that is made for a design, by a form of it, has its gradient within what the residuals of its gains
/// come to, and its plan within the lesser of the plan bound and its absolute sums.
pub fn real_carried_law()
    ensures { RealCarriedLaw }
{}

/// These errors cost no more than the stated ones.
pub fn real_cost_law()
    ensures { RealCostLaw }
{}

/// One step of such a machine bounds the Lagrangian of its design at the step's plan by what these errors cost.
pub fn real_step_law()
    ensures { RealStepLaw }
{}

/// A whole run of it bounds the Lagrangian at the averaged plan by that.
pub fn real_run_law()
    ensures { RealRunLaw }
{}
