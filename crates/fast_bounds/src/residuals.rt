// What the errors of a run of a controller of the accelerated machine cost, by the residuals that its gains leave.
ghost use Rattle.std.specs.Prelude.{◌≡◌, ℕ, ◌^◌, pos};
ghost use Rattle.integer_algebra.specs.Division.{ceil_div};
ghost use Rattle.qp_model.specs.machine.AbsoluteSums.{plan_magnitudes, greatest_of};
ghost use Rattle.qp_model.specs.machine.Controller.{numbers};
ghost use Rattle.overflow_check.specs.FastController.{IsFastController};
ghost use Rattle.fast_bounds.specs.FastAnswers.{real_cost_for, IsFastGivenFor};

use condensed_form::Condensed;
use frac_scaled::ceil_div;
use overflow_check::{FastController, Machine, plan_sum_for};
use qp_model::{ControllerParts, Design};
use step_error::{ErrorSums, Means, real_run_epsilon};

// How far the plan's entries lie from 0 at most in a run from a state of the box, rounded up to a whole number.
fn plan_reach(parts: &ControllerParts) -> i128
    requires { IsFastController (numbers parts.now) }
    ensures { result ≡ pos (ceil_div (greatest_of (plan_magnitudes (numbers parts.now))) (2 ^ parts.now.f)) }
{
    match plan_sum_for(parts, Machine::Accelerated) {
        Some(sum) => ceil_div(sum, 1 << parts.f),
        None => unreachable!(),
    }
}

// What the errors of a run of a controller cost at most, over `2^40`, by the residuals that its gains leave and by its absolute sums.
pub(crate) fn fast_real_cost(
    design: &Design,
    condensed: &Condensed,
    sums: &ErrorSums,
    controller: &FastController,
) -> i128
    requires { (r : ℕ) × IsFastGivenFor design.now r condensed.now sums.now controller.now }
    ensures { (r : ℕ) → IsFastGivenFor design.now r condensed.now sums.now controller.now →
        result ≡ pos (real_cost_for design.now r controller.now) }
{
    let parts = controller.parts();
    let plan = plan_reach(parts);
    let means = Means {
        parts: design.parts(),
        exps: &parts.exps,
        s: parts.s,
    };
    real_run_epsilon(
        condensed,
        sums,
        means,
        &parts.p_mat,
        &parts.t,
        &parts.w_mat,
        parts.steps,
        plan,
        parts.f,
    )
}
