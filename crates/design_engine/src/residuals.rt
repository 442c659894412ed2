// What the errors of a controller's steps cost, by the residuals that its gains leave.
ghost use Rattle.std.specs.Prelude.{◌≡◌, ℕ, pos, ◌^◌};
ghost use Rattle.integer_algebra.specs.Division.{ceil_div};
ghost use Rattle.qp_model.specs.form.Class.{form_of};
ghost use Rattle.qp_model.specs.problem.Parts.{design_of};
ghost use Rattle.qp_model.specs.machine.Controller.{numbers};
ghost use Rattle.qp_model.specs.machine.AbsoluteSums.{IsController, plan_magnitudes, greatest_of};
ghost use Rattle.qp_model.specs.bounds.RealErrors.{real_cost};
ghost use Rattle.qp_model.specs.declared.design_parts.DesignParts.{DesignParts};
ghost use Rattle.design_engine.specs.Residuals.{IsGivenFor, IsGiven};

use condensed_form::Condensed;
use frac_scaled::ceil_div;
use overflow_check::{Controller, plan_sum};
use qp_model::ControllerParts;
use step_error::{ErrorSums, real_epsilon};

// How far the plan's entries lie from 0 at most in a run from a state of the box, rounded up to a whole number.
fn plan_reach(parts: &ControllerParts) -> i128
    requires { IsController (numbers parts.now) }
    ensures { result ≡ pos (ceil_div (greatest_of (plan_magnitudes (numbers parts.now))) (2 ^ parts.now.f)) }
{
    match plan_sum(parts) {
        Some(sum) => ceil_div(sum, 1 << parts.f),
        None => unreachable!(),
    }
}

/// What the errors of a step of a controller cost at most, over `2^40`, by the residuals that its gains leave and by its absolute sums.
pub fn real_cost(condensed: &Condensed, sums: &ErrorSums, controller: &Controller) -> i128
    requires { IsGiven condensed.now sums.now controller.now }
    ensures { (p : DesignParts) (r : ℕ) → IsGivenFor p r condensed.now sums.now controller.now →
        result ≡ pos (real_cost (design_of p) (form_of (design_of p)) r controller.now) }
{
    let parts = controller.parts();
    let plan = plan_reach(parts);
    real_epsilon(
        condensed,
        sums,
        &parts.p_mat,
        &parts.t,
        &parts.w_mat,
        plan,
        parts.f,
    )
}
