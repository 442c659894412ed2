// What the errors of a step, or of those of a run, cost by the residuals that a controller's gains really leave.
ghost use Rattle.std.specs.Prelude.{◌≡◌, ℕ, ◌*◌, ◌^◌, ◌<◌, ◌≤◌, ◌≤ℤ◌, pos, min, length, slice_index_or, unsigned_abs};
ghost use Rattle.integer_algebra.specs.Division.{ceil_div};
ghost use Rattle.qp_model.specs.machine.AbsoluteSums.{plan_magnitudes, greatest_of};
ghost use Rattle.qp_model.specs.form.Class.{form_of};
ghost use Rattle.qp_model.specs.machine.Controller.{Numbers};
ghost use Rattle.qp_model.specs.problem.Parts.{design_of};
ghost use Rattle.qp_model.specs.bounds.Errors.{plan_bound, errors_cost};
ghost use Rattle.qp_model.specs.bounds.RealErrors.{real_errors, real_cost};
ghost use Rattle.qp_model.specs.declared.design_parts.DesignParts.{DesignParts};
ghost use Rattle.condensed_form.specs.Form.{IsFormOf, held};
ghost use Rattle.step_error.specs.ErrorSums.{AreSums, sums_of};
ghost use Rattle.step_error.specs.CarriedErrors.{with_means, cost_of_run};
ghost use Rattle.step_error.specs.Gains.{gain_at, missed_squares, missed_cost, mean_of, HasMeans};
ghost use Rattle.step_error.specs.Made.{IsMadeFor, IsMade, IsRunMadeFor, IsRunMade, HasGains};

use crate::errors::{errors_cost, plan_bound};
use crate::means::carry_of;
use crate::real_gains::{Gains, Means};
use crate::sums::ErrorSums;
use condensed_form::Condensed;
use mat_int::Mat;

// What the squares of the gradient's errors cost, over `4^f`, where they count so many times.
fn first_cost(gains: &Gains, e: &ErrorSums, times: u128) -> u128
    requires means { HasMeans gains.now.c.now gains.now.means }
    requires sums { AreSums e.now }
    requires state { gains.now.state ≡ (sums_of e.now).state }
    requires top { gains.now.top ≡ (sums_of e.now).top }
    requires small { let x = gain_at gains.now.p_mat.now gains.now.t.now gains.now.w_mat.now in let h = held gains.now.c.now in
        unsigned_abs gains.now.c.now.weight_den * missed_squares h gains.now.f x gains.now.state gains.now.top (mean_of h gains.now.means) ≤ 2 ^ 126 }
    requires cost { let x = gain_at gains.now.p_mat.now gains.now.t.now gains.now.w_mat.now in let h = held gains.now.c.now in
        missed_cost h gains.now.f x (mean_of h gains.now.means) (unsigned_abs gains.now.c.now.weight_den) times (sums_of e.now) ≤ e.now.first }
    ensures { let x = gain_at gains.now.p_mat.now gains.now.t.now gains.now.w_mat.now in let h = held gains.now.c.now in
        result ≡ missed_cost h gains.now.f x (mean_of h gains.now.means) (unsigned_abs gains.now.c.now.weight_den) times (sums_of e.now) }
{
    if !gains.has_room() {
        return e.first;
    }
    let squares = gains.c.weight_den.unsigned_abs() * gains.squares();
    times * squares.div_ceil(2 * e.rho)
}

// What the errors cost, over `2^40`, where no plan entry is above `plan`.
fn cost_by(gains: &Gains, e: &ErrorSums, times: u128, plan: i128) -> i128
    requires means { HasMeans gains.now.c.now gains.now.means }
    requires sums { AreSums e.now }
    requires state { gains.now.state ≡ (sums_of e.now).state }
    requires top { gains.now.top ≡ (sums_of e.now).top }
    requires small { let x = gain_at gains.now.p_mat.now gains.now.t.now gains.now.w_mat.now in let h = held gains.now.c.now in
        unsigned_abs gains.now.c.now.weight_den * missed_squares h gains.now.f x gains.now.state gains.now.top (mean_of h gains.now.means) ≤ 2 ^ 126 }
    requires cost { let x = gain_at gains.now.p_mat.now gains.now.t.now gains.now.w_mat.now in let h = held gains.now.c.now in
        missed_cost h gains.now.f x (mean_of h gains.now.means) (unsigned_abs gains.now.c.now.weight_den) times (sums_of e.now) ≤ e.now.first }
    ensures { let x = gain_at gains.now.p_mat.now gains.now.t.now gains.now.w_mat.now in let h = held gains.now.c.now in
        let first = missed_cost h gains.now.f x (mean_of h gains.now.means) (unsigned_abs gains.now.c.now.weight_den) times (sums_of e.now) in
        result ≡ pos (errors_cost (sums_of e.now) first (min (plan_bound (sums_of e.now) gains.now.f) (unsigned_abs plan)) gains.now.f) }
{
    let bound = plan_bound(e, gains.f).min(plan.unsigned_abs());
    errors_cost(e, first_cost(gains, e, times), bound, gains.f)
}

/// What the errors of a step cost at most, over `2^40`, by the residuals that the gains of a controller over `2^f` leave: P in `p_mat`, T in `t` and W
/// in `w_mat`. No plan entry of the machine is above `plan` in absolute value; the plan bound is taken where that is less. Where the sums of
/// these residuals could pass `2^126`, the stated bounds of the gradient are taken. It takes no memory.
pub fn real_epsilon(
    c: &Condensed,
    e: &ErrorSums,
    p_mat: &Mat,
    t: &[i128],
    w_mat: &Mat,
    plan: i128,
    f: u32,
) -> i128
    requires bits { f ≤ 48 }
    requires made { IsMade c.now e.now p_mat.now t.now w_mat.now f }
    requires plan { pos 0 ≤ℤ plan }
    ensures { (p : DesignParts) (r : ℕ) (k : Numbers) → IsMadeFor p r c.now e.now p_mat.now t.now w_mat.now f → HasGains k f p_mat.now t.now w_mat.now →
        plan ≡ pos (ceil_div (greatest_of (plan_magnitudes k)) (2 ^ f)) → result ≡ pos (real_cost (design_of p) (form_of (design_of p)) r k) }
{
    let gains = Gains {
        c,
        p_mat,
        t,
        w_mat,
        f,
        state: e.x_box,
        top: e.y_top,
        means: None,
    };
    cost_by(&gains, e, 1, plan)
}

/// The same of the errors of a run of `steps` steps of the accelerated machine: `run` has the sums of such a run, for rows with the step exponents of `means`.
/// Where the sums of the residuals could pass `2^126`, the stated bounds of the gradient are taken with what rounding the means adds. It takes no memory.
pub fn real_run_epsilon(
    c: &Condensed,
    run: &ErrorSums,
    means: Means,
    p_mat: &Mat,
    t: &[i128],
    w_mat: &Mat,
    steps: u32,
    plan: i128,
    f: u32,
) -> i128
    requires bits { f ≤ 48 }
    requires form { IsFormOf means.parts.now c.now }
    requires count { length means.exps.now ≡ (held c.now).rows }
    requires exponents { (i : ℕ) → i < length means.exps.now → slice_index_or means.exps.now i 0 ≤ means.s }
    requires exponent { means.s ≤ 40 }
    requires made { IsRunMade c.now run.now p_mat.now t.now w_mat.now f steps means.s means.exps.now }
    requires plan { pos 0 ≤ℤ plan }
    ensures { (p : DesignParts) (r : ℕ) (k : Numbers) → IsRunMadeFor p r c.now run.now p_mat.now t.now w_mat.now f steps means.entry.s means.entry.exps.now →
        HasGains k f p_mat.now t.now w_mat.now → plan ≡ pos (ceil_div (greatest_of (plan_magnitudes k)) (2 ^ f)) →
        let d = design_of p in let h = form_of d in result ≡ pos (cost_of_run d h r f steps (with_means h means.entry.s means.entry.exps.now (real_errors d h r k))) }
{
    let gains = Gains {
        c,
        p_mat,
        t,
        w_mat,
        f,
        state: run.x_box,
        top: run.y_top,
        means: Some(means),
    };
    cost_by(&gains, run, carry_of(steps), plan)
}
