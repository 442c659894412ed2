// The sums of a run of the accelerated machine.
ghost use Rattle.std.specs.Prelude.{◌≡◌, ℕ, pos, ◌+◌, ◌*◌, ◌^◌, ◌<◌, ◌≤◌, ◌≤ℤ◌, length, slice_index_or, unsigned_abs, IfOk, IfErr};
ghost use Rattle.std.specs.Option.{MatchOption, SomeIff};
ghost use Rattle.std.specs.Result.{MatchResult};
ghost use Rattle.integer_algebra.specs.Sizes.{amount};
ghost use Rattle.qp_model.specs.problem.Parts.{design_of};
ghost use Rattle.qp_model.specs.form.Class.{form_of};
ghost use Rattle.qp_model.specs.bounds.Errors.{error_sums_of, error_size};
ghost use Rattle.qp_model.specs.declared.quantity.Quantity.TheVariants.{Error};
ghost use Rattle.condensed_form.specs.Form.{IsFormOf, held};
ghost use Rattle.step_error.specs.ErrorSums.{AreSums, sums_of};
ghost use Rattle.step_error.specs.CarriedErrors.{run_sums_of};
ghost use Rattle.step_error.specs.RunSums.{mean_squares, error_with_mean, run_error_size, sums_by, run_size_by};
ghost use Rattle.step_error.specs.Made.{AreSumsOf};

use crate::means::{carry_of, mean_error};
use crate::radii::radii_of;
use crate::sums::{ErrorSums, gradient_error, pull_of, sizes_of};
use condensed_form::Condensed;
use frac_scaled::{limited_product, limited_sum};
use qp_model::{Design, DesignParts, Quantity, Wide};

// The squares of the gradient's errors with what rounding the means moves it by, added up, where all states and multipliers come to `combined`. None where
// that is above `2^126`.
fn mean_squares(
    c: &Condensed,
    parts: &DesignParts,
    combined: u128,
    exps: &[u32],
    s: u32,
) -> Option<u128>
    requires form { IsFormOf parts.now c.now }
    requires count { length exps.now ≡ (held c.now).rows }
    requires exponents { (i : ℕ) → i < length exps.now → slice_index_or exps.now i 0 ≤ s }
    requires exponent { s ≤ 40 }
    ensures { let squares = amount (length c.now.hess.rows) (λ j. error_with_mean c.now combined s exps.now j ^ 2) in
        SomeIff result (squares ≤ 2 ^ 126) squares }
{
    let scale = c.hess_den.unsigned_abs();
    let mut squares = 0;
    for j in 0..c.hess.rows() {
        let own = gradient_error(&c.hess, &c.hess_rad, scale, combined, j)?;
        let error = limited_sum(own, mean_error(c, parts, exps, s, j))?;
        squares = limited_sum(squares, limited_product(error, error)?)?;
    }
    Some(squares)
}

// The sums of a step whose gradient's errors have these squares and count so many times. None where `error` is above `2^126`.
fn carried_sums(
    c: &Condensed,
    parts: &DesignParts,
    step: &ErrorSums,
    r: u128,
    times: u128,
    errors: u128,
) -> Option<ErrorSums>
    requires form { IsFormOf parts.now c.now }
    requires some { 1 ≤ r }
    requires narrow { r ≤ 2 ^ 44 }
    requires step { sums_of step.now ≡ error_sums_of (design_of parts.now) (held c.now) r }
    requires room { error_size (design_of parts.now) (held c.now) r ≤ 2 ^ 126 }
    requires often { 1 ≤ times }
    requires few { times ≤ 2 ^ 33 }
    ensures { let d = design_of parts.now in let size = run_size_by d (held c.now) r times errors in
        MatchOption result (¬ (size ≤ 2 ^ 126)) (λ e. (size ≤ 2 ^ 126) × (sums_of e ≡ sums_by d (held c.now) r times errors)) }
{
    let plan_pull = limited_product(step.weight_den, pull_of(&sizes_of(c, parts), r)?)?;
    let squares = limited_product(step.weight_den, errors)?;
    let sums = ErrorSums {
        first: limited_product(times, squares.div_ceil(2 * step.rho))?,
        weight_den: step.weight_den * times,
        radii: radii_of(c, parts),
        ..*step
    };
    sums.size(squares, plan_pull)?;
    Some(sums)
}

// The sums of a run of `k` steps. None where `error` is above `2^126`.
fn sums_of_run(
    c: &Condensed,
    parts: &DesignParts,
    step: &ErrorSums,
    r: u128,
    k: u32,
    s: u32,
    exps: &[u32],
) -> Option<ErrorSums>
    requires form { IsFormOf parts.now c.now }
    requires some { 1 ≤ r }
    requires narrow { r ≤ 2 ^ 44 }
    requires sums { AreSums step.now }
    requires step { sums_of step.now ≡ error_sums_of (design_of parts.now) (held c.now) r }
    requires room { error_size (design_of parts.now) (held c.now) r ≤ 2 ^ 126 }
    requires count { length exps.now ≡ (held c.now).rows }
    requires exponents { (i : ℕ) → i < length exps.now → slice_index_or exps.now i 0 ≤ s }
    requires exponent { s ≤ 40 }
    ensures { let d = design_of parts.now in let size = run_error_size d (held c.now) r k s exps.now in
        MatchOption result (¬ (size ≤ 2 ^ 126)) (λ e. (size ≤ 2 ^ 126) × (sums_of e ≡ run_sums_of d (held c.now) r k s exps.now)) }
{
    let errors = mean_squares(c, parts, step.n_box + 1 + step.y_rows, exps, s)?;
    carried_sums(c, parts, step, r, carry_of(k), errors)
}

/// The sums of a run of `k` steps of the accelerated machine, of those of a step: for rows with these step exponents, up to `s`, and multipliers up to
/// `2 r`. It takes no memory.
///
/// # Errors
/// `error` is above `2^126`.
pub fn run_sums(
    c: &Condensed,
    design: &Design,
    step: &ErrorSums,
    r: i128,
    k: u32,
    s: u32,
    exps: &[u32],
) -> Result<ErrorSums, Wide>
    requires step { AreSumsOf design.now (unsigned_abs r) c.now step.now }
    requires some { pos 1 ≤ℤ r }
    requires narrow { r ≤ℤ pos (2 ^ 44) }
    requires count { length exps.now ≡ (held c.now).rows }
    requires exponents { (i : ℕ) → i < length exps.now → slice_index_or exps.now i 0 ≤ s }
    requires exponent { s ≤ 40 }
    ensures value { let d = design_of design.now in let size = run_error_size d (form_of d) (unsigned_abs r) k s exps.now in MatchResult result
        (λ e. (size ≤ 2 ^ 126) × (sums_of e ≡ run_sums_of d (form_of d) (unsigned_abs r) k s exps.now)) (λ e. ¬ (size ≤ 2 ^ 126)) }
    ensures given { IfOk result (λ e. AreSums e) }
    ensures named { IfErr result (λ e. e.0 ≡ Error) }
{
    sums_of_run(c, design.parts(), step, r.unsigned_abs(), k, s, exps).ok_or(Wide(Quantity::Error))
}
