// The whole numbers that the bounds of the rounding errors are made of.
ghost use Rattle.std.specs.Prelude.{◌≡◌, ℕ, pos, ◌+◌, ◌*◌, ◌^◌, ◌<◌, ◌≤◌, ◌≤ℤ◌, length, unsigned_abs, IfOk, IfErr};
ghost use Rattle.std.specs.Option.{MatchOption, SomeIff};
ghost use Rattle.std.specs.Result.{MatchResult};
ghost use Rattle.integer_algebra.specs.Division.{ceil_div};
ghost use Rattle.integer_algebra.specs.Sizes.{amount};
ghost use Rattle.mat_int.specs.Enclosures.{AreEnclosures};
ghost use Rattle.qp_model.specs.problem.Parts.{IsDesign, design_of};
ghost use Rattle.qp_model.specs.form.Class.{form_of};
ghost use Rattle.qp_model.specs.bounds.Errors.{state_bound, linear_sum, constant_sum, plan_row_sum, trace_sum, error_sums_of, error_size};
ghost use Rattle.qp_model.specs.declared.quantity.Quantity.TheVariants.{Error};
ghost use Rattle.condensed_form.specs.Form.{IsFormOf, held};
ghost use Rattle.step_error.specs.ErrorSums.{AreSums, sums_of, farthest_entry, entry_error, entry_squares};

use crate::radii::{
    Radii, farthest_at, farthest_diagonal, farthest_list, farthest_row, farthest_sum, radii_of,
};
use condensed_form::Condensed;
use frac_scaled::{limited_product, limited_sum};
use mat_int::Mat;
use qp_model::{Design, DesignParts, Quantity, Wide, box_magnitude};

/// What the bounds of the rounding errors at each number of fraction bits f are made of, for a condensed form of a design and multipliers
/// up to `2 R`.
#[derive(Clone, Copy)]
pub struct ErrorSums {
    /// What the squares of the gradient's errors cost, over `4^f`.
    pub first: u128,
    /// How far the states, the constant and the multipliers pull an entry of the plan.
    pub lead: u128,
    /// How far the gradient's errors push it, over `2^(f+2) * rho`.
    pub tail: u128,
    /// `2 R` times the limit rows.
    pub y_rows: u128,
    /// The entries of a plan.
    pub nu: u128,
    /// The states, times how far a state of the box is from 0, rounded up.
    pub n_box: u128,
    /// The least input weight, over `weight_den`.
    pub rho: u128,
    /// How far a state of the box is from 0, rounded up.
    pub x_box: u128,
    /// `2 R`, the greatest multiplier.
    pub y_top: u128,
    /// What the weights are over.
    pub weight_den: u128,
    /// The sums of the form's radii.
    pub radii: Radii,
}

/// The sums of a design and its condensed form, for multipliers up to `2 r`, where each number of the form may be as far off as its radius. It takes
/// no memory.
///
/// # Errors
/// `error` is above `2^126`.
pub fn error_sums(c: &Condensed, design: &Design, r: i128) -> Result<ErrorSums, Wide>
    requires form { IsFormOf design.now c.now }
    requires some { pos 1 ≤ℤ r }
    requires narrow { r ≤ℤ pos (2 ^ 44) }
    ensures value { let d = design_of design.now in let size = error_size d (form_of d) (unsigned_abs r) in MatchResult result
        (λ e. (size ≤ 2 ^ 126) × (sums_of e ≡ error_sums_of d (form_of d) (unsigned_abs r))) (λ e. ¬ (size ≤ 2 ^ 126)) }
    ensures given { IfOk result (λ e. AreSums e) }
    ensures named { IfErr result (λ e. e.0 ≡ Error) }
{
    sums_of(c, design.parts(), r.unsigned_abs()).ok_or(Wide(Quantity::Error))
}

// The sums. None where `error` is above `2^126`.
fn sums_of(c: &Condensed, parts: &DesignParts, r: u128) -> Option<ErrorSums>
    requires form { IsFormOf parts.now c.now }
    requires some { 1 ≤ r }
    requires narrow { r ≤ 2 ^ 44 }
    ensures { let d = design_of parts.now in let size = error_size d (held c.now) r in
        MatchOption result (¬ (size ≤ 2 ^ 126)) (λ e. (size ≤ 2 ^ 126) × (sums_of e ≡ error_sums_of d (held c.now) r)) }
{
    let sizes = sizes_of(c, parts);
    let n_box = parts.states as u128 * sizes.state;
    let y_rows = 2 * r * c.g.rows() as u128;
    let combined = n_box + 1 + y_rows;
    let weight_den = c.weight_den.unsigned_abs();
    let hess_den = c.hess_den.unsigned_abs();
    let errors = gradient_squares(&c.hess, &c.hess_rad, hess_den, combined)?;
    let squares = limited_product(weight_den, errors)?;
    let plan_pull = limited_product(weight_den, pull_of(&sizes, r)?)?;
    let rho = c.input_floor.unsigned_abs();
    let sums = ErrorSums {
        first: squares.div_ceil(2 * rho),
        lead: plan_pull.div_ceil(2 * rho),
        tail: limited_product(weight_den * combined, sizes.trace)?,
        y_rows,
        nu: c.hess.rows() as u128,
        n_box,
        rho,
        x_box: sizes.state,
        y_top: 2 * r,
        weight_den,
        radii: radii_of(c, parts),
    };
    sums.size(squares, plan_pull)?;
    Some(sums)
}

// The sizes of a form's numbers, each at its farthest and the sum rounded up to a whole number.
#[derive(Clone, Copy)]
pub(crate) struct Sizes {
    state: u128,
    linear: u128,
    constant: u128,
    rows: u128,
    trace: u128,
}

// Those of a design's form.
pub(crate) fn sizes_of(c: &Condensed, parts: &DesignParts) -> Sizes
    requires { IsFormOf parts.now c.now }
    ensures state { result.state ≡ state_bound (design_of parts.now) }
    ensures near { result.state ≤ 2 ^ 31 }
    ensures linear { result.linear ≡ linear_sum (held c.now) }
    ensures constant { result.constant ≡ constant_sum (held c.now) }
    ensures rows { result.rows ≡ plan_row_sum (held c.now) }
    ensures trace { result.trace ≡ trace_sum (held c.now) }
{
    let hess_den = c.hess_den.unsigned_abs();
    Sizes {
        state: state_bound(parts),
        linear: farthest_sum(&c.lin, &c.lin_rad).div_ceil(hess_den),
        constant: farthest_list(&c.off, &c.off_rad).div_ceil(hess_den),
        rows: farthest_sum(&c.g, &c.g_rad).div_ceil(c.row_den.unsigned_abs()),
        trace: farthest_diagonal(&c.hess, &c.hess_rad).div_ceil(hess_den),
    }
}

// How far a state of the box is from 0, rounded up to a whole number.
fn state_bound(parts: &DesignParts) -> u128
    requires { IsDesign parts.now }
    ensures value { result ≡ state_bound (design_of parts.now) }
    ensures near { result ≤ 2 ^ 31 }
{
    box_magnitude(parts).div_ceil(1 << parts.grid)
}

// `a b + c d`. None where it is above `2^126`.
fn products(a: u128, b: u128, c: u128, d: u128) -> Option<u128>
    ensures { SomeIff result (a * b + c * d ≤ 2 ^ 126) (a * b + c * d) }
{
    limited_sum(limited_product(a, b)?, limited_product(c, d)?)
}

// What the states, the constant and the multipliers pull a plan by, over the least input weight. None where it is above `2^126`.
pub(crate) fn pull_of(sizes: &Sizes, r: u128) -> Option<u128>
    requires { r ≤ 2 ^ 44 }
    ensures { let plan_pull = sizes.now.state * sizes.now.linear + sizes.now.constant + 2 * r * sizes.now.rows in
        SomeIff result (plan_pull ≤ 2 ^ 126) plan_pull }
{
    limited_sum(
        products(sizes.state, sizes.linear, 2 * r, sizes.rows)?,
        sizes.constant,
    )
}

// The error of entry `j` of the gradient, by the hessian over `scale` with its radii, and what all states and multipliers come to. None where it is
// above `2^126`.
pub(crate) fn gradient_error(
    hess: &Mat,
    radii: &Mat,
    scale: u128,
    combined: u128,
    j: usize,
) -> Option<u128>
    requires pair { AreEnclosures hess.now radii.now }
    requires square { hess.now.cols ≡ length hess.now.rows }
    requires inside { j < length hess.now.rows }
    requires small { amount hess.now.cols (farthest_entry hess.now radii.now j) ≤ 2 ^ 126 }
    requires some { 1 ≤ scale }
    requires scale { scale < 2 ^ 127 }
    ensures { let error = entry_error (length hess.now.rows) (farthest_entry hess.now radii.now) scale combined j in SomeIff result (error ≤ 2 ^ 126) error }
{
    let own = farthest_at(hess, radii, j, j).div_ceil(2 * scale);
    let row = farthest_row(hess, radii, j).div_ceil(scale);
    limited_sum(limited_product(own, combined)?, row)
}

// The squares of the errors, added up. None where that is above `2^126`.
fn gradient_squares(hess: &Mat, radii: &Mat, scale: u128, combined: u128) -> Option<u128>
    requires pair { AreEnclosures hess.now radii.now }
    requires square { hess.now.cols ≡ length hess.now.rows }
    requires small { (j : ℕ) → j < length hess.now.rows → amount hess.now.cols (farthest_entry hess.now radii.now j) ≤ 2 ^ 126 }
    requires some { 1 ≤ scale }
    requires scale { scale < 2 ^ 127 }
    ensures { let squares = entry_squares (length hess.now.rows) (farthest_entry hess.now radii.now) scale combined in
        SomeIff result (squares ≤ 2 ^ 126) squares }
{
    let mut squares = 0;
    for j in 0..hess.rows() {
        let error = gradient_error(hess, radii, scale, combined, j)?;
        squares = limited_sum(squares, limited_product(error, error)?)?;
    }
    Some(squares)
}

impl ErrorSums {
    ghost use Rattle.std.specs.Prelude.{◌≡◌, ◌+◌, ◌*◌, ◌^◌, ◌≤◌};
    ghost use Rattle.std.specs.Option.{SomeIff};
    ghost use Rattle.integer_algebra.specs.Division.{ceil_div};
    ghost use Rattle.step_error.specs.ErrorSums.{HasErrorRoom, sums_of, size_by, rounding_size, radius_size};

    // The quantity `error`, by the squares of the gradient's errors and by what pulls a plan. None where it is above `2^126`.
    pub(crate) fn size(&self, squares: u128, plan_pull: u128) -> Option<u128>
        requires room { HasErrorRoom self.now }
        requires squares { squares ≤ 2 ^ 126 }
        requires plan_pull { plan_pull ≤ 2 ^ 126 }
        ensures { let size = size_by squares plan_pull (sums_of self.now) in SomeIff result (size ≤ 2 ^ 126) size }
    {
        let plan = self.radii.spread * (self.lead + self.tail.div_ceil(4 * self.rho)) + 1;
        limited_sum(
            self.rounding_size(squares, plan_pull, plan)?,
            self.radius_size(plan)?,
        )
    }

    // Its part by rounding, where the plan's entries are within `plan`. None where it is above `2^126`.
    fn rounding_size(&self, squares: u128, plan_pull: u128, plan: u128) -> Option<u128>
        requires room { HasErrorRoom self.now }
        requires squares { squares ≤ 2 ^ 126 }
        requires plan_pull { plan_pull ≤ 2 ^ 126 }
        ensures { let size = rounding_size squares plan_pull (sums_of self.now) plan in SomeIff result (size ≤ 2 ^ 126) size }
    {
        let residual = limited_product(self.nu, plan)? + self.n_box + 3;
        let errors = self.first + limited_product(self.y_rows, residual)?;
        let parts = plan_pull + self.tail + squares;
        let spread = self.radii.spread;
        limited_product(
            spread * spread,
            limited_sum(parts, limited_product(1 << 40, errors)?)?,
        )
    }

    // Its part by the radii. None where it is above `2^126`.
    fn radius_size(&self, plan: u128) -> Option<u128>
        requires { HasErrorRoom self.now }
        ensures { let size = radius_size (sums_of self.now) plan in SomeIff result (size ≤ 2 ^ 126) size }
    {
        let radii = &self.radii;
        let moved = products(plan, radii.h_rad, self.x_box, radii.f_rad)? + radii.o_rad;
        let columns = limited_product(self.y_top, radii.g_col)?;
        let squares = self.radius_squares(moved, columns)?;
        let rows = products(plan, radii.g_sum, self.x_box, radii.e_sum)?;
        limited_sum(squares + moved, products(1, columns, self.y_top, rows)?)
    }

    // What the radii of the gradient come to, squared, where those of the cost move it by `moved` and those of the rows by `columns`. None where it
    // is above `2^126`.
    fn radius_squares(&self, moved: u128, columns: u128) -> Option<u128>
        requires room { HasErrorRoom self.now }
        requires moved { moved ≤ 2 ^ 127 }
        requires columns { columns ≤ 2 ^ 126 }
        ensures { let error = ceil_div moved self.now.radii.cost_scale + ceil_div columns self.now.radii.row_scale in
            let squares = self.now.weight_den * self.now.nu * error ^ 2 in SomeIff result (squares ≤ 2 ^ 126) squares }
    {
        let error = moved.div_ceil(self.radii.cost_scale) + columns.div_ceil(self.radii.row_scale);
        limited_product(self.weight_den * self.nu, limited_product(error, error)?)
    }
}
