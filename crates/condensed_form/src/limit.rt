// The exponent that the squares of a condensed form's rows ask, and whether the quantity `curvature` is within its limit.
ghost use Rattle.std.specs.Prelude.{◌≡◌, ◌+◌, ◌<◌, ◌≤◌, ◌^◌, ◌↔◌, Bool, length, unsigned_abs, IsTrue};
ghost use Rattle.integer_algebra.specs.Sizes.{amount};
ghost use Rattle.integer_algebra.specs.Sums.{at};
ghost use Rattle.mat_int.specs.Matrix.{entry_of};
ghost use Rattle.qp_model.specs.declared.design_parts.DesignParts.{DesignParts};
ghost use Rattle.qp_model.specs.form.Class.{form_in, row_quantity, curvature_with, HasLoweringRoom};
ghost use Rattle.qp_model.specs.form.CurvatureSize.{CoversSquaresOf};
ghost use Rattle.qp_model.specs.form.Form.{farthest};
ghost use Rattle.qp_model.specs.bounds.Least.{IsLeastBelow};
ghost use Rattle.qp_model.specs.problem.Parts.{design_of};
ghost use Rattle.condensed_form.specs.Form.{IsFormIn, IsSomeForm};
ghost use Rattle.condensed_form.specs.Limit.{curvature_in, AreOfOneShape, IsScales};

use crate::condensed::Condensed;
use crate::squares::least_exponent;
use mat_int::Mat;
use qp_model::curvature_of;

/// The least number s up to 40 with which `2^s` times the least input weight is at least the squares of all numbers that the rows have of
/// the plan, each at its farthest, both brought over one denominator. None where no number up to 40 is.
pub fn squares_exponent(c: &Condensed) -> Option<u32>
    requires { IsSomeForm c.now }
    ensures { (fine : Bool) (p : DesignParts) → IsFormIn fine p c.now →
        IsLeastBelow 41 (CoversSquaresOf (design_of p) (form_in fine (design_of p))) result }
{
    let scales = scales_of(c);
    let unit = scales.input_floor * (scales.limit_den * scales.limit_den);
    let part = scales.lift * scales.lift;
    let squares = sum_of_squares(&c.g, &c.g_rad);
    least_exponent(scales.weight_den, squares, unit, part)
}

/// Whether the quantity `curvature` of these numbers is at most `2^126`.
pub fn is_curvature_limited(c: &Condensed) -> bool
    requires { IsSomeForm c.now }
    ensures { (fine : Bool) (p : DesignParts) → IsFormIn fine p c.now → IsTrue result ↔ (curvature_in fine (design_of p) ≤ 2 ^ 126) }
{
    is_limited_with(c, c.rows_size.unsigned_abs())
}

/// Whether it still is where each row may count up to `2^4` times, and so is the quantity `rows`, times `2^4`.
pub fn is_lowering_limited(c: &Condensed) -> bool
    requires { IsSomeForm c.now }
    ensures { (fine : Bool) (p : DesignParts) → IsFormIn fine p c.now → IsTrue result ↔ HasLoweringRoom fine (design_of p) }
{
    let size = c.rows_size.unsigned_abs();
    size <= 1 << 122 && is_limited_with(c, 16 * size)
}

// Whether the quantity `curvature`, with this number for `rows`, is at most `2^126`.
fn is_limited_with(c: &Condensed, size: u128) -> bool
    requires { IsSomeForm c.now }
    ensures { (fine : Bool) (p : DesignParts) → IsFormIn fine p c.now → IsTrue result ↔ (curvature_with fine (design_of p) size ≤ 2 ^ 126) }
{
    let exponent = squares_exponent(c).unwrap_or(40);
    let scales = scales_of(c);
    let size = curvature_of(
        exponent,
        scales.limit_den,
        scales.cost_row,
        scales.weight_den,
        scales.cost_row_den,
        row_quantity(c.fine, size, c.hess.rows()),
    );
    size.is_some()
}

// The denominators, the least input weight, and what a row of half the hessian comes to at most; none is negative. The rows are over `limit_den * lift`.
#[derive(Clone, Copy)]
struct Scales {
    weight_den: u128,
    cost_row_den: u128,
    limit_den: u128,
    lift: u128,
    input_floor: u128,
    cost_row: u128,
}

fn scales_of(c: &Condensed) -> Scales
    requires { IsSomeForm c.now }
    ensures { (fine : Bool) (p : DesignParts) → IsFormIn fine p c.now → IsScales fine (design_of p) result }
{
    Scales {
        weight_den: c.weight_den.unsigned_abs(),
        cost_row_den: c.cost_row_den.unsigned_abs(),
        limit_den: c.limit_den.unsigned_abs(),
        lift: c.row_den.unsigned_abs() / c.limit_den.unsigned_abs(),
        input_floor: c.input_floor.unsigned_abs(),
        cost_row: row_quantity(c.fine, c.hess_size.unsigned_abs(), c.hess.rows()),
    }
}

// What a row of a matrix of so many columns comes to at most, by the quantity of its numbers. Where these have radii, the quantity is over
// `2^80` and the row over `2^40`, and rounding adds less than 4 to each number and its radius.
fn row_quantity(fine: bool, size: u128, entries: usize) -> u128
    ensures { result ≡ row_quantity fine size entries }
{
    if fine {
        size.div_ceil(1 << 40) + 4 * entries as u128
    } else {
        size
    }
}

// The squares of all entries, each at its farthest.
fn sum_of_squares(mid: &Mat, rad: &Mat) -> u128
    requires shape { AreOfOneShape mid.now rad.now }
    requires room { amount (length mid.now.rows) (λ i. amount mid.now.cols (λ j.
        farthest (entry_of mid.now i j) (unsigned_abs (entry_of rad.now i j)) ^ 2)) ≤ 2 ^ 126 }
    ensures { result ≡ amount (length mid.now.rows) (λ i. amount mid.now.cols (λ j.
        farthest (entry_of mid.now i j) (unsigned_abs (entry_of rad.now i j)) ^ 2)) }
{
    let mut sum = 0u128;
    for i in 0..mid.rows() {
        sum += squares_of_row(mid.row(i), rad.row(i));
    }
    sum
}

// Those of a row.
fn squares_of_row(mids: &[i128], rads: &[i128]) -> u128
    requires shape { length rads.now ≡ length mids.now }
    requires room { amount (length mids.now) (λ j. farthest (at mids.now j) (unsigned_abs (at rads.now j)) ^ 2) ≤ 2 ^ 126 }
    ensures { result ≡ amount (length mids.now) (λ j. farthest (at mids.now j) (unsigned_abs (at rads.now j)) ^ 2) }
{
    let mut sum = 0u128;
    for (j, mid) in mids.iter().enumerate() {
        let far = mid.unsigned_abs() + rads[j].unsigned_abs();
        sum += far * far;
    }
    sum
}
