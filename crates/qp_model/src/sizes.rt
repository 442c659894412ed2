// The quantities of a design, computed. None stands for a number above `2^126`.
ghost use Rattle.std.specs.Prelude.{◌≡◌, ℕ, ◌+◌, ◌*◌, ◌^◌, ◌<◌, ◌≤◌, length, unsigned_abs};
ghost use Rattle.std.specs.Option.{SomeIff};
ghost use Rattle.integer_algebra.specs.Sums.{at};
ghost use Rattle.integer_algebra.specs.Sizes.{size};
ghost use Rattle.mat_int.specs.Matrix.{entry_of};
ghost use Rattle.qp_model.specs.problem.Parts.{IsDesign, design_of};
ghost use Rattle.qp_model.specs.form.Quantities.{greatest, growth, cost_width, limit_width, weight_sum, prediction_size, hessian_size, rows_size};
ghost use Rattle.qp_model.specs.form.CurvatureSize.{curvature_of};

use crate::design_parts::DesignParts;
use frac_scaled::limited_product;
use mat_int::Mat;

/// `base^exponent`, where it is at most `2^126`.
pub fn limited_power(base: u128, exponent: usize) -> Option<u128>
    requires { 1 ≤ base }
    ensures { SomeIff result (base ^ exponent ≤ 2 ^ 126) (base ^ exponent) }
{
    let mut power = 1;
    for _ in 0..exponent {
        power = limited_product(power, base)?;
    }
    Some(power)
}

/// `count * side^2`, where it is at most `2^126`.
pub fn limited_area(count: u128, side: u128) -> Option<u128>
    requires { 1 ≤ count }
    ensures { SomeIff result (count * side ^ 2 ≤ 2 ^ 126) (count * side ^ 2) }
{
    limited_product(count, limited_product(side, side)?)
}

// The absolute values of some numerators, added up.
fn absolute_sum(xs: &[i128]) -> u128
    requires few { length xs.now ≤ 2 ^ 16 }
    requires numerators { (i : ℕ) → i < length xs.now → unsigned_abs (at xs.now i) < 2 ^ 31 }
    ensures sum { result ≡ size (length xs.now) (at xs.now) }
    ensures small { result ≤ 2 ^ 31 * length xs.now }
{
    mat_int::absolute_sum(xs)
}

// The greatest absolute sum of the first `width` numbers of a row.
fn greatest_width(mat: &Mat, width: usize) -> u128
    requires few { width ≤ 2 ^ 16 }
    requires width { width ≤ mat.now.cols }
    requires numerators { (r j : ℕ) → r < length mat.now.rows → j < width → unsigned_abs (entry_of mat.now r j) < 2 ^ 31 }
    ensures { result ≡ greatest (length mat.now.rows) (λ r. size width (entry_of mat.now r)) }
{
    let mut most = 0u128;
    for r in 0..mat.rows() {
        most = most.max(absolute_sum(&mat.row(r)[..width]));
    }
    most
}

// The absolute values of a column, added up.
fn column_sum(mat: &Mat, column: usize) -> u128
    requires few { length mat.now.rows ≤ 2 ^ 16 }
    requires column { column < mat.now.cols }
    requires numerators { (r : ℕ) → r < length mat.now.rows → unsigned_abs (entry_of mat.now r column) < 2 ^ 31 }
    ensures sum { result ≡ size (length mat.now.rows) (λ r. entry_of mat.now r column) }
    ensures small { result ≤ 2 ^ 31 * length mat.now.rows }
{
    let mut sum = 0;
    for r in 0..mat.rows() {
        sum += mat.at(r, column).unsigned_abs();
    }
    sum
}

/// By how much numbers grow in a stage at most.
pub fn growth(parts: &DesignParts) -> u128
    requires { IsDesign parts.now }
    ensures { result ≡ growth (design_of parts.now) }
{
    let mut most = parts.plant_den.unsigned_abs();
    for i in 0..parts.states {
        most = most.max(absolute_sum(parts.a.row(i)) + absolute_sum(parts.b.row(i)));
    }
    most
}

/// The widest cost row with its target, or what the cost rows are over.
pub fn cost_width(parts: &DesignParts) -> u128
    requires { IsDesign parts.now }
    ensures { result ≡ cost_width (design_of parts.now) }
{
    let width = parts.states + 1;
    let rows = greatest_width(&parts.stage_cost, width).max(greatest_width(
        &parts.final_cost,
        width,
    ));
    parts.row_den.unsigned_abs().max(rows)
}

/// The widest limit row with its bound, or what the limit rows are over.
pub fn limit_width(parts: &DesignParts) -> u128
    requires { IsDesign parts.now }
    ensures { result ≡ limit_width (design_of parts.now) }
{
    let stage = greatest_width(&parts.stage_rows, parts.states + parts.inputs + 1);
    let last = greatest_width(&parts.final_rows, parts.states + 1);
    parts.limit_den.unsigned_abs().max(stage.max(last))
}

/// All weights, each as often as it counts, and what they are over.
pub fn weight_sum(parts: &DesignParts) -> u128
    requires { IsDesign parts.now }
    ensures sum { result ≡ weight_sum (design_of parts.now) }
    ensures small { result < 2 ^ 64 }
    ensures some { 1 ≤ result }
{
    let column = parts.states + 1;
    let stage = column_sum(&parts.stage_cost, column) + absolute_sum(&parts.input_weights);
    parts.cost_den.unsigned_abs()
        + parts.stages as u128 * stage
        + column_sum(&parts.final_cost, column)
}

/// The quantity `prediction`.
pub fn prediction_size(parts: &DesignParts) -> Option<u128>
    requires { IsDesign parts.now }
    ensures { SomeIff result (prediction_size (design_of parts.now) ≤ 2 ^ 126) (prediction_size (design_of parts.now)) }
{
    limited_power(growth(parts), parts.stages)
}

/// The quantity `hessian`.
pub fn hessian_size(parts: &DesignParts) -> Option<u128>
    requires { IsDesign parts.now }
    ensures { SomeIff result (hessian_size (design_of parts.now) ≤ 2 ^ 126) (hessian_size (design_of parts.now)) }
{
    let entries = parts.stages * parts.inputs;
    let count = (entries * (entries + parts.states + 1)) as u128;
    let response = limited_product(cost_width(parts), prediction_size(parts)?)?;
    limited_area(count * 2 * weight_sum(parts), response)
}

/// The quantity `rows`.
pub fn rows_size(parts: &DesignParts) -> Option<u128>
    requires { IsDesign parts.now }
    ensures { SomeIff result (rows_size (design_of parts.now) ≤ 2 ^ 126) (rows_size (design_of parts.now)) }
{
    let entries = parts.stages * parts.inputs;
    let rows = parts.stages * parts.stage_rows.rows() + parts.final_rows.rows();
    let count = ((entries + parts.states + 1) * rows) as u128;
    let entry = limited_product(limit_width(parts), prediction_size(parts)?)?;
    limited_area(count, entry)
}

/// The quantity `curvature`, by the exponent that the squares ask, the denominators, and the quantities `hessian` and `rows`.
pub fn curvature_of(
    exponent: u32,
    limit_den: u128,
    hessian: u128,
    weight_den: u128,
    cost_row_den: u128,
    rows: u128,
) -> Option<u128>
    requires exponent { exponent ≤ 40 }
    requires limit_den { limit_den ≤ 2 ^ 20 }
    requires weight_den { weight_den ≤ 2 ^ 20 }
    requires cost_row_den { cost_row_den ≤ 2 ^ 20 }
    ensures { let size = curvature_of exponent limit_den hessian weight_den cost_row_den rows in SomeIff result (size ≤ 2 ^ 126) size }
{
    let cost = limited_product((1 << exponent) * (limit_den * limit_den), hessian)?;
    let limits = limited_product(weight_den * (cost_row_den * cost_row_den), rows)?;
    if cost + limits <= 1 << 126 {
        Some(cost + limits)
    } else {
        None
    }
}
