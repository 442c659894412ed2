// The denominators of the condensed form, and how much it bends a plan up at least.
ghost use Rattle.std.specs.Prelude.{◌≡◌, ℕ, pos, ◌*◌, ◌^◌, ◌<◌, ◌≤◌, ◌≤ℤ◌, min, length, unsigned_abs};
ghost use Rattle.integer_algebra.specs.Sums.{at};
ghost use Rattle.qp_model.specs.problem.Parts.{design_of, IsDesign};
ghost use Rattle.qp_model.specs.form.Quantities.{cost_entry_size};
ghost use Rattle.condensed_form.specs.Form.{IsLeastInput, response_scale};

use frac_scaled::limited_product;
use qp_model::DesignParts;

/// The least of some numbers.
pub fn least_of(numbers: &[i128]) -> i128
    requires { 1 ≤ length numbers.now }
    ensures below { (l : ℕ) → l < length numbers.now → result ≤ℤ at numbers.now l }
    ensures met { (l : ℕ) × ((l < length numbers.now) × (result ≡ at numbers.now l)) }
{
    let mut least = numbers[0];
    for number in numbers {
        least = least.min(*number);
    }
    least
}

/// The least input weight, over `cost_den`.
pub fn least_input(parts: &DesignParts) -> i128
    requires { IsDesign parts.now }
    ensures { IsLeastInput (design_of parts.now) result }
{
    least_of(&parts.input_weights)
}

/// The square of what the responses of the cost rows are over. `power` is the plant's denominator to the power of the stages.
pub fn square_scale(parts: &DesignParts, power: i128) -> i128
    requires design { IsDesign parts.now }
    requires fits { cost_entry_size (design_of parts.now) ≤ 2 ^ 126 }
    requires power { power ≡ pos (unsigned_abs parts.now.plant_den ^ parts.now.stages) }
    ensures { result ≡ pos (response_scale (design_of parts.now) ^ 2) }
{
    let scale = parts.row_den * power;
    scale * scale
}

/// What the hessian times the limits' denominator bends a plan up by at least, times the squares of its entries; `2^126` where that
/// is more.
pub fn bend_floor(parts: &DesignParts, square: i128, input_floor: i128) -> i128
    requires design { IsDesign parts.now }
    requires fits { cost_entry_size (design_of parts.now) ≤ 2 ^ 126 }
    requires square { square ≡ pos (response_scale (design_of parts.now) ^ 2) }
    requires least { IsLeastInput (design_of parts.now) input_floor }
    ensures { result ≡ pos (min (2 * unsigned_abs parts.now.limit_den * response_scale (design_of parts.now) ^ 2 * unsigned_abs input_floor) (2 ^ 126)) }
{
    let bend = (2 * (input_floor * square)).unsigned_abs();
    match limited_product(parts.limit_den.unsigned_abs(), bend) {
        Some(floor) => floor as i128,
        None => 1 << 126,
    }
}
