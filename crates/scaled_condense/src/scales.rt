// How much the condensed form in enclosures bends a plan up at least.
ghost use Rattle.std.specs.Prelude.{◌≡◌, ◌≤◌, ◌^◌, pos, ◌-ℤ◌, ◌*ℤ◌, unsigned_abs};
ghost use Rattle.qp_model.specs.problem.Parts.{design_of, IsDesign};
ghost use Rattle.qp_model.specs.form.FineForm.{fine_form, hessian_radius};
ghost use Rattle.qp_model.specs.form.FineSizes.{fine_hessian_size};
ghost use Rattle.condensed_form.specs.Form.{IsLeastInput};

use crate::hessian::brought_weight;
use qp_model::DesignParts;

// What the hessian bends a plan up by at least, times the squares of its entries: twice the least input weight, less the greatest sum of the
// hessian's radii in a row.
fn bend(weight: i128, radius: u128) -> i128
    requires weight { unsigned_abs weight ≤ 2 ^ 86 }
    requires radius { radius ≤ 2 ^ 40 }
    ensures value { result ≡ pos 2 *ℤ weight -ℤ pos radius }
    ensures small { unsigned_abs result ≤ 2 ^ 88 }
{
    2 * weight - radius as i128
}

/// The same of the hessian times the limits' denominator, which is far below the `2^126` that a floor is cut at. `radius` is the greatest sum of the
/// hessian's radii in a row.
pub fn bend_floor(parts: &DesignParts, input_floor: i128, radius: u128) -> i128
    requires design { IsDesign parts.now }
    requires least { IsLeastInput (design_of parts.now) input_floor }
    requires radius { radius ≡ hessian_radius (design_of parts.now) }
    requires room { fine_hessian_size (design_of parts.now) ≤ 2 ^ 126 }
    ensures { result ≡ (fine_form (design_of parts.now)).floor }
{
    parts.limit_den * bend(brought_weight(parts, 1 << 40, input_floor), radius)
}
