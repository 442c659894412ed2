// The quantities of the condensed numbers in enclosures. None stands for a number above `2^126`.
ghost use Rattle.std.specs.Prelude.{◌≡◌, ◌≤◌, ◌^◌};
ghost use Rattle.std.specs.Option.{SomeIff};
ghost use Rattle.qp_model.specs.problem.Parts.{design_of, IsDesign};
ghost use Rattle.qp_model.specs.form.FineSizes.{fine_reach, fine_rows_size};
ghost use Rattle.scaled_condense.specs.Numbers.{fine_cost_total};

use condensed_form::limit_count;
use frac_scaled::limited_product;
use qp_model::{DesignParts, cost_width, limit_width, limited_area, weight_sum};

/// The absolute values of all numbers of the condensed cost, over `2^80`.
pub fn fine_cost_total(parts: &DesignParts, reach: u128) -> Option<u128>
    requires design { IsDesign parts.now }
    requires reach { reach ≡ fine_reach (design_of parts.now) parts.now.stages }
    ensures { SomeIff result (fine_cost_total (design_of parts.now) ≤ 2 ^ 126) (fine_cost_total (design_of parts.now)) }
{
    let entries = parts.stages * parts.inputs;
    let count = (entries * (entries + parts.states + 1)) as u128;
    let response = limited_product(cost_width(parts), reach)?;
    limited_area(count * 2 * weight_sum(parts), response)
}

/// The quantity `rows`.
pub fn fine_rows_size(parts: &DesignParts, reach: u128) -> Option<u128>
    requires design { IsDesign parts.now }
    requires reach { reach ≡ fine_reach (design_of parts.now) parts.now.stages }
    ensures { SomeIff result (fine_rows_size (design_of parts.now) ≤ 2 ^ 126) (fine_rows_size (design_of parts.now)) }
{
    let entries = parts.stages * parts.inputs;
    let count = ((entries + parts.states + 1) * limit_count(parts)) as u128;
    let entry = limited_product(limit_width(parts), reach)?;
    limited_area(count, entry)
}
