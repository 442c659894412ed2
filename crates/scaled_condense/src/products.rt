// The products of the columns of the cost rows, over any denominator.
ghost use Rattle.std.specs.Prelude.{◌≤◌, ◌+◌, ◌*◌, ◌^◌, IfOk};
ghost use Rattle.mat_int.specs.Enclosures.{HasEnclosures};
ghost use Rattle.qp_model.specs.problem.Parts.{design_of};
ghost use Rattle.qp_model.specs.problem.Runs.{counts};
ghost use Rattle.qp_model.specs.form.Quantities.{cost_width, weight_sum};
ghost use Rattle.scaled_run.specs.ScaledForm.{scaled_costs, scaled_products};
ghost use Rattle.scaled_condense.specs.Lists.{IsScale, HoldsEncMatrix};

use crate::columns::cost_columns;
use condensed_form::weights_of;
use enclosure::{EncMat, gram_over};
use mat_products::MatFault;
use qp_model::DesignParts;
use std::alloc::{AllocError, Global};

// The products of these columns of all counted cost rows, with their weights.
fn weighed_products(
    alloc: Global,
    parts: &DesignParts,
    columns: &EncMat,
    over: u128,
    den: u128,
    reach: u128,
) -> Result<EncMat, AllocError>
    requires scale { IsScale parts.now over reach }
    requires area { weight_sum (design_of parts.now) * (cost_width (design_of parts.now) * reach) ^ 2 ≤ 2 ^ 126 }
    requires some { 1 ≤ den }
    requires small { den ≤ 2 ^ 126 }
    requires columns { let width = parts.now.stages * parts.now.inputs + parts.now.states + 1 in
        HoldsEncMatrix columns.now.mid columns.now.rad (counts (design_of parts.now)) width width (scaled_costs over (design_of parts.now)) }
    ensures { let width = parts.now.stages * parts.now.inputs + parts.now.states + 1 in
        IfOk result (λ g. HasEnclosures width width (scaled_products over den (design_of parts.now)) g.mid g.rad) }
{
    let weights = weights_of(alloc, parts)?;
    match gram_over(alloc, columns, &weights, den) {
        Ok(products) => Ok(products),
        Err(MatFault::Memory) => Err(AllocError),
        Err(MatFault::Wide) => unreachable!(),
    }
}

/// Those of the plan's entries, then of the states, and then of the targets, over `den`. `over` is what the columns are over, and `reach` how far a response
/// reaches.
pub fn cost_products(
    alloc: Global,
    parts: &DesignParts,
    over: u128,
    den: u128,
    reach: u128,
) -> Result<EncMat, AllocError>
    requires scale { IsScale parts.now over reach }
    requires area { weight_sum (design_of parts.now) * (cost_width (design_of parts.now) * reach) ^ 2 ≤ 2 ^ 126 }
    requires some { 1 ≤ den }
    requires small { den ≤ 2 ^ 126 }
    ensures { let width = parts.now.stages * parts.now.inputs + parts.now.states + 1 in
        IfOk result (λ g. HasEnclosures width width (scaled_products over den (design_of parts.now)) g.mid g.rad) }
{
    let columns = cost_columns(alloc, parts, over, reach)?;
    weighed_products(alloc, parts, &columns, over, den, reach)
}
