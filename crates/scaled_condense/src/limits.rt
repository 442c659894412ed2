// The condensed limits over any unit.
ghost use Rattle.std.specs.Prelude.{◌≤◌, ◌*◌, ◌^◌, IfOk};
ghost use Rattle.qp_model.specs.problem.Parts.{design_of};
ghost use Rattle.qp_model.specs.form.Quantities.{limit_width};
ghost use Rattle.scaled_condense.specs.Lists.{IsScale};
ghost use Rattle.scaled_condense.specs.Numbers.{AreScaledLimits};

use crate::columns::{plan_columns, state_columns};
use condensed_form::scaled_bounds;
use enclosure::EncMat;
use qp_model::DesignParts;
use std::alloc::{AllocError, Global};

/// The condensed limits: what the rows have of the plan, m by nu, and of the state, m by n, all times `limit_den`.
#[derive(Drop)]
pub struct LimitNumbers {
    pub g: EncMat,
    pub e: EncMat,
    /// m numbers over `limit_den` and the unit.
    pub bound: Vec<i128>,
}

/// The condensed limits, of whole numbers over `over`. `reach` is how far a response reaches.
pub fn limit_numbers(
    alloc: Global,
    parts: &DesignParts,
    over: u128,
    reach: u128,
) -> Result<LimitNumbers, AllocError>
    requires scale { IsScale parts.now over reach }
    requires fits { limit_width (design_of parts.now) * reach ≤ 2 ^ 126 }
    ensures { IfOk result (λ l. AreScaledLimits over parts.now l.g.mid l.g.rad l.e.mid l.e.rad l.bound.items) }
{
    let bound = scaled_bounds(alloc, parts, over as i128)?;
    let g = plan_columns(alloc, parts, over, reach)?;
    let e = state_columns(alloc, parts, over, reach)?;
    Ok(LimitNumbers { g, e, bound })
}
