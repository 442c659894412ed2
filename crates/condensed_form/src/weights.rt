// The weights and targets of the counted cost rows: the stage rows of stage 1, of stage 2 and so on, then the final rows.
ghost use Rattle.std.specs.Prelude.{◌≡◌, ℕ, ◌*◌, ◌^◌, ◌<◌, ◌≤◌, ◌*ℤ◌, IfOk, unsigned_abs};
ghost use Rattle.qp_model.specs.problem.Parts.{design_of, IsDesign};
ghost use Rattle.qp_model.specs.problem.Runs.{counts, Holds};
ghost use Rattle.condensed_form.specs.Costs.{weight_of, target_of};

use crate::stacked::{number_at, scaled_numbers};
use qp_model::DesignParts;
use std::alloc::{AllocError, Global};

/// The target of counted cost row `c`, over `row_den`.
pub fn target_at(parts: &DesignParts, c: usize) -> i128
    requires design { IsDesign parts.now }
    requires row { c < counts (design_of parts.now) }
    ensures { result ≡ target_of (design_of parts.now) c }
{
    let n = parts.states;
    number_at(parts.stages, &parts.stage_cost, n, &parts.final_cost, n, c)
}

/// The weight of each counted cost row, over `cost_den`.
pub fn weights_of(alloc: Global, parts: &DesignParts) -> Result<Vec<i128>, AllocError>
    requires { IsDesign parts.now }
    ensures { IfOk result (λ v. Holds v.items (counts (design_of parts.now)) (weight_of (design_of parts.now))) }
{
    let w = parts.states + 1;
    scaled_numbers(
        alloc,
        parts.stages,
        &parts.stage_cost,
        w,
        &parts.final_cost,
        w,
        1,
    )
}

/// The target of each counted cost row, which is over `row_den`, times `scale`.
pub fn scaled_targets(
    alloc: Global,
    parts: &DesignParts,
    scale: i128,
) -> Result<Vec<i128>, AllocError>
    requires design { IsDesign parts.now }
    requires fits { (c : ℕ) → c < counts (design_of parts.now) → unsigned_abs scale * unsigned_abs (target_of (design_of parts.now) c) ≤ 2 ^ 126 }
    ensures { IfOk result (λ v. Holds v.items (counts (design_of parts.now)) (λ c. scale *ℤ target_of (design_of parts.now) c)) }
{
    let n = parts.states;
    scaled_numbers(
        alloc,
        parts.stages,
        &parts.stage_cost,
        n,
        &parts.final_cost,
        n,
        scale,
    )
}
