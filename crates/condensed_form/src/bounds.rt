// The limit rows' bounds.
ghost use Rattle.std.specs.Prelude.{◌≤◌, ◌<◌, ◌*◌, ◌^◌, ℕ, ◌*ℤ◌, IfOk, unsigned_abs};
ghost use Rattle.qp_model.specs.problem.Design.{rows};
ghost use Rattle.qp_model.specs.problem.Parts.{design_of, IsDesign};
ghost use Rattle.qp_model.specs.problem.Runs.{bound_at, Holds};

use crate::stacked::scaled_numbers;
use qp_model::DesignParts;
use std::alloc::{AllocError, Global};

/// Each limit row's bound, which is over `limit_den`, times `scale`.
pub fn scaled_bounds(
    alloc: Global,
    parts: &DesignParts,
    scale: i128,
) -> Result<Vec<i128>, AllocError>
    requires design { IsDesign parts.now }
    requires fits { (i : ℕ) → i < rows (design_of parts.now) → unsigned_abs scale * unsigned_abs (bound_at (design_of parts.now) i) ≤ 2 ^ 126 }
    ensures { IfOk result (λ v. Holds v.items (rows (design_of parts.now)) (λ i. scale *ℤ bound_at (design_of parts.now) i)) }
{
    let n = parts.states;
    let wide = n + parts.inputs;
    scaled_numbers(
        alloc,
        parts.stages,
        &parts.stage_rows,
        wide,
        &parts.final_rows,
        n,
        scale,
    )
}
