// The rows that stand once for each stage, one stage's after another's, and the final rows after them.
ghost use Rattle.std.specs.Prelude.{◌≡◌, ℕ, ◌+◌, ◌*◌, ◌^◌, ◌<◌, ◌≤◌, ◌*ℤ◌, length, IfOk, unsigned_abs};
ghost use Rattle.qp_model.specs.problem.Design.{rows};
ghost use Rattle.qp_model.specs.problem.Parts.{design_of, IsDesign};
ghost use Rattle.qp_model.specs.problem.Runs.{counts, Holds};
ghost use Rattle.condensed_form.specs.Lists.{stacked};

use mat_int::Mat;
use qp_model::DesignParts;
use std::alloc::{AllocError, Global};

// How many they are.
fn count_of(stages: usize, stage_rows: &Mat, final_rows: &Mat) -> usize
    requires { stages * length stage_rows.now.rows + length final_rows.now.rows < 2 ^ 32 }
    ensures { result ≡ stages * length stage_rows.now.rows + length final_rows.now.rows }
{
    stages * stage_rows.rows() + final_rows.rows()
}

/// How many limit rows there are.
pub fn limit_count(parts: &DesignParts) -> usize
    requires { IsDesign parts.now }
    ensures { result ≡ rows (design_of parts.now) }
{
    count_of(parts.stages, &parts.stage_rows, &parts.final_rows)
}

/// How many counted cost rows there are.
pub fn cost_count(parts: &DesignParts) -> usize
    requires { IsDesign parts.now }
    ensures { result ≡ counts (design_of parts.now) }
{
    count_of(parts.stages, &parts.stage_cost, &parts.final_cost)
}

/// Row `i`'s number: in column `j` of the stage rows, in column `k` of the final rows.
pub fn number_at(
    stages: usize,
    stage_rows: &Mat,
    j: usize,
    final_rows: &Mat,
    k: usize,
    i: usize,
) -> i128
    requires count { stages * length stage_rows.now.rows + length final_rows.now.rows < 2 ^ 32 }
    requires stage { j < stage_rows.now.cols }
    requires last { k < final_rows.now.cols }
    requires row { i < stages * length stage_rows.now.rows + length final_rows.now.rows }
    ensures { result ≡ stacked stages stage_rows.now j final_rows.now k i }
{
    let count = stage_rows.rows();
    let above = stages * count;
    if i < above {
        stage_rows.at(i % count, j)
    } else {
        final_rows.at(i - above, k)
    }
}

/// Each row's number, times `scale`.
pub fn scaled_numbers(
    alloc: Global,
    stages: usize,
    stage_rows: &Mat,
    j: usize,
    final_rows: &Mat,
    k: usize,
    scale: i128,
) -> Result<Vec<i128>, AllocError>
    requires count { stages * length stage_rows.now.rows + length final_rows.now.rows < 2 ^ 32 }
    requires stage { j < stage_rows.now.cols }
    requires last { k < final_rows.now.cols }
    requires fits { (i : ℕ) → i < stages * length stage_rows.now.rows + length final_rows.now.rows →
        unsigned_abs scale * unsigned_abs (stacked stages stage_rows.now j final_rows.now k i) ≤ 2 ^ 126 }
    ensures { IfOk result (λ v. Holds v.items (stages * length stage_rows.now.rows + length final_rows.now.rows)
        (λ i. scale *ℤ stacked stages stage_rows.now j final_rows.now k i)) }
{
    let mut out = Vec::new(alloc);
    for i in 0..count_of(stages, stage_rows, final_rows) {
        out.push(scale * number_at(stages, stage_rows, j, final_rows, k, i))?;
    }
    Ok(out)
}
