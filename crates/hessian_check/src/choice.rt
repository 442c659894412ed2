// The numbers that are chosen among the matrices.
ghost use Rattle.std.specs.Prelude.{◌≡◌, ◌⊎◌, ◌<◌, ◌≤◌, ℕ, length, IfOk, unwrap_or, IsErrOf};
ghost use Rattle.qp_model.specs.bounds.Least.{IsLeastBelow};
ghost use Rattle.hessian_check.specs.Curvature.{HasPassingRoot};
ghost use Rattle.integer_algebra.specs.Matrices.{IsDominant};
ghost use Rattle.hessian_check.specs.MatrixRoom.{HasMatrixRoom, matrix_at};
ghost use Rattle.hessian_check.specs.Exponents.{IsOutcome};

use crate::certificate::has_passing_root;
use crate::fault::{CurvatureFault, StepExponents};
use crate::matrices::StepMatrices;
use std::alloc::{AllocError, Global};

/// The exponents of matrices, where `squares` is the least number up to 40 that passes the test of all squares.
pub fn exponents_of(
    alloc: Global,
    matrices: &StepMatrices,
    squares: Option<u32>,
) -> Result<StepExponents, CurvatureFault>
    requires small { unwrap_or squares 40 ≤ 40 }
    requires room { (s : ℕ) → s ≤ unwrap_or squares 40 → HasMatrixRoom matrices.now s }
    ensures { IsOutcome (length matrices.now.cost.rows) (matrix_at matrices.now) squares result }
{
    let last = squares.unwrap_or(40);
    let Some(s1) = first_dominant(alloc, matrices, last + 1)?.or(squares) else {
        return Err(CurvatureFault::NoStep);
    };
    let s = first_passing(alloc, matrices, s1)?.unwrap_or(s1);
    Ok(StepExponents { s, s1 })
}

// The least number below `end` whose matrix is dominant.
fn first_dominant(
    alloc: Global,
    matrices: &StepMatrices,
    end: u32,
) -> Result<Option<u32>, AllocError>
    requires small { end ≤ 41 }
    requires room { (s : ℕ) → s < end → HasMatrixRoom matrices.now s }
    ensures { IfOk result (IsLeastBelow end (λ s. IsDominant (length matrices.now.cost.rows) (matrix_at matrices.now s))) }
{
    for s in 0..end {
        let matrix = matrices.at(alloc, s)?;
        if matrix.is_dominant().unwrap() {
            return Ok(Some(s));
        }
    }
    Ok(None)
}

// The least number below `end` whose matrix has a root that the test passes.
fn first_passing(
    alloc: Global,
    matrices: &StepMatrices,
    end: u32,
) -> Result<Option<u32>, AllocError>
    requires small { end ≤ 41 }
    requires room { (s : ℕ) → s < end → HasMatrixRoom matrices.now s }
    ensures { IfOk result (IsLeastBelow end (λ s. HasPassingRoot (length matrices.now.cost.rows) (matrix_at matrices.now s))) }
{
    for s in 0..end {
        let matrix = matrices.at(alloc, s)?;
        if has_passing_root(alloc, &matrix)? {
            return Ok(Some(s));
        }
    }
    Ok(None)
}
