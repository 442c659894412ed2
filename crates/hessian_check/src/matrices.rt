// The matrices whose forms decide the exponent.
ghost use Rattle.std.specs.Prelude.{◌≡◌, ◌+◌, ◌*◌, ◌<◌, ◌≤◌, ◌^◌, ℕ, ℤ, pos, ◌-ℤ◌, ◌*ℤ◌, ◌≤ℤ◌, unsigned_abs, length, IfOk};
ghost use Rattle.mat_int.specs.Matrix.{entry_of};
ghost use Rattle.hessian_check.specs.Passing.{AreSquare};
ghost use Rattle.mat_int.specs.Matrix.{HasEntries};
ghost use Rattle.hessian_check.specs.Filling.{HasFirstRows};
ghost use Rattle.hessian_check.specs.StepMatrices.{mixed, AreMatrices, IsMixable};

use frac_scaled::scaled;
use mat_int::Mat;
use std::alloc::{AllocError, Global};

/// The matrices `2^s * cost_factor * cost - row_factor * rows`, one for each s.
#[derive(Drop)]
pub struct StepMatrices {
    /// Square and symmetric.
    pub cost: Mat,
    /// The same, of its size.
    pub rows: Mat,
    pub cost_factor: i128,
    pub row_factor: i128,
    ghost sound: { AreMatrices cost rows cost_factor row_factor },
}

impl StepMatrices {
    ghost use Rattle.hessian_check.specs.MatrixRoom.{HasMatrixRoom, matrix_at};

    /// The matrix of s.
    pub fn at(&self, alloc: Global, s: u32) -> Result<Mat, AllocError>
        requires small { s ≤ 40 }
        requires room { HasMatrixRoom self.now s }
        ensures { let n = length self.now.cost.rows in IfOk result (HasEntries n n (matrix_at self.now s)) }
    {
        mix(
            alloc,
            scaled(self.cost_factor, s),
            &self.cost,
            self.row_factor,
            &self.rows,
        )
    }
}

/// `x * a - y * b`.
pub fn mix(alloc: Global, x: i128, a: &Mat, y: i128, b: &Mat) -> Result<Mat, AllocError>
    requires shape { AreSquare a.now b.now }
    requires room { IsMixable x a.now y b.now }
    ensures { let n = length a.now.rows in IfOk result (HasEntries n n (mixed x (entry_of a.now) y (entry_of b.now))) }
{
    let mut out = Mat::zero(alloc, a.rows(), a.rows())?;
    for i in 0..a.rows() {
        mix_row(x, a, y, b, &mut out, i);
    }
    Ok(out)
}

// Row i of it, where the rows before it are made.
fn mix_row(x: i128, a: &Mat, y: i128, b: &Mat, out: &mut Mat, i: usize)
    requires shape { AreSquare a.now b.now }
    requires room { IsMixable x a.now y b.now }
    requires inside { i < length a.now.rows }
    requires before { HasFirstRows (length a.now.rows) (mixed x (entry_of a.now) y (entry_of b.now)) out.old i }
    ensures { HasFirstRows (length a.now.rows) (mixed x (entry_of a.now) y (entry_of b.now)) out.new (i + 1) }
{
    for j in 0..a.rows() {
        out.set(i, j, x * a.at(i, j) - y * b.at(i, j));
    }
}
