// Copies of a design's tables.
ghost use Rattle.std.specs.Prelude.{◌≡◌, IfOk};

use mat_int::Mat;
use std::alloc::{AllocError, Global};

/// Two matrices.
#[derive(Drop)]
pub(crate) struct MatPair {
    pub first: Mat,
    pub second: Mat,
}

// The same matrix.
fn copied(alloc: Global, mat: &Mat) -> Result<Mat, AllocError>
    ensures { IfOk result (λ m. m ≡ mat.now) }
{
    let mut out = Mat::zero(alloc, 0, mat.cols())?;
    for i in 0..mat.rows() {
        out.push_row(alloc, mat.row(i))?;
    }
    Ok(out)
}

/// The same two.
pub(crate) fn copied_pair(alloc: Global, a: &Mat, b: &Mat) -> Result<MatPair, AllocError>
    ensures first { IfOk result (λ pair. pair.first ≡ a.now) }
    ensures second { IfOk result (λ pair. pair.second ≡ b.now) }
{
    Ok(MatPair {
        first: copied(alloc, a)?,
        second: copied(alloc, b)?,
    })
}
