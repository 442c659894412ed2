// The matrices of a condensed form: half the hessian, and the products of the rows' columns. Where the numbers have radii, each diagonal entry of
// the first is lowered and of the second raised by the radii of its row, so that a difference that is nowhere negative stays so for the exact numbers.
ghost use Rattle.std.specs.Prelude.{◌≡◌, ◌+◌, ◌<◌, ◌^◌, ℕ, Bool, length, unsigned_abs, IfOk};
ghost use Rattle.integer_algebra.specs.Sizes.{size};
ghost use Rattle.mat_int.specs.Matrix.{entry_of, HasEntries};
ghost use Rattle.mat_int.specs.Enclosures.{HasEnclosures};
ghost use Rattle.qp_model.specs.declared.design_parts.DesignParts.{DesignParts};
ghost use Rattle.qp_model.specs.problem.Parts.{design_of};
ghost use Rattle.condensed_form.specs.Form.{IsFormIn, IsSomeForm};
ghost use Rattle.hessian_check.specs.DesignMatrices.{IsCostMatrix};
ghost use Rattle.hessian_check.specs.Filling.{HasFirstEnclosures, HasFirstRows};
ghost use Rattle.hessian_check.specs.Held.{moved, moved_diagonal, IsMovable};
ghost use Rattle.hessian_check.specs.RowSums.{HaveSumRoom, rounded_sum, sums_matrix};
ghost use Rattle.hessian_check.specs.Steps.{half_of};

use condensed_form::Condensed;
use enclosure::{EncMat, divided};
use frac_scaled::floor_shift;
use mat_int::{Mat, absolute_sum};
use std::alloc::{AllocError, Global};

/// Half the hessian, with each diagonal entry lowered by half the radii of its row.
pub fn cost_matrix(alloc: Global, c: &Condensed) -> Result<Mat, AllocError>
    requires { IsSomeForm c.now }
    ensures { (fine : Bool) (p : DesignParts) → IsFormIn fine p c.now → IfOk result (IsCostMatrix fine (design_of p)) }
{
    let mut cost = halved(alloc, &c.hess)?;
    let radii = halved(alloc, &c.hess_rad)?;
    move_diagonal(&mut cost, &radii, false);
    Ok(cost)
}

/// The matrix of these sums of the rows' products; where they have radii, rounded, with each diagonal entry raised by the radii of its row.
pub fn row_matrix(alloc: Global, fine: bool, sums: &EncMat) -> Result<Mat, AllocError>
    requires square { sums.now.mid.cols ≡ length sums.now.mid.rows }
    requires room { HaveSumRoom sums.now.mid sums.now.rad }
    ensures { let n = length sums.now.mid.rows in IfOk result (HasEntries n n (sums_matrix fine sums.now.mid sums.now.rad)) }
{
    if !fine {
        return copied(alloc, &sums.mid);
    }
    let made = rounded(alloc, sums)?;
    let mut products = made.mid;
    move_diagonal(&mut products, &made.rad, true);
    Ok(products)
}

// Sums over `2^40`.
fn rounded(alloc: Global, sums: &EncMat) -> Result<EncMat, AllocError>
    requires square { sums.now.mid.cols ≡ length sums.now.mid.rows }
    requires room { HaveSumRoom sums.now.mid sums.now.rad }
    ensures { let n = length sums.now.mid.rows in IfOk result (λ m. HasEnclosures n n (rounded_sum sums.now.mid sums.now.rad) m.mid m.rad) }
{
    let mut out = EncMat::zero(alloc, sums.mid.rows(), sums.mid.rows())?;
    for i in 0..sums.mid.rows() {
        round_row(sums, &mut out, i);
    }
    Ok(out)
}

// Row i of them, where the rows before it are made.
fn round_row(sums: &EncMat, out: &mut EncMat, i: usize)
    requires square { sums.now.mid.cols ≡ length sums.now.mid.rows }
    requires room { HaveSumRoom sums.now.mid sums.now.rad }
    requires inside { i < length sums.now.mid.rows }
    requires before { HasFirstEnclosures (length sums.now.mid.rows) (rounded_sum sums.now.mid sums.now.rad) out.old.mid out.old.rad i }
    ensures { HasFirstEnclosures (length sums.now.mid.rows) (rounded_sum sums.now.mid sums.now.rad) out.new.mid out.new.rad (i + 1) }
{
    for j in 0..sums.mid.rows() {
        out.set(i, j, divided(sums.at(i, j), 1 << 40));
    }
}

// The same matrix.
fn copied(alloc: Global, mat: &Mat) -> Result<Mat, AllocError>
    ensures { IfOk result (HasEntries (length mat.now.rows) mat.now.cols (entry_of mat.now)) }
{
    let mut out = Mat::zero(alloc, 0, mat.cols())?;
    for i in 0..mat.rows() {
        out.push_row(alloc, mat.row(i))?;
    }
    Ok(out)
}

// `entry` and `by` together where `up` says so, else what `by` leaves of it.
fn moved(entry: i128, by: u128, up: bool) -> i128
    requires { unsigned_abs entry + by < 2 ^ 127 }
    ensures { result ≡ moved up entry by }
{
    if up {
        entry + by as i128
    } else {
        entry - by as i128
    }
}

// Raises each diagonal entry of a square matrix by the absolute values of a row of another where `up` says so, else lowers it by them.
fn move_diagonal(mat: &mut Mat, radii: &Mat, up: bool)
    requires { IsMovable mat.old radii.now }
    ensures { let n = length mat.old.rows in HasEntries n n (moved_diagonal up (entry_of mat.old) (λ i. size n (entry_of radii.now i))) mat.new }
{
    for i in 0..mat.rows() {
        let own = moved(mat.at(i, i), absolute_sum(radii.row(i)), up);
        mat.set(i, i, own);
    }
}

// Half a square matrix of even entries.
fn halved(alloc: Global, mat: &Mat) -> Result<Mat, AllocError>
    requires { mat.now.cols ≡ length mat.now.rows }
    ensures { let n = length mat.now.rows in IfOk result (HasEntries n n (half_of (entry_of mat.now))) }
{
    let mut out = Mat::zero(alloc, mat.rows(), mat.rows())?;
    for i in 0..mat.rows() {
        halve_row(mat, &mut out, i);
    }
    Ok(out)
}

// Row i of it, where the rows before it are made.
fn halve_row(mat: &Mat, out: &mut Mat, i: usize)
    requires square { mat.now.cols ≡ length mat.now.rows }
    requires inside { i < length mat.now.rows }
    requires before { HasFirstRows (length mat.now.rows) (half_of (entry_of mat.now)) out.old i }
    ensures { HasFirstRows (length mat.now.rows) (half_of (entry_of mat.now)) out.new (i + 1) }
{
    for j in 0..mat.rows() {
        out.set(i, j, floor_shift(mat.at(i, j), 1));
    }
}
