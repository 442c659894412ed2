// The rows of a controller.
ghost use Rattle.std.specs.Prelude.{ℕ, ◌≡◌, ◌<◌, ◌≤◌, ◌^◌, pos, ◌*ℤ◌, ◌≤ℤ◌, length, unsigned_abs, IfOk};
ghost use Rattle.integer_algebra.specs.Sums.{at};
ghost use Rattle.integer_algebra.specs.Division.{round_of};
ghost use Rattle.mat_int.specs.Matrix.{entry_of, HasEntries};
ghost use Rattle.qp_model.specs.declared.design_parts.DesignParts.{DesignParts};
ghost use Rattle.qp_model.specs.machine.Controller.{HasShape};
ghost use Rattle.qp_model.specs.problem.Parts.{design_of};
ghost use Rattle.qp_model.specs.problem.Runs.{Holds};
ghost use Rattle.condensed_form.specs.Form.{IsForm, IsFormOf};
ghost use Rattle.controller_maker.specs.Assembled.{AreRowsOf};

use condensed_form::Condensed;
use frac_scaled::{round_div, scaled};
use mat_int::Mat;
use std::alloc::{AllocError, Global};

/// The rows of a controller, over `2^f`. With nu plan entries, n states and m limit rows:
#[derive(Drop)]
pub struct Rows {
    /// G, m by nu.
    pub g_mat: Mat,
    /// E, m by n.
    pub e_mat: Mat,
    /// b, m numbers.
    pub bound: Vec<i128>,
}

// `x / den` over `2^f`, rounded to the nearest, and a tie upward.
fn round_entry(x: i128, den: i128, f: u32) -> i128
    requires den { pos 1 ≤ℤ den }
    requires bits { f ≤ 48 }
    requires small { unsigned_abs x ≤ 2 ^ 63 }
    ensures { result ≡ round_of (pos (2 ^ f) *ℤ x) (unsigned_abs den) }
{
    round_div(scaled(x, f), den)
}

// Puts each number of a list, over `den`, rounded to `2^f`, into another list.
fn round_line(xs: &[i128], den: i128, f: u32, out: &mut [i128])
    requires len { length xs.now ≡ length out.old }
    requires den { pos 1 ≤ℤ den }
    requires bits { f ≤ 48 }
    requires small { (j : ℕ) → j < length xs.now → unsigned_abs (at xs.now j) ≤ 2 ^ 63 }
    ensures { (j : ℕ) → j < length xs.now → at out.new j ≡ round_of (pos (2 ^ f) *ℤ at xs.now j) (unsigned_abs den) }
{
    for (j, x) in xs.iter().enumerate() {
        out[j] = round_entry(*x, den, f);
    }
}

// The list of the numbers of a list, over `den`, rounded to `2^f`.
fn rounded_list(alloc: Global, xs: &[i128], den: i128, f: u32) -> Result<Vec<i128>, AllocError>
    requires den { pos 1 ≤ℤ den }
    requires bits { f ≤ 48 }
    requires small { (j : ℕ) → j < length xs.now → unsigned_abs (at xs.now j) ≤ 2 ^ 63 }
    ensures { IfOk result (λ out. Holds out.items (length xs.now) (λ j. round_of (pos (2 ^ f) *ℤ at xs.now j) (unsigned_abs den))) }
{
    let mut out = vec![in alloc; 0; xs.len()]?;
    round_line(xs, den, f, &mut out);
    Ok(out)
}

// The matrix of the numbers of a matrix, over `den`, rounded to `2^f`.
fn rounded_matrix(alloc: Global, mat: &Mat, den: i128, f: u32) -> Result<Mat, AllocError>
    requires shape { HasShape mat.now (length mat.now.rows) mat.now.cols }
    requires den { pos 1 ≤ℤ den }
    requires bits { f ≤ 48 }
    requires small { (i j : ℕ) → i < length mat.now.rows → j < mat.now.cols → unsigned_abs (entry_of mat.now i j) ≤ 2 ^ 63 }
    ensures { IfOk result (HasEntries (length mat.now.rows) mat.now.cols (λ i j. round_of (pos (2 ^ f) *ℤ entry_of mat.now i j) (unsigned_abs den))) }
{
    let mut out = Mat::zero(alloc, 0, mat.cols())?;
    for i in 0..mat.rows() {
        let line = rounded_list(alloc, mat.row(i), den, f)?;
        out.push_row(alloc, &line)?;
    }
    Ok(out)
}

/// The condensed rows, over `2^f`, rounded to the nearest, and a tie upward.
pub fn rounded_rows(alloc: Global, condensed: &Condensed, f: u32) -> Result<Rows, AllocError>
    requires form { IsForm condensed.now }
    requires bits { f ≤ 48 }
    ensures { IfOk result (λ rows. (p : DesignParts) → IsFormOf p condensed.now → AreRowsOf (design_of p) f rows) }
{
    Ok(Rows {
        g_mat: rounded_matrix(alloc, &condensed.g, condensed.row_den, f)?,
        e_mat: rounded_matrix(alloc, &condensed.e, condensed.row_den, f)?,
        bound: rounded_list(alloc, &condensed.bound, condensed.row_den, f)?,
    })
}
