// The matrix and the columns of a condensed form, scaled to one denominator.
ghost use Rattle.std.specs.Prelude.{ℕ, ℤ, pos, ◌≡◌, ◌<◌, ◌≤◌, ◌+◌, ◌^◌, ◌≤ℤ◌, ◌*ℤ◌, length, unsigned_abs, IsTrue, IsFalse, IfOk, IfErr};
ghost use Rattle.std.specs.Option.{SomeIff};
ghost use Rattle.integer_algebra.specs.Sums.{at};
ghost use Rattle.integer_algebra.specs.Sizes.{size};
ghost use Rattle.mat_int.specs.Matrix.{entry_of};
ghost use Rattle.qp_model.specs.form.Columns.{columns, solve_column, solve_matrix};
ghost use Rattle.condensed_form.specs.Form.{held};
ghost use Rattle.approx_inverse.specs.Condensed.{IsSolvable, IsMatrixOf};
ghost use Rattle.approx_inverse.specs.DescentSize.{greatest_row};
ghost use Rattle.approx_inverse.specs.Fault.{IsFault};

use condensed_form::Condensed;
use mat_int::Mat;
use qp_model::{Quantity, SizeFault};
use std::alloc::Global;

// k v, where it is at most `2^126` in absolute value.
fn limited_multiple(k: i128, v: i128) -> Option<i128>
    ensures { SomeIff result (unsigned_abs (k *ℤ v) ≤ 2 ^ 126) (k *ℤ v) }
{
    match k.checked_mul(v) {
        Some(product) if product.unsigned_abs() <= 1 << 126 => Some(product),
        _ => None,
    }
}

// Multiplies a list by k. False where a product is above `2^126` in absolute value; then the list holds anything.
fn scale(xs: &mut [i128], k: i128) -> bool
    ensures done { IsTrue result → (j : ℕ) → j < length xs.old → at xs.new j ≡ k *ℤ at xs.old j }
    ensures wide { IsFalse result → 2 ^ 126 < size (length xs.old) (λ j. k *ℤ at xs.old j) }
{
    for x in xs.iter_mut() {
        let Some(product) = limited_multiple(k, *x) else {
            return false;
        };
        *x = product;
    }
    true
}

// Copies column i of a matrix.
fn copy_column(mat: &Mat, i: usize, out: &mut [i128])
    requires rows { length mat.now.rows ≡ length out.old }
    requires column { i < mat.now.cols }
    ensures { (j : ℕ) → j < length out.old → at out.new j ≡ entry_of mat.now j i }
{
    for (j, o) in out.iter_mut().enumerate() {
        *o = mat.at(j, i);
    }
}

// Multiplies a list by k and then by l, both positive. False as above.
fn scale_twice(xs: &mut [i128], k: i128, l: i128) -> bool
    requires { pos 1 ≤ℤ l }
    ensures done { IsTrue result → (j : ℕ) → j < length xs.old → at xs.new j ≡ l *ℤ (k *ℤ at xs.old j) }
    ensures wide { IsFalse result → 2 ^ 126 < size (length xs.old) (λ j. l *ℤ (k *ℤ at xs.old j)) }
{
    scale(xs, k) && scale(xs, l)
}

// Multiplies a list by w, twice by r, and by p, all positive. False as above.
fn scale_row(xs: &mut [i128], w: i128, r: i128, p: i128) -> bool
    requires r_positive { pos 1 ≤ℤ r }
    requires p_positive { pos 1 ≤ℤ p }
    ensures done { IsTrue result → (j : ℕ) → j < length xs.old → at xs.new j ≡ p *ℤ (r *ℤ (r *ℤ w)) *ℤ at xs.old j }
    ensures wide { IsFalse result → 2 ^ 126 < size (length xs.old) (λ j. p *ℤ (r *ℤ (r *ℤ w)) *ℤ at xs.old j) }
{
    scale_twice(xs, w, r) && scale_twice(xs, r, p)
}

/// Puts column i into a list. False where a number of it is above `2^126` in absolute value; then the list holds anything.
pub fn put_column(c: &Condensed, i: usize, out: &mut [i128]) -> bool
    requires solvable { IsSolvable c.now }
    requires column { i < columns (held c.now) }
    requires len { length out.old ≡ (held c.now).entries }
    ensures done { IsTrue result → (j : ℕ) → j < length out.old → at out.new j ≡ solve_column (held c.now) i j }
    ensures wide { IsFalse result → 2 ^ 126 < size (length out.old) (solve_column (held c.now) i) }
{
    let states = c.lin.cols();
    if i < states {
        copy_column(&c.lin, i, out);
        scale(out, c.limit_den)
    } else if i == states {
        out.copy_from_slice(&c.off);
        scale(out, c.limit_den)
    } else {
        out.copy_from_slice(c.g.row(i - (states + 1)));
        scale_row(out, c.weight_den, c.cost_row_den, c.power)
    }
}

/// The matrix. `TooWide` where a number of it is above `2^126` in absolute value. `line` is for a row.
pub fn matrix_of(alloc: Global, c: &Condensed, line: &mut [i128]) -> Result<Mat, SizeFault>
    requires solvable { IsSolvable c.now }
    requires len { length line.old ≡ (held c.now).entries }
    ensures ok { IfOk result (IsMatrixOf (held c.now)) }
    ensures err { IfErr result (λ e. IsFault e (2 ^ 126 < greatest_row (held c.now).entries (held c.now).entries (solve_matrix (held c.now)))) }
{
    let entries = c.hess.rows();
    let mut mat = Mat::zero(alloc, 0, entries)?;
    for i in 0..entries {
        line.copy_from_slice(c.hess.row(i));
        if !scale(line, c.limit_den) {
            return Err(SizeFault::TooWide {
                quantity: Quantity::Descent,
            });
        }
        mat.push_row(alloc, line)?;
    }
    Ok(mat)
}
