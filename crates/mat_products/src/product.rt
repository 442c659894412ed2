// Products of matrices.
ghost use Rattle.std.specs.Prelude.{◌≡◌, ◌≤◌, ◌^◌, pos, ◌*ℤ◌, ◌≤ℤ◌, unsigned_abs, length, map, All, IfOk, OnOk, OnSome};
ghost use Rattle.std.specs.List.{Any};
ghost use Rattle.integer_algebra.specs.Sums.{at};
ghost use Rattle.integer_algebra.specs.Matrices.{matrix_product, matrix_product_size};
ghost use Rattle.mat_products.specs.Gram.{weighted_gram_matrix, weighted_gram_size};
ghost use Rattle.mat_int.specs.Matrix.{entry_of, transpose_of, HasEntries, AllFit, SomeIsWide};

use crate::fault::MatFault;
use frac_scaled::mul_checked;
use mat_int::{Mat, times_vec};
use std::alloc::Global;

/// The product of two matrices: the rows of `a` by the columns of `b`. Wide where the absolute values of the products that some entry adds up are
/// together above `2^127 - 1`.
pub fn mul(alloc: Global, a: &Mat, b: &Mat) -> Result<Mat, MatFault>
    requires { a.now.cols ≡ length b.now.rows }
    ensures value { let n = a.now.cols in
        IfOk result (HasEntries (length a.now.rows) b.now.cols (matrix_product n (entry_of a.now) (entry_of b.now))) }
    ensures fits { let n = a.now.cols in
        OnOk result (AllFit (length a.now.rows) b.now.cols (matrix_product_size n (entry_of a.now) (entry_of b.now))) }
    ensures wide { let n = a.now.cols in result ≡ Err MatFault.Wide →
        SomeIsWide (length a.now.rows) b.now.cols (matrix_product_size n (entry_of a.now) (entry_of b.now)) }
{
    let columns = b.transpose(alloc)?;
    row_products(alloc, a, &columns)
}

/// The products of a matrix's columns, by which it is square: entry jl is the sum over the rows of `weights[i] * g_ij * g_il`. `weights` has a number
/// of at least 0 for each row. Wide where the sum of `weights[i] * |g_ij| * |g_il|` of some entry is above `2^127 - 1`.
pub fn gram(alloc: Global, g: &Mat, weights: &[i128]) -> Result<Mat, MatFault>
    requires shape { length weights.now ≡ length g.now.rows }
    requires signs { All (λ weight. pos 0 ≤ℤ weight) weights.now }
    ensures value { let n = length g.now.rows in
        IfOk result (HasEntries g.now.cols g.now.cols (weighted_gram_matrix n (at weights.now) (entry_of g.now))) }
    ensures fits { let n = length g.now.rows in
        OnOk result (AllFit g.now.cols g.now.cols (weighted_gram_size n (at weights.now) (entry_of g.now))) }
    ensures wide { let n = length g.now.rows in result ≡ Err MatFault.Wide →
        SomeIsWide g.now.cols g.now.cols (weighted_gram_size n (at weights.now) (entry_of g.now)) }
{
    let columns = g.transpose(alloc)?;
    let weighted = weighted_columns(alloc, g, weights)?;
    row_products(alloc, &weighted, &columns)
}

// The transpose of a matrix, each row of which is taken times its weight first. Wide where such a product leaves 128 bits: the sum for its column with
// itself then does too, since a whole number's square is no less than its absolute value.
fn weighted_columns(alloc: Global, g: &Mat, weights: &[i128]) -> Result<Mat, MatFault>
    requires { length weights.now ≡ length g.now.rows }
    ensures value { IfOk result (HasEntries g.now.cols (length g.now.rows) (λ j i. at weights.now i *ℤ entry_of g.now i j)) }
    ensures wide { result ≡ Err MatFault.Wide →
        SomeIsWide (length g.now.rows) g.now.cols (λ i j. unsigned_abs (at weights.now i *ℤ entry_of g.now i j)) }
{
    let mut weighted = Mat::zero(alloc, g.cols(), g.rows())?;
    let mut column = vec![in alloc; 0; g.cols()]?;
    for i in 0..g.rows() {
        if weighted_row(weights[i], g.row(i), &mut column).is_none() {
            return Err(MatFault::Wide);
        }
        weighted.set_column(i, &column);
    }
    Ok(weighted)
}

// A row times its weight. None where a product leaves 128 bits; then `out` holds anything.
fn weighted_row(weight: i128, row: &[i128], out: &mut [i128]) -> Option<()>
    requires { length out.old ≡ length row.now }
    ensures value { OnSome result (out.new ≡ map (λ entry. weight *ℤ entry) row.now) }
    ensures wide { result ≡ None → Any (λ entry. 2 ^ 127 ≤ unsigned_abs (weight *ℤ entry)) row.now }
{
    for (j, o) in out.iter_mut().enumerate() {
        *o = mul_checked(weight, row[j])?;
    }
    Some(())
}

// The matrix times the transpose of another: the products of its rows with those of `b`.
fn row_products(alloc: Global, a: &Mat, b: &Mat) -> Result<Mat, MatFault>
    requires { a.now.cols ≡ b.now.cols }
    ensures value { let n = a.now.cols in
        IfOk result (HasEntries (length a.now.rows) (length b.now.rows) (matrix_product n (entry_of a.now) (transpose_of b.now))) }
    ensures fits { let n = a.now.cols in
        OnOk result (AllFit (length a.now.rows) (length b.now.rows) (matrix_product_size n (entry_of a.now) (transpose_of b.now))) }
    ensures wide { let n = a.now.cols in result ≡ Err MatFault.Wide →
        SomeIsWide (length a.now.rows) (length b.now.rows) (matrix_product_size n (entry_of a.now) (transpose_of b.now)) }
{
    let mut products = Mat::zero(alloc, 0, b.rows())?;
    let mut line = vec![in alloc; 0; b.rows()]?;
    for i in 0..a.rows() {
        if times_vec(b, a.row(i), &mut line).is_none() {
            return Err(MatFault::Wide);
        }
        products.push_row(alloc, &line)?;
    }
    Ok(products)
}
