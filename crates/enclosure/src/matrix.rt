// Products of the columns of a matrix of enclosures.
ghost use Rattle.std.specs.Prelude.{◌≡◌, ◌↔◌, ◌<◌, ◌+◌, ◌*◌, ◌^◌, ◌≤◌, ℕ, length, All, IfOk, OnOk, IsSome, IfSome, OnSome, pos, ◌≤ℤ◌, unsigned_abs};
ghost use Rattle.integer_algebra.specs.Sums.{at};
ghost use Rattle.frac_scaled.specs.Enclosures.{multiple, whole_product};
ghost use Rattle.mat_int.specs.Enclosures.{weighted_gram, gram_magnitude, enclosure_at, HasEnclosures, AllNear, SomeIsFar};
ghost use Rattle.enclosure.specs.Values.{pair};
ghost use Rattle.enclosure.specs.Products.{products_over};
ghost use Rattle.enclosure.specs.Laws.{EnclosesGram};
ghost use Rattle.enclosure.specs.Rows.{AreBegun, IsFarInRow};

use crate::combination::multiple;
use crate::single::{divided, whole_product};
use crate::sum::Sum;
use crate::types::{Enc, EncMat};
use mat_int::Mat;
use mat_products::MatFault;
use std::alloc::{AllocError, Global};

impl EncMat {
    ghost use Rattle.std.specs.Prelude.{◌≡◌, ◌<◌, length, IfOk};
    ghost use Rattle.mat_int.specs.Matrix.{zero_matrix, with_entry};
    ghost use Rattle.mat_int.specs.Enclosures.{enclosure_at};
    ghost use Rattle.enclosure.specs.Values.{pair};

    /// So many rows and columns. Each entry is 0 with radius 0.
    pub fn zero(alloc: Global, rows: usize, cols: usize) -> Result<EncMat, AllocError>
        ensures mid { IfOk result (λ m. m.mid ≡ zero_matrix rows cols) }
        ensures rad { IfOk result (λ m. m.rad ≡ zero_matrix rows cols) }
    {
        Ok(EncMat {
            mid: Mat::zero(alloc, rows, cols)?,
            rad: Mat::zero(alloc, rows, cols)?,
        })
    }

    /// The enclosure in row i and column j.
    pub fn at(&self, i: usize, j: usize) -> Enc
        requires row_in { i < length self.now.mid.rows }
        requires col_in { j < self.now.mid.cols }
        ensures { pair result ≡ enclosure_at self.now.mid self.now.rad i j }
    {
        Enc {
            mid: self.mid.at(i, j),
            rad: self.rad.at(i, j),
        }
    }

    /// Puts `v` there.
    pub fn set(&mut self, i: usize, j: usize, v: Enc)
        requires row_in { i < length self.old.mid.rows }
        requires col_in { j < self.old.mid.cols }
        ensures mid { self.new.mid ≡ with_entry self.old.mid i j v.mid }
        ensures rad { self.new.rad ≡ with_entry self.old.rad i j v.rad }
    {
        self.mid.set(i, j, v.mid);
        self.rad.set(i, j, v.rad);
    }
}

/// The products of the columns, by which it is square: entry jl is the sum of `weights[i] * x_ij * x_il`, over `den`, rounded once. `weights` has
/// a number for each row. Wide where the sum of `weights[i] * (|mid_ij| + rad_ij) * (|mid_il| + rad_il)` of some entry is above `2^126`.
pub fn gram_over(alloc: Global, x: &EncMat, weights: &[i128], den: u128) -> Result<EncMat, MatFault>
    requires shape { length weights.now ≡ length x.now.mid.rows }
    requires signs { All (λ weight. pos 0 ≤ℤ weight) weights.now }
    requires some { 1 ≤ den }
    requires small { den ≤ 2 ^ 126 }
    ensures value { let n = x.now.mid.cols in IfOk result (λ g. HasEnclosures n n
        (products_over den (length weights.now) (at weights.now) (enclosure_at x.now.mid x.now.rad)) g.mid g.rad) }
    ensures near { let n = x.now.mid.cols in
        OnOk result (AllNear n n (gram_magnitude (length weights.now) (at weights.now) (enclosure_at x.now.mid x.now.rad))) }
    ensures wide { let n = x.now.mid.cols in result ≡ Err MatFault.Wide →
        SomeIsFar n n (gram_magnitude (length weights.now) (at weights.now) (enclosure_at x.now.mid x.now.rad)) }
{
    let cols = x.mid.cols();
    let mut made = EncMat::zero(alloc, cols, cols)?;
    for j in 0..cols {
        if gram_row(x, weights, den, j, &mut made).is_none() {
            return Err(MatFault::Wide);
        }
    }
    Ok(made)
}

/// The same over `2^40`, which encloses the products.
pub fn gram(alloc: Global, x: &EncMat, weights: &[i128]) -> Result<EncMat, MatFault>
    requires shape { length weights.now ≡ length x.now.mid.rows }
    requires signs { All (λ weight. pos 0 ≤ℤ weight) weights.now }
    ensures value { let n = x.now.mid.cols in IfOk result (λ g. HasEnclosures n n
        (weighted_gram (length weights.now) (at weights.now) (enclosure_at x.now.mid x.now.rad)) g.mid g.rad) }
    ensures near { let n = x.now.mid.cols in
        OnOk result (AllNear n n (gram_magnitude (length weights.now) (at weights.now) (enclosure_at x.now.mid x.now.rad))) }
    ensures wide { let n = x.now.mid.cols in result ≡ Err MatFault.Wide →
        SomeIsFar n n (gram_magnitude (length weights.now) (at weights.now) (enclosure_at x.now.mid x.now.rad)) }
    ensures encloses { let n = x.now.mid.cols in IfOk result (λ g. (j l : ℕ) → j < n → l < n →
        EnclosesGram (length weights.now) (at weights.now) (enclosure_at x.now.mid x.now.rad) j l (enclosure_at g.mid g.rad j l)) }
{
    gram_over(alloc, x, weights, 1 << 40)
}

// Puts row j into `made`, which has the rows before it. None where the magnitudes of the terms of some entry are together above `2^126`; then its row j
// holds anything.
fn gram_row(x: &EncMat, weights: &[i128], den: u128, j: usize, made: &mut EncMat) -> Option<()>
    requires shape { length weights.now ≡ length x.now.mid.rows }
    requires signs { All (λ weight. pos 0 ≤ℤ weight) weights.now }
    requires some { 1 ≤ den }
    requires small { den ≤ 2 ^ 126 }
    requires row { j < x.now.mid.cols }
    requires begun { AreBegun j 0 x.now.mid.cols
        (products_over den (length weights.now) (at weights.now) (enclosure_at x.now.mid x.now.rad)) made.old.mid made.old.rad }
    ensures made { OnSome result (AreBegun (j + 1) 0 x.now.mid.cols
        (products_over den (length weights.now) (at weights.now) (enclosure_at x.now.mid x.now.rad)) made.new.mid made.new.rad) }
    ensures near { OnSome result ((l : ℕ) → l < x.now.mid.cols →
        gram_magnitude (length weights.now) (at weights.now) (enclosure_at x.now.mid x.now.rad) j l ≤ℤ pos (2 ^ 126)) }
    ensures far { result ≡ None → IsFarInRow x.now.mid.cols
        (gram_magnitude (length weights.now) (at weights.now) (enclosure_at x.now.mid x.now.rad) j) }
{
    for l in 0..x.mid.cols() {
        made.set(j, l, gram_entry(x, weights, den, j, l)?);
    }
    Some(())
}

// The entry in row j and column l. None where the magnitudes of its terms are together above `2^126`.
fn gram_entry(x: &EncMat, weights: &[i128], den: u128, j: usize, l: usize) -> Option<Enc>
    requires shape { length weights.now ≡ length x.now.mid.rows }
    requires signs { All (λ weight. pos 0 ≤ℤ weight) weights.now }
    requires some { 1 ≤ den }
    requires small { den ≤ 2 ^ 126 }
    requires row { j < x.now.mid.cols }
    requires col { l < x.now.mid.cols }
    ensures value { IfSome result (λ e. pair e ≡
        products_over den (length weights.now) (at weights.now) (enclosure_at x.now.mid x.now.rad) j l) }
    ensures room { IsSome result ↔
        (gram_magnitude (length weights.now) (at weights.now) (enclosure_at x.now.mid x.now.rad) j l ≤ℤ pos (2 ^ 126)) }
{
    let mut sum = Sum::zero();
    for (i, weight) in weights.iter().enumerate() {
        sum = sum.more(weighted_product(*weight, x.at(i, j), x.at(i, l))?)?;
    }
    Some(divided(sum.value, den as i128))
}

// `weight * a * b`, over `2^80`. None where what it reaches is above `2^126`.
fn weighted_product(weight: i128, a: Enc, b: Enc) -> Option<Enc>
    ensures value { IfSome result (λ e. pair e ≡ multiple weight (whole_product (pair a) (pair b))) }
    ensures room { IsSome result ↔
        (unsigned_abs weight * ((unsigned_abs a.mid + unsigned_abs a.rad) * (unsigned_abs b.mid + unsigned_abs b.rad)) ≤ 2 ^ 126) }
{
    if weight == 0 {
        return Some(Enc { mid: 0, rad: 0 });
    }
    multiple(weight, whole_product(a, b)?)
}
