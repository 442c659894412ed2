// Rows and matrices in words of 64 bits.
ghost use Rattle.std.specs.Prelude.{◌≡◌, ℕ, ◌≤◌, ◌<◌, ◌+◌, ◌^◌, IsTrue, length, pos, ◌+ℤ◌, unsigned_abs, All, FitsSigned, IfOk};
ghost use Rattle.std.specs.Int.{w64};
ghost use Rattle.integer_algebra.specs.Sums.{at};
ghost use Rattle.mat_int.specs.Matrix.{row_of};
ghost use Rattle.mat_int.specs.Row.{list_dot, abs_dot};
ghost use Rattle.mat_products.specs.Narrow.{IsNarrow};
ghost use Rattle.fixed_kernel.specs.WordForm.{IsHalf};

use crate::wordwise::{span_dot, sum_in_words};
use mat_int::Mat;
use std::alloc::{AllocError, Global};
use std::marker::Model;

/// A row, and where the span begins and ends outside of which its numbers are 0.
#[derive(Drop)]
pub struct WordRow {
    numbers: Vec<i64>,
    from: usize,
    to: usize,
}

impl Model for WordRow {
    ghost use Rattle.std.specs.Prelude.{ℤ, List};
    ghost use Rattle.fixed_kernel.specs.WordLines.{IsSpanned};

    ghost Value = { List ℤ };

    ghost view = { λ r. r.numbers.items };

    ghost invariant = { IsSpanned };
}

impl WordRow {
    // The same numbers as a list's, which are narrow.
    fn of(alloc: Global, row: &[i128]) -> Result<WordRow, AllocError>
        requires { All IsNarrow row.now }
        ensures { IfOk result (λ r. r ≡ row.now) }
    {
        let numbers = word_row(alloc, row)?;
        let to = end_of(&numbers);
        let from = start_of(&numbers).min(to);
        Ok(WordRow { numbers, from, to })
    }

    /// A number and the sum of the products with a list of one length, by the span alone where `sparse` says so. The numbers of both fit
    /// half a word where `half` says so.
    #[inline(always)]
    pub fn dot(&self, half: bool, sparse: bool, start: i64, ys: &[i64]) -> i64
        requires lengths { length self.now ≡ length ys.now }
        requires left { IsTrue half → All IsHalf self.now }
        requires right { IsTrue half → All IsHalf ys.now }
        requires room { unsigned_abs start + abs_dot self.now ys.now < 2 ^ 63 }
        ensures { result ≡ start +ℤ list_dot self.now ys.now }
    {
        if sparse {
            span_dot(half, start, &self.numbers, ys, self.from, self.to)
        } else {
            sum_in_words(half, start, &self.numbers, ys)
        }
    }

    // Whether its span is shorter than half of it.
    fn is_sparse(&self) -> bool {
        self.to.saturating_sub(self.from) < self.numbers.len() / 2
    }
}

/// A matrix.
#[derive(Drop)]
pub struct WordMat {
    cols: usize,
    rows: Vec<WordRow>,
}

impl Model for WordMat {
    ghost use Rattle.std.specs.Prelude.{All};
    ghost use Rattle.mat_int.specs.Matrix.{Matrix};
    ghost use Rattle.fixed_kernel.specs.WordLines.{HasColumns};

    ghost Value = { Matrix };

    ghost view = { λ m. record { cols = m.cols; rows = m.rows.items } };

    ghost invariant = { λ m. All (HasColumns m.cols) m.rows.items };
}

impl WordMat {
    /// The same numbers as a matrix's, which are narrow.
    pub fn of(alloc: Global, a: &Mat) -> Result<WordMat, AllocError>
        requires { All (All IsNarrow) a.now.rows }
        ensures { IfOk result (λ m. m ≡ a.now) }
    {
        let cols = a.cols();
        let mut rows = Vec::new(alloc);
        for i in 0..a.rows() {
            rows.push(WordRow::of(alloc, a.row(i))?)?;
        }
        Ok(WordMat { cols, rows })
    }

    /// Row i.
    pub fn row(&self, i: usize) -> &WordRow
        requires { i < length self.now.rows }
        ensures value { result.now ≡ row_of self.now i }
        ensures len { length result.now ≡ self.now.cols }
    {
        &self.rows[i]
    }

    /// Whether most rows have a span shorter than half of them: then products by spans are faster.
    pub fn is_sparse(&self) -> bool {
        self.rows.iter().filter(|row| row.is_sparse()).count() > self.rows.len() / 2
    }
}

// A narrow number, in a word.
pub fn narrowed(x: i128) -> i64
    requires { IsNarrow x }
    ensures { result ≡ x }
{
    x as i64
}

// Narrow numbers, in words.
fn word_row(alloc: Global, row: &[i128]) -> Result<Vec<i64>, AllocError>
    requires { All IsNarrow row.now }
    ensures items { IfOk result (λ line. line.items ≡ row.now) }
    ensures word { IfOk result (λ line. All (FitsSigned w64) line.items) }
{
    let mut line = Vec::with_capacity(alloc, row.len())?;
    for entry in row {
        line.push(narrowed(*entry))?;
    }
    Ok(line)
}

// How many zeros a list begins with.
fn start_of(xs: &[i64]) -> usize
    ensures { (k : ℕ) → k < result → at xs.now k ≡ pos 0 }
{
    for (i, x) in xs.iter().enumerate() {
        if *x != 0 {
            return i;
        }
    }
    xs.len()
}

// How long a list is without the zeros that it ends with.
fn end_of(xs: &[i64]) -> usize
    ensures within { result ≤ length xs.now }
    ensures zeros { (k : ℕ) → result ≤ k → at xs.now k ≡ pos 0 }
{
    let mut end = 0;
    for (i, x) in xs.iter().enumerate() {
        if *x != 0 {
            end = i + 1;
        }
    }
    end
}
