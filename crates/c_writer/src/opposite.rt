// Pairs of opposite rows.
ghost use Rattle.std.specs.Prelude.{◌≡◌, ◌<◌, ◌↔◌, pos, ◌+ℤ◌, suc, nat_lt, ◌&&◌, ◌==◌, length, IfOk, IsTrue};
ghost use Rattle.integer_algebra.specs.Sums.{at};
ghost use Rattle.mat_int.specs.Matrix.{row_of};
ghost use Rattle.qp_model.specs.machine.Controller.{numbers};
ghost use Rattle.qp_model.specs.machine.Machine.{exponent_of};
ghost use Rattle.qp_model.specs.machine.AbsoluteSums.{IsController};
ghost use Rattle.overflow_check.specs.FastController.{with_last_version};
ghost use Rattle.c_program.specs.Of.{are_negated, are_opposed, first_opposed, partner, is_first, is_second};
ghost use Rattle.c_writer.specs.Terms.{partners_of};
ghost use Rattle.c_writer.specs.Measured.{controller_in, row_count};

use crate::measured::Measured;
use mat_int::Mat;
use qp_model::ControllerParts;
use std::alloc::{AllocError, Global};

// Whether one number is the other with the other sign.
fn is_negated(x: i128, y: i128) -> bool
    ensures { IsTrue result ↔ (x +ℤ y ≡ pos 0) }
{
    x.checked_add(y) == Some(0)
}

// Whether the numbers of one row are those of the other with the other sign.
fn are_negated(xs: &[i128], ys: &[i128]) -> bool
    requires { length xs.now ≡ length ys.now }
    ensures { result ≡ are_negated (at xs.now) (at ys.now) (length xs.now) }
{
    let mut negated = true;
    for j in 0..xs.len() {
        negated = negated && is_negated(xs[j], ys[j]);
    }
    negated
}

// Whether numbers `k` and `i` of a row are.
fn are_at_negated(row: &[i128], k: usize, i: usize) -> bool
    requires one { k < length row.now }
    requires other { i < length row.now }
    ensures { IsTrue result ↔ (at row.now k +ℤ at row.now i ≡ pos 0) }
{
    is_negated(row[k], row[i])
}

// Whether both are so.
pub fn both(a: bool, b: bool) -> bool
    ensures { result ≡ (a && b) }
{
    a && b
}

// Whether the numbers of column `k` are those of column `i` with the other sign.
fn are_columns_negated(a: &Mat, k: usize, i: usize) -> bool
    requires one { k < a.now.cols }
    requires other { i < a.now.cols }
    ensures { result ≡ are_negated (λ j. at (row_of a.now j) k) (λ j. at (row_of a.now j) i) (length a.now.rows) }
{
    let mut negated = true;
    for j in 0..a.rows() {
        let next = are_at_negated(a.row(j), k, i);
        negated = both(negated, next);
    }
    negated
}

// Whether rows `k` and `i` have one exponent.
fn have_one_exponent(c: &ControllerParts, k: usize, i: usize) -> bool
    requires sound { IsController (with_last_version (numbers c.now)) }
    requires one { k < length c.now.bound.items }
    requires other { i < length c.now.bound.items }
    ensures { result ≡ (exponent_of (numbers c.now) k == exponent_of (numbers c.now) i) }
{
    c.exps[k] == c.exps[i]
}

// Whether rows `k` and `i` are opposite.
fn are_rows_opposite(c: &ControllerParts, k: usize, i: usize) -> bool
    requires sound { IsController (with_last_version (numbers c.now)) }
    requires one { k < length c.now.bound.items }
    requires other { i < length c.now.bound.items }
    ensures { result ≡ are_opposed (numbers c.now) k i }
{
    let exponents = have_one_exponent(c, k, i);
    let rows = are_negated(c.g_mat.row(k), c.g_mat.row(i));
    let columns = are_columns_negated(&c.w_mat, k, i);
    both(both(exponents, rows), columns)
}

// The first of the rows before row `n + 1` that is opposite to row `i`, from that of the rows before row `n`.
fn next_opposed(c: &ControllerParts, first: usize, i: usize, n: usize) -> usize
    requires sound { IsController (with_last_version (numbers c.now)) }
    requires first { first ≡ first_opposed (numbers c.now) i n }
    requires one { n < length c.now.bound.items }
    requires other { i < length c.now.bound.items }
    ensures { result ≡ first_opposed (numbers c.now) i (suc n) }
{
    if first < n {
        first
    } else if are_rows_opposite(c, n, i) {
        n
    } else {
        n + 1
    }
}

// The first row that is opposite to row `i`, and the number of rows where none is.
fn partner_of(c: &ControllerParts, i: usize) -> usize
    requires sound { IsController (with_last_version (numbers c.now)) }
    requires in_range { i < length c.now.bound.items }
    ensures { result ≡ partner (numbers c.now) i }
{
    let mut first = 0;
    for n in 0..c.bound.len() {
        first = next_opposed(c, first, i, n);
    }
    first
}

// Those of all rows.
pub fn partners(alloc: Global, c: &ControllerParts) -> Result<Vec<usize>, AllocError>
    requires { IsController (with_last_version (numbers c.now)) }
    ensures { IfOk result (λ v. v.items ≡ partners_of (numbers c.now)) }
{
    let mut partners = Vec::new(alloc);
    for i in 0..c.bound.len() {
        partners.push(partner_of(c, i))?;
    }
    Ok(partners)
}

// That of row `i`.
pub fn partner_at(from: &Measured, i: usize) -> usize
    requires in_range { i < row_count from.now }
    ensures { result ≡ partner (controller_in from.now) i }
{
    from.partners[i]
}

// Whether one number is below another, and two are equal.
fn is_below(i: usize, k: usize, l: usize) -> bool
    ensures { result ≡ (nat_lt i k && (l == i)) }
{
    i < k && l == i
}

// Whether row `i` is the first one of a pair.
pub fn is_first_at(from: &Measured, i: usize) -> bool
    requires in_range { i < row_count from.now }
    ensures { result ≡ is_first (controller_in from.now) i }
{
    let k = partner_at(from, i);
    if k < from.c.bound.len() {
        is_below(i, k, partner_at(from, k))
    } else {
        false
    }
}

// Whether row `i` is the second one of a pair.
pub fn is_second_at(from: &Measured, i: usize) -> bool
    requires in_range { i < row_count from.now }
    ensures { result ≡ is_second (controller_in from.now) i }
{
    let k = partner_at(from, i);
    if k < i {
        partner_at(from, k) == i
    } else {
        false
    }
}
