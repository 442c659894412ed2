// Sums of numbers with radii, each at its farthest, and sums of the radii.
ghost use Rattle.std.specs.Prelude.{◌≡◌, ℕ, ◌+◌, ◌^◌, ◌<◌, ◌≤◌, length, unsigned_abs};
ghost use Rattle.integer_algebra.specs.Sums.{at};
ghost use Rattle.integer_algebra.specs.Sizes.{size, amount};
ghost use Rattle.mat_int.specs.Enclosures.{AreEnclosures};
ghost use Rattle.mat_int.specs.Matrix.{entry_of};
ghost use Rattle.qp_model.specs.form.Form.{farthest, spread_of};
ghost use Rattle.qp_model.specs.problem.Parts.{design_of};
ghost use Rattle.qp_model.specs.form.Quantities.{greatest};
ghost use Rattle.condensed_form.specs.Form.{IsFormOf, held};
ghost use Rattle.step_error.specs.ErrorSums.{AreRadii, HaveRoom, farthest_entry};

use condensed_form::Condensed;
use mat_int::{Mat, absolute_sum};
use qp_model::DesignParts;

/// The sums of a form's radii.
#[derive(Clone, Copy)]
pub struct Radii {
    /// The greatest sum of the radii of a row of the hessian, over `2^40 * cost_scale`.
    pub h_rad: u128,
    /// The greatest sum of the radii of a row of the linear part, over `2^40 * cost_scale`.
    pub f_rad: u128,
    /// The greatest radius of the constant, over `2^40 * cost_scale`.
    pub o_rad: u128,
    /// The greatest sum of the radii of a column of the limit rows, over `2^40 * row_scale`.
    pub g_col: u128,
    /// The radii of the limit rows over all entries of the plan, added up, over `2^40 * row_scale`.
    pub g_sum: u128,
    /// The radii of the limit rows over all states, added up, over `2^40 * row_scale`.
    pub e_sum: u128,
    /// What the radii of the cost are over, but for `2^40`.
    pub cost_scale: u128,
    /// What the radii of the limit rows are over, but for `2^40`.
    pub row_scale: u128,
    /// What the square of a sum of the error by rounding and that by radii is at most times the square of the first: 2, or 1 without radii.
    pub spread: u128,
}

// Those of a design's form.
pub(crate) fn radii_of(c: &Condensed, parts: &DesignParts) -> Radii
    requires { IsFormOf parts.now c.now }
    ensures radii { AreRadii (design_of parts.now) (held c.now) result }
    ensures room { HaveRoom result }
{
    let row_den = parts.row_den.unsigned_abs();
    Radii {
        h_rad: greatest_row(&c.hess_rad),
        f_rad: greatest_row(&c.lin_rad),
        o_rad: greatest_size(&c.off_rad),
        g_col: greatest_column(&c.g_rad),
        g_sum: matrix_sum(&c.g_rad),
        e_sum: matrix_sum(&c.e_rad),
        cost_scale: parts.cost_den.unsigned_abs() * (row_den * row_den),
        row_scale: parts.limit_den.unsigned_abs(),
        spread: spread(c.fine),
    }
}

// What the square of a sum of the error by rounding and that by radii is at most times the square of the first.
fn spread(fine: bool) -> u128
    ensures { result ≡ spread_of fine }
{
    if fine { 2 } else { 1 }
}

// The greatest absolute value.
fn greatest_size(xs: &[i128]) -> u128
    ensures { result ≡ greatest (length xs.now) (λ j. unsigned_abs (at xs.now j)) }
{
    let mut most = 0u128;
    for x in xs {
        most = most.max(x.unsigned_abs());
    }
    most
}

// The greatest sum of the absolute values of a row.
fn greatest_row(mat: &Mat) -> u128
    requires { (i : ℕ) → i < length mat.now.rows → size mat.now.cols (entry_of mat.now i) ≤ 2 ^ 126 }
    ensures { result ≡ greatest (length mat.now.rows) (λ i. size mat.now.cols (entry_of mat.now i)) }
{
    let mut most = 0u128;
    for i in 0..mat.rows() {
        most = most.max(absolute_sum(mat.row(i)));
    }
    most
}

// The sum of the absolute values of column `j`.
fn column_sum(mat: &Mat, j: usize) -> u128
    requires inside { j < mat.now.cols }
    requires small { size (length mat.now.rows) (λ i. entry_of mat.now i j) ≤ 2 ^ 126 }
    ensures { result ≡ size (length mat.now.rows) (λ i. entry_of mat.now i j) }
{
    let mut sum = 0;
    for i in 0..mat.rows() {
        sum += mat.at(i, j).unsigned_abs();
    }
    sum
}

// The greatest such sum of a column.
fn greatest_column(mat: &Mat) -> u128
    requires { (j : ℕ) → j < mat.now.cols → size (length mat.now.rows) (λ i. entry_of mat.now i j) ≤ 2 ^ 126 }
    ensures { result ≡ greatest mat.now.cols (λ j. size (length mat.now.rows) (λ i. entry_of mat.now i j)) }
{
    let mut most = 0u128;
    for j in 0..mat.cols() {
        most = most.max(column_sum(mat, j));
    }
    most
}

// The absolute values of all entries, added up.
fn matrix_sum(mat: &Mat) -> u128
    requires { amount (length mat.now.rows) (λ i. size mat.now.cols (entry_of mat.now i)) ≤ 2 ^ 126 }
    ensures { result ≡ amount (length mat.now.rows) (λ i. size mat.now.cols (entry_of mat.now i)) }
{
    let mut sum = 0;
    for i in 0..mat.rows() {
        sum += absolute_sum(mat.row(i));
    }
    sum
}

// The numbers of a list with radii, each at its farthest, added up.
pub(crate) fn farthest_list(numbers: &[i128], radii: &[i128]) -> u128
    requires pair { length radii.now ≡ length numbers.now }
    requires small { amount (length numbers.now) (λ j. farthest (at numbers.now j) (unsigned_abs (at radii.now j))) ≤ 2 ^ 126 }
    ensures { result ≡ amount (length numbers.now) (λ j. farthest (at numbers.now j) (unsigned_abs (at radii.now j))) }
{
    absolute_sum(numbers) + absolute_sum(radii)
}

// Those of a matrix.
pub(crate) fn farthest_sum(mat: &Mat, radii: &Mat) -> u128
    requires pair { AreEnclosures mat.now radii.now }
    requires small { amount (length mat.now.rows) (λ i. amount mat.now.cols (farthest_entry mat.now radii.now i)) ≤ 2 ^ 126 }
    ensures { result ≡ amount (length mat.now.rows) (λ i. amount mat.now.cols (farthest_entry mat.now radii.now i)) }
{
    matrix_sum(mat) + matrix_sum(radii)
}

/// The numbers of row `i` of a matrix with radii, each at its farthest, added up.
pub fn farthest_row(mat: &Mat, radii: &Mat, i: usize) -> u128
    requires pair { AreEnclosures mat.now radii.now }
    requires inside { i < length mat.now.rows }
    requires small { amount mat.now.cols (farthest_entry mat.now radii.now i) ≤ 2 ^ 126 }
    ensures { result ≡ amount mat.now.cols (farthest_entry mat.now radii.now i) }
{
    absolute_sum(mat.row(i)) + absolute_sum(radii.row(i))
}

// The entry in row `i` and column `j` of a matrix with radii, at its farthest.
pub(crate) fn farthest_at(mat: &Mat, radii: &Mat, i: usize, j: usize) -> u128
    requires pair { AreEnclosures mat.now radii.now }
    requires row_in { i < length mat.now.rows }
    requires col_in { j < mat.now.cols }
    requires small { farthest_entry mat.now radii.now i j ≤ 2 ^ 126 }
    ensures { result ≡ farthest_entry mat.now radii.now i j }
{
    mat.at(i, j).unsigned_abs() + radii.at(i, j).unsigned_abs()
}

// Those of the diagonal, added up.
pub(crate) fn farthest_diagonal(mat: &Mat, radii: &Mat) -> u128
    requires pair { AreEnclosures mat.now radii.now }
    requires square { mat.now.cols ≡ length mat.now.rows }
    requires small { amount (length mat.now.rows) (λ j. farthest_entry mat.now radii.now j j) ≤ 2 ^ 126 }
    ensures { result ≡ amount (length mat.now.rows) (λ j. farthest_entry mat.now radii.now j j) }
{
    let mut sum = 0;
    for j in 0..mat.rows() {
        sum += farthest_at(mat, radii, j, j);
    }
    sum
}
