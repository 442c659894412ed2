// Which rows and coordinates of the state reach an output.
ghost use Rattle.std.specs.Prelude.{◌≡◌, ◌<◌, ◌||◌, length};
ghost use Rattle.integer_algebra.specs.Sums.{at};
ghost use Rattle.mat_int.specs.Matrix.{row_of};
ghost use Rattle.qp_model.specs.machine.Controller.{numbers};
ghost use Rattle.qp_model.specs.machine.AbsoluteSums.{IsController};
ghost use Rattle.overflow_check.specs.FastController.{with_last_version};
ghost use Rattle.c_program.specs.Of.{any_below, is_product, is_row_needed, is_coordinate_needed, is_entry_needed};
ghost use Rattle.c_writer.specs.Terms.{reaches_row};
ghost use Rattle.c_writer.specs.Measured.{controller_in, row_count, entry_count};

use crate::measured::Measured;
use crate::opposite::both;
use crate::tops::multiplier_top;
use mat_int::Mat;
use qp_model::ControllerParts;

// Whether a product with a number of at most this absolute value isn't always 0.
fn is_product(c: i128, top: u128) -> bool
    ensures { result ≡ is_product c top }
{
    c != 0 && top != 0
}

// Whether one of both is so.
pub fn either(a: bool, b: bool) -> bool
    ensures { result ≡ (a || b) }
{
    a || b
}

// Whether number `k` of row `j` makes such a product.
fn has_product(a: &Mat, j: usize, k: usize, top: u128) -> bool
    requires row { j < length a.now.rows }
    requires column { k < a.now.cols }
    ensures { result ≡ is_product (at (row_of a.now j) k) top }
{
    let row = a.row(j);
    is_product(row[k], top)
}

// Whether a number of column `k` does.
fn has_column_product(a: &Mat, k: usize, top: u128) -> bool
    requires { k < a.now.cols }
    ensures { result ≡ any_below (λ j. is_product (at (row_of a.now j) k) top) (length a.now.rows) }
{
    let mut found = false;
    for j in 0..a.rows() {
        let next = has_product(a, j, k, top);
        found = either(found, next);
    }
    found
}

// Whether multiplier `i` reaches a plan entry.
pub fn is_row_needed_at(c: &ControllerParts, i: usize) -> bool
    requires sound { IsController (with_last_version (numbers c.now)) }
    requires in_range { i < length c.now.bound.items }
    ensures { result ≡ is_row_needed (numbers c.now) i }
{
    has_column_product(&c.w_mat, i, multiplier_top(c, i))
}

// Whether any row is needed.
pub fn is_any_row_needed(from: &Measured) -> bool
    ensures { result ≡ any_below (is_row_needed (controller_in from.now)) (row_count from.now) }
{
    let mut found = false;
    for i in 0..from.c.bound.len() {
        let next = is_row_needed_at(from.c, i);
        found = either(found, next);
    }
    found
}

// Whether number `k` of row `i` of a matrix makes such a product with a variable of at most this absolute value, and that row is needed.
fn is_in_needed_row(c: &ControllerParts, a: &Mat, i: usize, k: usize, top: u128) -> bool
    requires sound { IsController (with_last_version (numbers c.now)) }
    requires rows { length a.now.rows ≡ length c.now.bound.items }
    requires row { i < length c.now.bound.items }
    requires column { k < a.now.cols }
    ensures { result ≡ reaches_row (numbers c.now) a.now k top i }
{
    let needed = is_row_needed_at(c, i);
    let product = has_product(a, i, k, top);
    both(needed, product)
}

// Whether it does so for any row.
fn is_in_needed_rows(c: &ControllerParts, a: &Mat, k: usize, top: u128) -> bool
    requires sound { IsController (with_last_version (numbers c.now)) }
    requires rows { length a.now.rows ≡ length c.now.bound.items }
    requires column { k < a.now.cols }
    ensures { result ≡ any_below (λ i. reaches_row (numbers c.now) a.now k top i) (length c.now.bound.items) }
{
    let mut found = false;
    for i in 0..c.bound.len() {
        let next = is_in_needed_row(c, a, i, k, top);
        found = either(found, next);
    }
    found
}

// Whether coordinate `k` of the state reaches the base of a plan entry, or that of a row that is needed.
pub fn is_coordinate_needed_at(from: &Measured, k: usize) -> bool
    requires in_range { k < length from.now.states.now }
    ensures { result ≡ is_coordinate_needed (controller_in from.now) k }
{
    let top = from.states[k];
    let entry = has_column_product(&from.c.p_mat, k, top);
    let row = is_in_needed_rows(from.c, &from.c.e_mat, k, top);
    either(entry, row)
}

// Whether plan entry `j` reaches a row that is needed.
pub fn is_entry_needed_at(from: &Measured, j: usize) -> bool
    requires in_range { j < entry_count from.now }
    ensures { result ≡ is_entry_needed (controller_in from.now) j }
{
    is_in_needed_rows(from.c, &from.c.g_mat, j, from.plan[j])
}
