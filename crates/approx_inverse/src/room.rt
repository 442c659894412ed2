// Whether the numbers of a descent fit. None stands for a number above `2^126`.
ghost use Rattle.std.specs.Prelude.{ℕ, ℤ, pos, ◌≡◌, ◌↔◌, ◌<◌, ◌≤◌, ◌+◌, ◌*◌, ◌^◌, ◌≤ℤ◌, unsigned_abs, length, IsTrue};
ghost use Rattle.std.specs.Option.{SomeIff};
ghost use Rattle.integer_algebra.specs.Sums.{at};
ghost use Rattle.integer_algebra.specs.Sizes.{size};
ghost use Rattle.integer_algebra.specs.Division.{ceil_div};
ghost use Rattle.mat_int.specs.Matrix.{entry_of};
ghost use Rattle.approx_inverse.specs.DescentSize.{greatest_row, descent_sum, descent_of_column};

use frac_scaled::{limited_product, limited_sum};
use mat_int::Mat;

// The sum of the absolute values.
fn abs_sum(xs: &[i128]) -> Option<u128>
    ensures { SomeIff result (size (length xs.now) (at xs.now) ≤ 2 ^ 126) (size (length xs.now) (at xs.now)) }
{
    let mut sum = 0;
    for (i, x) in xs.iter().enumerate() {
        sum = limited_sum(sum, x.unsigned_abs())?;
    }
    Some(sum)
}

// The greatest absolute sum of a row.
fn greatest_row(h: &Mat) -> Option<u128>
    ensures { SomeIff result (greatest_row (length h.now.rows) h.now.cols (entry_of h.now) ≤ 2 ^ 126)
        (greatest_row (length h.now.rows) h.now.cols (entry_of h.now)) }
{
    let mut greatest = 0u128;
    for i in 0..h.rows() {
        greatest = greatest.max(abs_sum(h.row(i))?);
    }
    Some(greatest)
}

// 2 row (⌈power sum / floor⌉ + 1) + power sum
fn descent_sum(row: u128, sum: u128, floor: u128, power: u128) -> Option<u128>
    requires row_small { row ≤ 2 ^ 126 }
    requires floor_one { 1 ≤ floor }
    requires floor_small { floor ≤ 2 ^ 127 }
    ensures { SomeIff result (2 * row * (ceil_div (power * sum) floor + 1) + power * sum ≤ 2 ^ 126)
        (2 * row * (ceil_div (power * sum) floor + 1) + power * sum) }
{
    let aimed = limited_product(power, sum)?;
    let bound = (aimed + (floor - 1)) / floor + 1;
    limited_sum(limited_product(2 * row, bound)?, aimed)
}

// The quantity of a matrix and a column.
fn descent_of(h: &Mat, c: &[i128], floor: i128, f: u32) -> Option<u128>
    requires rows { length h.now.rows ≡ length c.now }
    requires cols { h.now.cols ≡ length c.now }
    requires floor_one { pos 1 ≤ℤ floor }
    requires bits { f ≤ 48 }
    ensures { SomeIff result (descent_of_column (length c.now) (entry_of h.now) (at c.now) floor f ≤ 2 ^ 126)
        (descent_of_column (length c.now) (entry_of h.now) (at c.now) floor f) }
{
    let row = greatest_row(h)?;
    let sum = abs_sum(c)?;
    descent_sum(row, sum, floor.unsigned_abs(), 1 << (f + 1))
}

/// Whether the quantity of a matrix and a column is at most `2^126`.
pub fn has_room(h: &Mat, c: &[i128], floor: i128, f: u32) -> bool
    requires rows { length h.now.rows ≡ length c.now }
    requires cols { h.now.cols ≡ length c.now }
    requires floor_one { pos 1 ≤ℤ floor }
    requires bits { f ≤ 48 }
    ensures { IsTrue result ↔ (descent_of_column (length c.now) (entry_of h.now) (at c.now) floor f ≤ 2 ^ 126) }
{
    descent_of(h, c, floor, f).is_some()
}
