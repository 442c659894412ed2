// Whether a controller's factors fit words of 64 bits, and sums of products and shifts that are made by such words where they do.
ghost use Rattle.std.specs.Prelude.{◌≡◌, ◌≤◌, ◌<◌, ◌+◌, ◌^◌, ◌↔◌, IsTrue, All, length, pos, ◌+ℤ◌, ◌*ℤ◌, unsigned_abs, FitsSigned};
ghost use Rattle.std.specs.Int.{w128};
ghost use Rattle.integer_algebra.specs.Division.{floor_of};
ghost use Rattle.mat_int.specs.Row.{list_dot, abs_dot};
ghost use Rattle.mat_products.specs.Narrow.{IsNarrow};
ghost use Rattle.qp_model.specs.machine.Controller.{numbers, IsSized};
ghost use Rattle.overflow_check.specs.FastController.{with_last_version};
ghost use Rattle.fixed_kernel.specs.Factors.{IsNarrowCoordinate, HasNarrowFactors};

use crate::entry::{short_scaled, short_shift};
use mat_int::dot;
use mat_products::{is_narrow_matrix, narrow_dot};
use qp_model::ControllerParts;

// Whether each coordinate of the box is narrow over `2^f`.
fn is_narrow_box(c: &ControllerParts) -> bool
    requires { IsSized (with_last_version (numbers c.now)) }
    ensures { IsTrue result ↔ (All (IsNarrowCoordinate (numbers c.now)) c.now.lo.items × All (IsNarrowCoordinate (numbers c.now)) c.now.hi.items) }
{
    let limit = 1u128 << (63 - (c.f - c.g));
    c.lo.iter().all(|x| x.unsigned_abs() < limit) && c.hi.iter().all(|x| x.unsigned_abs() < limit)
}

// Whether each entry of the matrices is narrow.
fn has_narrow_matrices(c: &ControllerParts) -> bool
    ensures { IsTrue result ↔ (All (All IsNarrow) c.now.p_mat.rows × All (All IsNarrow) c.now.w_mat.rows
        × All (All IsNarrow) c.now.g_mat.rows × All (All IsNarrow) c.now.e_mat.rows) }
{
    is_narrow_matrix(&c.p_mat)
        && is_narrow_matrix(&c.w_mat)
        && is_narrow_matrix(&c.g_mat)
        && is_narrow_matrix(&c.e_mat)
}

/// Whether each factor of the products of a machine's steps fits 64 bits.
pub fn has_narrow_factors(c: &ControllerParts) -> bool
    requires { IsSized (with_last_version (numbers c.now)) }
    ensures { IsTrue result ↔ HasNarrowFactors (numbers c.now) }
{
    c.w <= c.f + c.s + 63
        && c.clamp.unsigned_abs() < 1 << 63
        && is_narrow_box(c)
        && has_narrow_matrices(c)
}

// `start` and the sum of the products of two lists, which are narrow where `narrow` says so.
pub fn sum_of_products(narrow: bool, start: i128, xs: &[i128], ys: &[i128]) -> i128
    requires lengths { length xs.now ≡ length ys.now }
    requires left { IsTrue narrow → All IsNarrow xs.now }
    requires right { IsTrue narrow → All IsNarrow ys.now }
    requires room { unsigned_abs start + abs_dot xs.now ys.now < 2 ^ 127 }
    ensures { result ≡ start +ℤ list_dot xs.now ys.now }
{
    if narrow {
        narrow_dot(start, xs, ys)
    } else {
        start + dot(xs, ys)
    }
}

// `v * 2^k`, which is narrow. A shift of one word by a count that isn't known is one instruction, and one of two words several slow ones.
fn narrow_scaled(v: i128, k: u32) -> i128
    requires bits { k ≤ 62 }
    requires narrow { IsNarrow (v *ℤ pos (2 ^ k)) }
    ensures { result ≡ v *ℤ pos (2 ^ k) }
{
    i128::from(v as i64 * (1 << (k % 64)))
}

// `v / 2^k`, rounded down, of a narrow number.
fn narrow_shift(v: i128, k: u32) -> i128
    requires bits { k ≤ 62 }
    requires narrow { IsNarrow v }
    ensures { result ≡ floor_of v (2 ^ k) }
{
    i128::from(v as i64 >> (k % 64))
}

// `v * 2^k`, which fits, and is narrow where `narrow` says so.
pub fn scaled_by(narrow: bool, v: i128, k: u32) -> i128
    requires bits { k ≤ 62 }
    requires narrow { IsTrue narrow → IsNarrow (v *ℤ pos (2 ^ k)) }
    requires fits { FitsSigned w128 (v *ℤ pos (2 ^ k)) }
    ensures { result ≡ v *ℤ pos (2 ^ k) }
{
    if narrow {
        narrow_scaled(v, k)
    } else {
        short_scaled(v, k)
    }
}

// `v / 2^k`, rounded down, of a number that is narrow where `narrow` says so.
pub fn shifted_by(narrow: bool, v: i128, k: u32) -> i128
    requires bits { k ≤ 62 }
    requires narrow { IsTrue narrow → IsNarrow v }
    ensures { result ≡ floor_of v (2 ^ k) }
{
    if narrow {
        narrow_shift(v, k)
    } else {
        short_shift(v, k)
    }
}
