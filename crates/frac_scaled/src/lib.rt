//! Whole numbers of 128 bits: quotients made whole, the square root, checked sums and products, and fractions.
#![tactic(auto)]

ghost use Rattle.std.specs.Prelude.{◌≡◌, ◌+◌, ◌*◌, ◌≤◌, ◌^◌, pos, ◌+ℤ◌, ◌*ℤ◌, ◌<ℤ◌, ◌≤ℤ◌, FitsSigned, unsigned_abs};
ghost use Rattle.std.specs.Int.{w128, IsIsqrt};
ghost use Rattle.std.specs.Option.{SomeIff};
ghost use Rattle.integer_algebra.specs.Division.{floor_of, ceil_of, round_of, IsFloor};

mod fraction;

pub use fraction::{Frac, floor_scaled};

/// `a * b`, where it is at most `2^126`.
pub fn limited_product(a: u128, b: u128) -> Option<u128>
    ensures { SomeIff result (a * b ≤ 2 ^ 126) (a * b) }
{
    match a.checked_mul(b) {
        Some(product) if product <= 1 << 126 => Some(product),
        _ => None,
    }
}

/// `a + b`, where it is at most `2^126`.
pub fn limited_sum(a: u128, b: u128) -> Option<u128>
    ensures { SomeIff result (a + b ≤ 2 ^ 126) (a + b) }
{
    match a.checked_add(b) {
        Some(sum) if sum <= 1 << 126 => Some(sum),
        _ => None,
    }
}

/// `v / 2^k`, rounded down.
pub fn floor_shift(v: i128, k: u32) -> i128
    requires { k ≤ 126 }
    ensures value { result ≡ floor_of v (2 ^ k) }
    ensures floor { IsFloor v (2 ^ k) result }
{
    v >> k
}

/// `a / b`, rounded down.
pub fn floor_div(a: i128, b: i128) -> i128
    requires { pos 1 ≤ℤ b }
    ensures { result ≡ floor_of a (unsigned_abs b) }
{
    a.div_euclid(b)
}

/// `a / b`, rounded up.
pub fn ceil_div(a: i128, b: i128) -> i128
    requires { pos 1 ≤ℤ b }
    ensures { result ≡ ceil_of a (unsigned_abs b) }
{
    if a <= 0 { a / b } else { (a - 1) / b + 1 }
}

/// `a / b`, rounded to the nearest, and a tie upward.
pub fn round_div(a: i128, b: i128) -> i128
    requires { pos 1 ≤ℤ b }
    ensures { result ≡ round_of a (unsigned_abs b) }
{
    let quotient = floor_div(a, b);
    let rest = a.rem_euclid(b);
    if rest < b - rest {
        quotient
    } else {
        quotient + 1
    }
}

/// The square root of `v`, rounded down.
pub fn isqrt(v: i128) -> i128
    requires { pos 0 ≤ℤ v }
    ensures { IsIsqrt v result }
{
    v.isqrt()
}

/// `v / 2^k`, rounded to the nearest, and a tie upward.
pub fn round_shift(v: i128, k: u32) -> i128
    requires { k ≤ 126 }
    ensures { result ≡ round_of v (2 ^ k) }
{
    if k == 0 {
        return v;
    }
    let half = v >> (k - 1);
    half - (half >> 1)
}

/// `v * 2^k`, which fits.
pub fn scaled(v: i128, k: u32) -> i128
    requires small { k ≤ 126 }
    requires fits { FitsSigned w128 (v *ℤ pos (2 ^ k)) }
    ensures { result ≡ v *ℤ pos (2 ^ k) }
{
    v * (1 << k)
}

/// `a + b`, where it fits.
pub fn add_checked(a: i128, b: i128) -> Option<i128>
    ensures { SomeIff result (FitsSigned w128 (a +ℤ b)) (a +ℤ b) }
{
    a.checked_add(b)
}

/// `a * b`, where it fits.
pub fn mul_checked(a: i128, b: i128) -> Option<i128>
    ensures { SomeIff result (FitsSigned w128 (a *ℤ b)) (a *ℤ b) }
{
    a.checked_mul(b)
}

/// `v * 2^k`, where it fits.
pub fn shift_left(v: i128, k: u32) -> Option<i128>
    requires { k ≤ 126 }
    ensures { SomeIff result (FitsSigned w128 (v *ℤ pos (2 ^ k))) (v *ℤ pos (2 ^ k)) }
{
    v.checked_mul(1 << k)
}
