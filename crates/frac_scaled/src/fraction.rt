// Fractions.
ghost use Rattle.std.specs.Prelude.{◌≤◌, ◌^◌, pos, ◌*ℤ◌, ◌≤ℤ◌, FitsSigned, unsigned_abs};
ghost use Rattle.std.specs.Int.{w128};
ghost use Rattle.std.specs.Option.{SomeIff};
ghost use Rattle.integer_algebra.specs.Division.{floor_of};

use crate::{floor_div, shift_left};

/// A numerator over a denominator that is at least 1. It isn't reduced, and `==` compares the two numbers.
#[derive(Clone, Copy, Debug, PartialEq, Eq)]
pub struct Frac {
    pub num: i128,
    pub den: i128,
    ghost positive: { pos 1 ≤ℤ den },
}

/// `2^k * num / den`, rounded down: the fraction over `2^k`. None where `2^k * num` doesn't fit.
pub fn floor_scaled(x: &Frac, k: u32) -> Option<i128>
    requires { k ≤ 126 }
    ensures { let scaled = x.now.num *ℤ pos (2 ^ k) in
        SomeIff result (FitsSigned w128 scaled) (floor_of scaled (unsigned_abs x.now.den)) }
{
    Some(floor_div(shift_left(x.num, k)?, x.den))
}
