// One enclosure of a fraction whose numerator may be any.
ghost use Rattle.std.specs.Prelude.{◌≡◌, ◌↔◌, ◌<◌, ◌+◌, ◌-◌, ◌≤◌, ◌^◌, ℤ, IsSome, IfSome, None, pos, ◌+ℤ◌, ◌*ℤ◌, ◌≤ℤ◌, ◌<ℤ◌, unsigned_abs};
ghost use Rattle.integer_algebra.specs.Division.{floor_of, ceil_of, round_of};
ghost use Rattle.frac_scaled.specs.Enclosures.{Encloses, magnitude, inexact, divided, enclosed};
ghost use Rattle.enclosure.specs.Values.{pair};
ghost use Rattle.enclosure.specs.Wide.{IsQuotient};

use crate::room::magnitude;
use crate::types::Enc;
use frac_scaled::{floor_div, limited_sum};

/// `num / den`, with its midpoint rounded to the nearest: what `enclose` gives, wherever that is short, however long `2^40 num` is. None where the
/// midpoint's absolute value and the radius are together above `2^126`.
pub fn enclose_wide(num: i128, den: i128) -> Option<Enc>
    requires { pos 1 ≤ℤ den }
    ensures value { IfSome result (λ e. pair e ≡ enclosed num (unsigned_abs den)) }
    ensures room { IsSome result ↔ (magnitude (enclosed num (unsigned_abs den)) ≤ℤ pos (2 ^ 126)) }
    ensures encloses { IfSome result (λ e. Encloses (pair e) num den) }
{
    let quotient = scaled_quotient(num, den)?;
    let number = Enc {
        mid: rounded(quotient, den),
        rad: left(quotient, den),
    };
    limited_sum(magnitude(number), 0)?;
    Some(number)
}

/// `num / den` within `radius / den`: the midpoint rounded to the nearest and the radius up, and 1 more where the midpoint was rounded. None where the
/// midpoint's absolute value and the radius are together above `2^126`.
pub fn enclose_within(num: i128, radius: i128, den: i128) -> Option<Enc>
    requires divisor { pos 1 ≤ℤ den }
    requires radius { pos 0 ≤ℤ radius }
    ensures value { IfSome result (λ e. pair e ≡ divided (record { mid = pos (2 ^ 40) *ℤ num; rad = pos (2 ^ 40) *ℤ radius }) (unsigned_abs den)) }
    ensures room { IsSome result ↔
        (magnitude (divided (record { mid = pos (2 ^ 40) *ℤ num; rad = pos (2 ^ 40) *ℤ radius }) (unsigned_abs den)) ≤ℤ pos (2 ^ 126)) }
{
    let quotient = scaled_quotient(num, den)?;
    let spread = scaled_quotient(radius, den)?;
    let number = Enc {
        mid: rounded(quotient, den),
        rad: raised(spread, den) + left(quotient, den),
    };
    limited_sum(magnitude(number), 0)?;
    Some(number)
}

// A quotient rounded down, and what is left.
#[derive(Clone, Copy)]
struct Quotient {
    whole: i128,
    rest: i128,
}

// That of twice the number.
fn doubled(quotient: Quotient, den: i128) -> Quotient
    requires low { pos 0 ≤ℤ quotient.rest }
    requires high { quotient.rest <ℤ den }
    requires small { unsigned_abs quotient.whole ≤ 2 ^ 126 - 1 }
    ensures value { (z : ℤ) → IsQuotient z den quotient.whole quotient.rest → IsQuotient (pos 2 *ℤ z) den result.whole result.rest }
    ensures least { (pos 2 *ℤ quotient.whole) ≤ℤ result.whole }
    ensures most { result.whole ≤ℤ (pos 2 *ℤ quotient.whole +ℤ pos 1) }
{
    let room = den - quotient.rest;
    if quotient.rest < room {
        Quotient {
            whole: 2 * quotient.whole,
            rest: 2 * quotient.rest,
        }
    } else {
        Quotient {
            whole: 2 * quotient.whole + 1,
            rest: quotient.rest - room,
        }
    }
}

// `2^40 num / den`. None where `num / den`, rounded down, is further than `2^86`.
fn scaled_quotient(num: i128, den: i128) -> Option<Quotient>
    requires { pos 1 ≤ℤ den }
    ensures value { IfSome result (λ q. IsQuotient (pos (2 ^ 40) *ℤ num) den q.whole q.rest) }
    ensures small { IfSome result (λ q. unsigned_abs q.whole ≤ 2 ^ 126 + 2 ^ 40) }
    ensures far { result ≡ None → 2 ^ 86 < unsigned_abs (floor_of num (unsigned_abs den)) }
{
    let mut quotient = Quotient {
        whole: floor_div(num, den),
        rest: num.rem_euclid(den),
    };
    if quotient.whole.unsigned_abs() > 1 << 86 {
        return None;
    }
    for _step in 0..40u32 {
        quotient = doubled(quotient, den);
    }
    Some(quotient)
}

// The quotient to the nearest, and a tie upward.
fn rounded(quotient: Quotient, den: i128) -> i128
    requires low { pos 0 ≤ℤ quotient.rest }
    requires high { quotient.rest <ℤ den }
    requires small { unsigned_abs quotient.whole ≤ 2 ^ 126 + 2 ^ 40 }
    ensures { (z : ℤ) → IsQuotient z den quotient.whole quotient.rest → result ≡ round_of z (unsigned_abs den) }
{
    if quotient.rest < den - quotient.rest {
        quotient.whole
    } else {
        quotient.whole + 1
    }
}

// 0 where nothing is left, and else 1.
fn left(quotient: Quotient, den: i128) -> i128
    requires low { pos 0 ≤ℤ quotient.rest }
    requires high { quotient.rest <ℤ den }
    ensures value { (z : ℤ) → IsQuotient z den quotient.whole quotient.rest → result ≡ inexact z (unsigned_abs den) }
    ensures nonnegative { pos 0 ≤ℤ result }
    ensures one { result ≤ℤ pos 1 }
{
    if quotient.rest == 0 { 0 } else { 1 }
}

// The quotient rounded up.
fn raised(quotient: Quotient, den: i128) -> i128
    requires low { pos 0 ≤ℤ quotient.rest }
    requires high { quotient.rest <ℤ den }
    requires small { unsigned_abs quotient.whole ≤ 2 ^ 126 + 2 ^ 40 }
    ensures value { (z : ℤ) → IsQuotient z den quotient.whole quotient.rest → result ≡ ceil_of z (unsigned_abs den) }
    ensures small { unsigned_abs result ≤ 2 ^ 126 + 2 ^ 41 }
{
    if quotient.rest == 0 {
        quotient.whole
    } else {
        quotient.whole + 1
    }
}
