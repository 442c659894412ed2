// One enclosure, and what is made of two.
ghost use Rattle.std.specs.Prelude.{◌≡◌, ◌↔◌, ◌^◌, IsTrue, IsSome, IfSome, pos, ◌+ℤ◌, ◌*ℤ◌, ◌≤ℤ◌, unsigned_abs};
ghost use Rattle.integer_algebra.specs.Bounds.{absolute};
ghost use Rattle.frac_scaled.specs.Enclosures.{Encloses, magnitude, inexact, divided, enclosed, sum_of, whole_product, product_of};
ghost use Rattle.enclosure.specs.Values.{pair};
ghost use Rattle.enclosure.specs.Laws.{EnclosesSum, EnclosesProduct};

use crate::room::magnitude;
use crate::types::Enc;
use frac_scaled::{ceil_div, limited_product, limited_sum, round_div, scaled};

// What midpoints and radii are over.
pub(crate) const SCALE: i128 = 1 << 40;

/// `num / den`, with its midpoint rounded to the nearest. None where `2^40 |num|` is above `2^126`.
pub fn enclose(num: i128, den: i128) -> Option<Enc>
    requires { pos 1 ≤ℤ den }
    ensures value { IfSome result (λ e. pair e ≡ enclosed num (unsigned_abs den)) }
    ensures room { IsSome result ↔ ((pos (2 ^ 40) *ℤ absolute num) ≤ℤ pos (2 ^ 126)) }
    ensures encloses { IfSome result (λ e. Encloses (pair e) num den) }
{
    limited_product(1 << 40, num.unsigned_abs())?;
    let mid = scaled(num, 40);
    Some(divided(Enc { mid, rad: 0 }, den))
}

/// The sum. None where the absolute values of both midpoints and both radii are together above `2^126`.
pub fn add(a: Enc, b: Enc) -> Option<Enc>
    ensures value { IfSome result (λ e. pair e ≡ sum_of (pair a) (pair b)) }
    ensures room { IsSome result ↔ ((magnitude (pair a) +ℤ magnitude (pair b)) ≤ℤ pos (2 ^ 126)) }
    ensures encloses { IfSome result (λ e. EnclosesSum (pair a) (pair b) (pair e)) }
{
    limited_sum(magnitude(a), magnitude(b))?;
    Some(Enc {
        mid: a.mid + b.mid,
        rad: a.rad + b.rad,
    })
}

/// The product. None where `(|a.mid| + a.rad) * (|b.mid| + b.rad)` is above `2^126`.
pub fn mul(a: Enc, b: Enc) -> Option<Enc>
    ensures value { IfSome result (λ e. pair e ≡ product_of (pair a) (pair b)) }
    ensures room { IsSome result ↔ ((magnitude (pair a) *ℤ magnitude (pair b)) ≤ℤ pos (2 ^ 126)) }
    ensures encloses { IfSome result (λ e. EnclosesProduct (pair a) (pair b) (pair e)) }
{
    Some(divided(whole_product(a, b)?, SCALE))
}

/// Whether `num / den` is enclosed. None where `2^40 |num| + (|mid| + rad) * den` is above `2^126`.
pub fn contains(a: Enc, num: i128, den: i128) -> Option<bool>
    requires { pos 1 ≤ℤ den }
    ensures value { IfSome result (λ yes. IsTrue yes ↔ Encloses (pair a) num den) }
    ensures room { IsSome result ↔ ((pos (2 ^ 40) *ℤ absolute num +ℤ magnitude (pair a) *ℤ den) ≤ℤ pos (2 ^ 126)) }
{
    let far = limited_product(magnitude(a), den.unsigned_abs())?;
    limited_sum(limited_product(1 << 40, num.unsigned_abs())?, far)?;
    let off = scaled(num, 40) - a.mid * den;
    Some(off.abs() <= a.rad * den)
}

/// `a / den`: the midpoint rounded to the nearest and the radius up, and 1 more where the midpoint was rounded.
pub fn divided(a: Enc, den: i128) -> Enc
    requires divisor { pos 1 ≤ℤ den }
    requires room { magnitude (pair a) ≤ℤ pos (2 ^ 126) }
    ensures { pair result ≡ divided (pair a) (unsigned_abs den) }
{
    Enc {
        mid: round_div(a.mid, den),
        rad: ceil_div(a.rad, den) + inexact(a.mid, den),
    }
}

// 0 where `den` divides `num`, and else 1.
fn inexact(num: i128, den: i128) -> i128
    requires { pos 1 ≤ℤ den }
    ensures { result ≡ inexact num (unsigned_abs den) }
{
    if num % den == 0 { 0 } else { 1 }
}

// The product over `2^80`. None where the product of the operands' magnitudes is above `2^126`.
pub(crate) fn whole_product(a: Enc, b: Enc) -> Option<Enc>
    ensures value { IfSome result (λ e. pair e ≡ whole_product (pair a) (pair b)) }
    ensures room { IsSome result ↔ ((magnitude (pair a) *ℤ magnitude (pair b)) ≤ℤ pos (2 ^ 126)) }
{
    let most = limited_product(magnitude(a), magnitude(b))?;
    let mid = a.mid * b.mid;
    Some(Enc {
        mid,
        rad: (most - mid.unsigned_abs()) as i128,
    })
}
