// Sums of multiples of enclosures.
ghost use Rattle.std.specs.Prelude.{◌≡◌, ◌↔◌, ◌+◌, ◌*◌, ◌^◌, ◌≤◌, length, IsSome, IfSome, pos, ◌≤ℤ◌, unsigned_abs};
ghost use Rattle.integer_algebra.specs.Sums.{at};
ghost use Rattle.frac_scaled.specs.Enclosures.{multiple};
ghost use Rattle.mat_int.specs.Enclosures.{combined, combination_magnitude};
ghost use Rattle.enclosure.specs.Values.{pair, pair_at};
ghost use Rattle.enclosure.specs.Laws.{EnclosesCombination};

use crate::room::magnitude;
use crate::single::divided;
use crate::sum::Sum;
use crate::types::Enc;
use frac_scaled::limited_product;

/// `(coeffs[0] * xs[0] + ..) / den`, with its midpoint rounded to the nearest. None where the sum of `|coeffs[i]| * (|xs[i].mid| + xs[i].rad)` is
/// above `2^126`.
pub fn combine(coeffs: &[i128], xs: &[Enc], den: i128) -> Option<Enc>
    requires lengths { length coeffs.now ≡ length xs.now }
    requires divisor { pos 1 ≤ℤ den }
    ensures value { let n = length xs.now in
        IfSome result (λ e. pair e ≡ combined n (at coeffs.now) (pair_at xs.now) (unsigned_abs den)) }
    ensures room { let n = length xs.now in
        IsSome result ↔ (combination_magnitude n (at coeffs.now) (pair_at xs.now) ≤ℤ pos (2 ^ 126)) }
    ensures encloses { let n = length xs.now in
        IfSome result (λ e. EnclosesCombination n (at coeffs.now) (pair_at xs.now) den (pair e)) }
{
    let mut sum = Sum::zero();
    for (i, x) in xs.iter().enumerate() {
        sum = sum.more(multiple(coeffs[i], *x)?)?;
    }
    Some(divided(sum.value, den))
}

// `c * x`. None where what it reaches is above `2^126`.
pub(crate) fn multiple(c: i128, x: Enc) -> Option<Enc>
    ensures value { IfSome result (λ e. pair e ≡ multiple c (pair x)) }
    ensures room { IsSome result ↔ (unsigned_abs c * (unsigned_abs x.mid + unsigned_abs x.rad) ≤ 2 ^ 126) }
{
    let most = limited_product(c.unsigned_abs(), magnitude(x))?;
    let mid = c * x.mid;
    Some(Enc {
        mid,
        rad: (most - mid.unsigned_abs()) as i128,
    })
}
