// A sum of enclosures, whose terms stay within the limit.
ghost use Rattle.std.specs.Prelude.{◌+◌, ◌^◌, ◌≤◌, unsigned_abs};

use crate::room::magnitude;
use crate::types::Enc;
use frac_scaled::limited_sum;

// The sum so far, and the magnitudes of its terms together.
#[derive(Clone, Copy)]
pub(crate) struct Sum {
    pub(crate) value: Enc,
    pub(crate) magnitude: u128,
    ghost within: { unsigned_abs value.mid + unsigned_abs value.rad ≤ magnitude },
    ghost limited: { magnitude ≤ 2 ^ 126 },
}

impl Sum {
    ghost use Rattle.std.specs.Prelude.{◌≡◌, ◌↔◌, ◌+◌, ◌^◌, ◌≤◌, IsSome, IfSome, pos, unsigned_abs};
    ghost use Rattle.frac_scaled.specs.Enclosures.{sum_of};
    ghost use Rattle.enclosure.specs.Values.{pair};

    // No term.
    pub(crate) fn zero() -> Sum
        ensures value { pair result.value ≡ record { mid = pos 0; rad = pos 0 } }
        ensures magnitude { result.magnitude ≡ 0 }
    {
        Sum {
            value: Enc { mid: 0, rad: 0 },
            magnitude: 0,
        }
    }

    // One term more. None where the terms together are above `2^126`.
    pub(crate) fn more(self, term: Enc) -> Option<Sum>
        ensures value { IfSome result (λ s. pair s.value ≡ sum_of (pair self.value) (pair term)) }
        ensures magnitude { IfSome result (λ s. s.magnitude ≡ self.magnitude + (unsigned_abs term.mid + unsigned_abs term.rad)) }
        ensures room { IsSome result ↔ (self.magnitude + (unsigned_abs term.mid + unsigned_abs term.rad) ≤ 2 ^ 126) }
    {
        let magnitude = limited_sum(self.magnitude, magnitude(term))?;
        Some(Sum {
            value: Enc {
                mid: self.value.mid + term.mid,
                rad: self.value.rad + term.rad,
            },
            magnitude,
        })
    }
}
