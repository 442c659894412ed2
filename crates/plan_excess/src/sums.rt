// What the entries of a corner's plans add together.
ghost use Rattle.std.specs.Prelude.{◌+◌, ◌^◌, ◌≤◌, unsigned_abs};

use crate::slope::Slope;
use enclosure::magnitude;
use frac_scaled::{ceil_div, limited_product, limited_sum, scaled};

/// The rises, over `2^40`, the magnitudes of the slopes, which bound these, and the squares of the steepnesses, over `2^48`.
#[derive(Clone, Copy)]
pub(crate) struct Sums {
    pub(crate) rise: i128,
    pub(crate) reach: u128,
    pub(crate) squares: u128,
    ghost within: { unsigned_abs rise ≤ reach },
    ghost limited: { reach ≤ 2 ^ 126 },
    ghost few: { squares ≤ 2 ^ 126 },
}

impl Sums {
    ghost use Rattle.std.specs.Prelude.{◌≡◌, ◌↔◌, ℕ, ◌+◌, ◌*◌, ◌^◌, ◌≤◌, max, pos, ◌≤ℤ◌, ◌+ℤ◌, ◌*ℤ◌, unsigned_abs, IsSome, IfSome};
    ghost use Rattle.integer_algebra.specs.Division.{ceil_of};

    // Those of none.
    pub(crate) fn zero() -> Sums
        ensures { (result.rise ≡ pos 0) × (result.reach ≡ 0) × (result.squares ≡ 0) }
    {
        Sums {
            rise: 0,
            reach: 0,
            squares: 0,
        }
    }

    // With one more. None where the magnitudes, or the squares, are together above `2^126`.
    pub(crate) fn more(self, slope: Slope) -> Option<Sums>
        ensures rise { IfSome result (λ s. s.rise ≡ self.rise +ℤ slope.value.mid +ℤ slope.value.rad) }
        ensures reach { IfSome result (λ s. s.reach ≡ self.reach + (unsigned_abs slope.value.mid + unsigned_abs slope.value.rad)) }
        ensures squares { IfSome result (λ s. s.squares ≡ self.squares + slope.steepness * slope.steepness) }
        ensures room { IsSome result ↔ (max (self.reach + (unsigned_abs slope.value.mid + unsigned_abs slope.value.rad))
            (self.squares + slope.steepness * slope.steepness) ≤ 2 ^ 126) }
    {
        let reach = limited_sum(self.reach, magnitude(slope.value))?;
        let square = limited_product(slope.steepness, slope.steepness)?;
        let squares = limited_sum(self.squares, square)?;
        Some(Sums {
            rise: self.rise + slope.value.mid + slope.value.rad,
            reach,
            squares,
        })
    }

    // By how much more than any plan the corner's plan costs at most, over `2^16`. None where the squares times `weight_den` are above `2^126`.
    // `input_floor` is the least input weight, over `weight_den`.
    pub(crate) fn excess(self, weight_den: i128, input_floor: i128) -> Option<i128>
        requires weight { pos 1 ≤ℤ weight_den }
        requires some { pos 1 ≤ℤ input_floor }
        requires floor { input_floor ≤ℤ pos (2 ^ 31) }
        ensures value { IfSome result (λ x. x ≡ ceil_of self.rise (2 ^ 25) +ℤ
            ceil_of (weight_den *ℤ pos self.squares) (2 ^ 34 * unsigned_abs input_floor)) }
        ensures small { IfSome result (λ x. unsigned_abs x ≤ 2 ^ 126) }
        ensures room { IsSome result ↔ (unsigned_abs weight_den * self.squares ≤ 2 ^ 126) }
    {
        let pull = limited_product(weight_den.unsigned_abs(), self.squares)?;
        let over = scaled(input_floor, 34);
        let above_reference = ceil_div(self.rise, 1 << 25);
        let above_best = ceil_div(pull as i128, over);
        Some(above_reference + above_best)
    }
}
