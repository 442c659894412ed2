// Numbers with the absolute sums that they are made of. None stands for a sum above `2^126`.
ghost use Rattle.std.specs.Prelude.{◌≤◌, unsigned_abs};

use frac_scaled::{floor_div, floor_shift, limited_product, limited_sum};

// A number, and what bounds its absolute value.
#[derive(Clone, Copy)]
pub(crate) struct Counted {
    pub(crate) value: i128,
    pub(crate) size: u128,
    ghost within: { unsigned_abs value ≤ size },
}

impl Counted {
    ghost use Rattle.std.specs.Prelude.{◌≡◌, ◌↔◌, ◌+◌, ◌*◌, ◌^◌, ◌≤◌, ◌+ℤ◌, ◌-ℤ◌, ◌*ℤ◌, ◌≤ℤ◌, pos, max, IsSome, IfSome, unsigned_abs};
    ghost use Rattle.std.specs.Int.{int_max};
    ghost use Rattle.integer_algebra.specs.Division.{floor_of};

    // A number alone.
    pub(crate) fn of(value: i128) -> Counted
        ensures value { result.value ≡ value }
        ensures size { result.size ≡ unsigned_abs value }
    {
        Counted {
            value,
            size: value.unsigned_abs(),
        }
    }

    // The product.
    pub(crate) fn times(self, by: Counted) -> Option<Counted>
        ensures value { IfSome result (λ a. a.value ≡ self.value *ℤ by.value) }
        ensures size { IfSome result (λ a. a.size ≡ self.size * by.size) }
        ensures room { IsSome result ↔ (self.size * by.size ≤ 2 ^ 126) }
    {
        let size = limited_product(self.size, by.size)?;
        Some(Counted {
            value: self.value * by.value,
            size,
        })
    }

    // The product with a number, which counts as at least 1.
    pub(crate) fn scaled(self, by: i128) -> Option<Counted>
        ensures value { IfSome result (λ a. a.value ≡ self.value *ℤ by) }
        ensures size { IfSome result (λ a. a.size ≡ self.size * max (unsigned_abs by) 1) }
        ensures room { IsSome result ↔ (self.size * max (unsigned_abs by) 1 ≤ 2 ^ 126) }
    {
        let size = limited_product(self.size, by.unsigned_abs().max(1))?;
        Some(Counted {
            value: self.value * by,
            size,
        })
    }

    // The sum.
    pub(crate) fn plus(self, more: Counted) -> Option<Counted>
        ensures value { IfSome result (λ a. a.value ≡ self.value +ℤ more.value) }
        ensures size { IfSome result (λ a. a.size ≡ self.size + more.size) }
        ensures room { IsSome result ↔ (self.size + more.size ≤ 2 ^ 126) }
    {
        let size = limited_sum(self.size, more.size)?;
        Some(Counted {
            value: self.value + more.value,
            size,
        })
    }

    // The difference.
    pub(crate) fn less(self, taken: Counted) -> Option<Counted>
        ensures value { IfSome result (λ a. a.value ≡ self.value -ℤ taken.value) }
        ensures size { IfSome result (λ a. a.size ≡ self.size + taken.size) }
        ensures room { IsSome result ↔ (self.size + taken.size ≤ 2 ^ 126) }
    {
        let size = limited_sum(self.size, taken.size)?;
        Some(Counted {
            value: self.value - taken.value,
            size,
        })
    }

    // The greatest of the products with the numbers from `low` to `high`.
    pub(crate) fn greatest_over(self, low: i128, high: i128) -> Option<Counted>
        ensures value { IfSome result (λ a. a.value ≡ int_max (self.value *ℤ low) (self.value *ℤ high)) }
        ensures size { IfSome result (λ a. a.size ≡ self.size * max (max (unsigned_abs low) (unsigned_abs high)) 1) }
        ensures room { IsSome result ↔ (self.size * max (max (unsigned_abs low) (unsigned_abs high)) 1 ≤ 2 ^ 126) }
    {
        let most = low.unsigned_abs().max(high.unsigned_abs()).max(1);
        let size = limited_product(self.size, most)?;
        Some(Counted {
            value: (self.value * low).max(self.value * high),
            size,
        })
    }

    // The greatest of the products with the numbers from 0 to 1, each less `by`.
    pub(crate) fn greatest_less(self, by: i128) -> Option<Counted>
        ensures value { IfSome result (λ a. a.value ≡ int_max self.value (pos 0) -ℤ self.value *ℤ by) }
        ensures size { IfSome result (λ a. a.size ≡ self.size * (unsigned_abs by + 1)) }
        ensures room { IsSome result ↔ (self.size * (unsigned_abs by + 1) ≤ 2 ^ 126) }
    {
        let size = limited_product(self.size, by.unsigned_abs() + 1)?;
        Some(Counted {
            value: self.value.max(0) - self.value * by,
            size,
        })
    }

    // The quotient by a number from 1, rounded down.
    pub(crate) fn floored(self, by: i128) -> Counted
        requires { pos 1 ≤ℤ by }
        ensures value { result.value ≡ floor_of self.value (unsigned_abs by) }
        ensures size { result.size ≡ self.size }
    {
        Counted {
            value: floor_div(self.value, by),
            size: self.size,
        }
    }

    // The quotient by `2^bits`, rounded down, alone.
    pub(crate) fn over_power(self, bits: u32) -> i128
        requires bits { bits ≤ 126 }
        ensures value { result ≡ floor_of self.value (2 ^ bits) }
        ensures within { unsigned_abs result ≤ self.size }
    {
        floor_shift(self.value, bits)
    }
}
