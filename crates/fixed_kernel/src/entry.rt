// A plan entry and a multiplier from their sums.
ghost use Rattle.std.specs.Prelude.{◌≡◌, ◌≤◌, ◌<◌, ◌+◌, ◌*◌, ◌^◌, pos, ◌+ℤ◌, ◌*ℤ◌, ◌-ℤ◌, neg_ℤ, unsigned_abs, FitsSigned};
ghost use Rattle.std.specs.Int.{w128, int_max, int_min};
ghost use Rattle.integer_algebra.specs.Division.{floor_of, ceil_div};

use frac_scaled::{floor_shift, scaled};

// `v / 2^k`, rounded down. The remainder is `k`, and tells the compiler that the shift stays within one word.
pub fn short_shift(v: i128, k: u32) -> i128
    requires { k < 64 }
    ensures { result ≡ floor_of v (2 ^ k) }
{
    floor_shift(v, k % 64)
}

// `v * 2^k`, which fits, by a shift that stays within one word too.
pub fn short_scaled(v: i128, k: u32) -> i128
    requires bits { k < 64 }
    requires fits { FitsSigned w128 (v *ℤ pos (2 ^ k)) }
    ensures { result ≡ v *ℤ pos (2 ^ k) }
{
    scaled(v, k % 64)
}

// A plan entry, from the offset and the sum of the state's products and the multipliers', the latter over `2^s` and rounded down. The
// offset is whole over `2^f`, so it leaves the floor, and nothing is scaled.
pub fn entry_from(sum: i128, offset: i128, f: u32) -> i128
    requires f { f < 64 }
    requires fits { unsigned_abs sum + unsigned_abs offset ≤ 2 ^ 126 }
    ensures { result ≡ neg_ℤ (floor_of sum (2 ^ f) +ℤ offset) }
{
    -(short_shift(sum, f) + offset)
}

// A multiplier after the step, from the sum of its row's products, the bound, the multiplier before it and the row's greatest. The bound is
// whole over `2^f`, so it leaves the floor.
pub fn multiplier_from(row: i128, bound: i128, old: i128, top: i128, f: u32) -> i128
    requires f { f < 64 }
    requires row { unsigned_abs row + unsigned_abs bound * 2 ^ f ≤ 2 ^ 126 }
    requires next { unsigned_abs old + ceil_div (unsigned_abs row + unsigned_abs bound * 2 ^ f) (2 ^ f) ≤ 2 ^ 126 }
    ensures { result ≡ int_min top (int_max (old +ℤ floor_of (row -ℤ bound *ℤ pos (2 ^ f)) (2 ^ f)) (pos 0)) }
{
    let moved = short_shift(row, f) - bound;
    top.min((old + moved).max(0))
}
