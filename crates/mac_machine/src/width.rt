// Numbers with room in words of w bits.
ghost use Rattle.std.specs.Prelude.{◌≤◌, ◌^◌, ◌↔◌, pos, ◌+ℤ◌, ◌*ℤ◌, neg_ℤ, IsTrue};
ghost use Rattle.std.specs.Option.{SomeIff};
ghost use Rattle.qp_model.specs.problem.Range.{LiesIn};
ghost use Rattle.qp_model.specs.machine.ValuesMet.{FitsWidth};

use frac_scaled::{add_checked, mul_checked, shift_left};

// Whether a word holds the number.
pub fn has_room(w: u32, z: i128) -> bool
    requires { LiesIn 2 128 w }
    ensures { IsTrue result ↔ FitsWidth w z }
{
    let top = 1u128 << (w - 1);
    if z < 0 {
        z.unsigned_abs() <= top
    } else {
        z.unsigned_abs() < top
    }
}

// The number, where a word holds it.
pub fn roomy(w: u32, z: i128) -> Option<i128>
    requires { LiesIn 2 128 w }
    ensures { SomeIff result (FitsWidth w z) z }
{
    if has_room(w, z) { Some(z) } else { None }
}

// `a + b`, where a word holds it.
pub fn sum(w: u32, a: i128, b: i128) -> Option<i128>
    requires { LiesIn 2 128 w }
    ensures { SomeIff result (FitsWidth w (a +ℤ b)) (a +ℤ b) }
{
    match add_checked(a, b) {
        Some(z) => roomy(w, z),
        None => None,
    }
}

// `a * b`, where a word holds it.
pub fn product(w: u32, a: i128, b: i128) -> Option<i128>
    requires { LiesIn 2 128 w }
    ensures { SomeIff result (FitsWidth w (a *ℤ b)) (a *ℤ b) }
{
    match mul_checked(a, b) {
        Some(z) => roomy(w, z),
        None => None,
    }
}

// `z * 2^k`, where a word holds it.
pub fn raised(w: u32, z: i128, k: u32) -> Option<i128>
    requires width { LiesIn 2 128 w }
    requires bits { k ≤ 126 }
    ensures { SomeIff result (FitsWidth w (z *ℤ pos (2 ^ k))) (z *ℤ pos (2 ^ k)) }
{
    // Most instructions shift by no bit, and the product with a power is the slowest part of one.
    if k == 0 {
        return roomy(w, z);
    }
    match shift_left(z, k) {
        Some(z) => roomy(w, z),
        None => None,
    }
}

// `-z`, where a word holds it.
pub fn negated(w: u32, z: i128) -> Option<i128>
    requires { LiesIn 2 128 w }
    ensures { SomeIff result (FitsWidth w (neg_ℤ z)) (neg_ℤ z) }
{
    match z.checked_neg() {
        Some(z) => roomy(w, z),
        None => None,
    }
}
