// What the means of the accelerated machine add to the errors of a step, and how often those of the gradient count in a run.
ghost use Rattle.std.specs.Prelude.{◌≡◌, ℕ, ◌+◌, ◌-◌, ◌*◌, ◌^◌, ◌<◌, ◌≤◌, length, slice_index_or};
ghost use Rattle.integer_algebra.specs.Sizes.{amount};
ghost use Rattle.integer_algebra.specs.Division.{ceil_div};
ghost use Rattle.mat_int.specs.Enclosures.{AreEnclosures};
ghost use Rattle.condensed_form.specs.Form.{IsFormOf, held};
ghost use Rattle.qp_model.specs.problem.Parts.{design_of};
ghost use Rattle.step_error.specs.ErrorSums.{farthest_entry};
ghost use Rattle.step_error.specs.CarriedErrors.{carry_of, mean_error, lowered_sum};

use crate::radii::farthest_at;
use condensed_form::Condensed;
use mat_int::Mat;
use qp_model::DesignParts;

/// J: an error of the gradient counts at most so often in a run of `k` steps of the accelerated machine.
pub fn carry_of(k: u32) -> u128
    ensures value { result ≡ carry_of k }
    ensures some { 1 ≤ result }
    ensures few { result ≤ 2 ^ 33 }
{
    let steps = u128::from(k);
    ((steps + 1) * (steps + 5)).div_ceil(3 * (steps + 3))
}

// A sum in whole numbers, and what is left of it over `2^s`.
#[derive(Clone, Copy)]
struct Lowered {
    whole: u128,
    rest: u128,
}

// The sum and `x` over `2^own`.
fn added(sum: Lowered, x: u128, own: u32, s: u32) -> Lowered
    requires row { own ≤ s }
    requires exponent { s ≤ 40 }
    requires whole { sum.whole + x ≤ 2 ^ 126 }
    requires rest { sum.rest ≤ 2 ^ 80 }
    ensures value { 2 ^ s * result.whole + result.rest ≡ 2 ^ s * sum.whole + sum.rest + 2 ^ (s - own) * x }
    ensures whole { result.whole ≤ sum.whole + x }
    ensures rest { result.rest ≤ sum.rest + 2 ^ 40 }
{
    Lowered {
        whole: sum.whole + x / (1 << own),
        rest: sum.rest + (x % (1 << own)) * (1 << (s - own)),
    }
}

// The entries of column `j` of the rows, each over 2 to the power of its row's step exponent.
fn column_sum(rows: &Mat, radii: &Mat, exps: &[u32], s: u32, j: usize) -> Lowered
    requires pair { AreEnclosures rows.now radii.now }
    requires count { length exps.now ≡ length rows.now.rows }
    requires inside { j < rows.now.cols }
    requires exponents { (i : ℕ) → i < length exps.now → slice_index_or exps.now i 0 ≤ s }
    requires exponent { s ≤ 40 }
    requires few { length exps.now ≤ 372 }
    requires small { amount (length exps.now) (λ i. farthest_entry rows.now radii.now i j) ≤ 2 ^ 126 }
    ensures value { 2 ^ s * result.whole + result.rest ≡ lowered_sum (length exps.now) (λ i. farthest_entry rows.now radii.now i j) s exps.now }
    ensures whole { result.whole ≤ 2 ^ 126 }
    ensures rest { result.rest ≤ 2 ^ 49 }
{
    let mut sum = Lowered { whole: 0, rest: 0 };
    for (i, own) in exps.iter().enumerate() {
        sum = added(sum, farthest_at(rows, radii, i, j), *own, s);
    }
    sum
}

/// Rounding the means moves entry `j` of the gradient by at most this over `2^f`, where the rows have these step exponents, up to `s`.
pub fn mean_error(c: &Condensed, parts: &DesignParts, exps: &[u32], s: u32, j: usize) -> u128
    requires form { IsFormOf parts.now c.now }
    requires count { length exps.now ≡ (held c.now).rows }
    requires inside { j < (held c.now).entries }
    requires exponents { (i : ℕ) → i < length exps.now → slice_index_or exps.now i 0 ≤ s }
    requires exponent { s ≤ 40 }
    ensures value { result ≡ mean_error (held c.now) s exps.now j }
    ensures small { result ≤ 2 ^ 127 }
{
    let sum = column_sum(&c.g, &c.g_rad, exps, s, j);
    let over = sum.whole + sum.rest.div_ceil(1 << s);
    over.div_ceil(c.row_den.unsigned_abs())
}
