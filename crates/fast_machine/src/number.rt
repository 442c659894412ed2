// Means, plan entries, residuals and multipliers from the numbers that they are made of.
ghost use Rattle.std.specs.Prelude.{◌≡◌, ◌≤◌, ◌<◌, ◌+◌, ◌*◌, ◌^◌, pos, ◌≤ℤ◌, ◌+ℤ◌, ◌*ℤ◌, ◌-ℤ◌, neg_ℤ, unsigned_abs};
ghost use Rattle.std.specs.Int.{int_max, int_min};
ghost use Rattle.integer_algebra.specs.Division.{floor_of};
ghost use Rattle.overflow_check.specs.FastMachine.{step_weight, mean_divisor};
ghost use Rattle.overflow_check.specs.FastController.{most_fast_steps};

use frac_scaled::{floor_div, floor_shift, scaled};

// The weight of step `k`.
fn weight_of(k: u32) -> i128
    requires { k < most_fast_steps }
    ensures { result ≡ pos (step_weight k) }
{
    let step = i128::from(k);
    step + 2
}

// What the means of step `k` are divided by.
fn divisor_of(k: u32) -> i128
    requires { k < most_fast_steps }
    ensures { result ≡ pos (mean_divisor k) }
{
    let step = i128::from(k);
    (step + 1) * (step + 4)
}

// `sum + weight * number`, by the weight of step `k`.
pub fn added_times(sum: i128, number: i128, k: u32) -> i128
    requires step { k < most_fast_steps }
    requires room { unsigned_abs sum + step_weight k * unsigned_abs number ≤ 2 ^ 126 }
    ensures { result ≡ sum +ℤ pos (step_weight k) *ℤ number }
{
    let times = weight_of(k) * number;
    sum + times
}

// The mean of a multiplier and of what was reached of it, by the weights up to step `k`, rounded down.
pub fn mean_from(multiplier: i128, reached: i128, k: u32) -> i128
    requires step { k < most_fast_steps }
    requires room { unsigned_abs reached + step_weight k * unsigned_abs multiplier ≤ 2 ^ 126 }
    ensures { result ≡ floor_of (reached +ℤ pos (step_weight k) *ℤ multiplier) (mean_divisor k) }
{
    floor_div(added_times(reached, multiplier, k), divisor_of(k))
}

// A plan entry, from the sums of the state's products and of the means', and the offset.
pub fn entry_from(own: i128, offset: i128, dual: i128, f: u32, s: u32) -> i128
    requires f { f ≤ 48 }
    requires s { s ≤ 40 }
    requires room { (unsigned_abs own + unsigned_abs offset * 2 ^ f) * 2 ^ s + unsigned_abs dual ≤ 2 ^ 126 }
    ensures { result ≡ neg_ℤ (floor_of ((own +ℤ offset *ℤ pos (2 ^ f)) *ℤ pos (2 ^ s) +ℤ dual) (2 ^ (f + s))) }
{
    let unscaled = own + scaled(offset, f);
    let sum = scaled(unscaled, s) + dual;
    -floor_shift(sum, f + s)
}

// The residual that is used, from the sums of the plan's products and of the state's, and the bound.
pub fn residual_from(planned: i128, own: i128, bound: i128, f: u32) -> i128
    requires f { f ≤ 48 }
    requires room { unsigned_abs planned + unsigned_abs own + unsigned_abs bound * 2 ^ f ≤ 2 ^ 126 }
    ensures { result ≡ floor_of (planned +ℤ own -ℤ bound *ℤ pos (2 ^ f)) (2 ^ f) }
{
    let products = planned + own;
    let residual = products - scaled(bound, f);
    floor_shift(residual, f)
}

// A multiplier after step `k`, from the one before it, the residual that is used and the greatest of its row.
pub fn moved_from(old: i128, residual: i128, k: u32, top: i128) -> i128
    requires step { k < most_fast_steps }
    requires room { unsigned_abs old + step_weight k * unsigned_abs residual ≤ 2 ^ 126 }
    ensures { result ≡ int_min top (int_max (old +ℤ pos (step_weight k) *ℤ residual) (pos 0)) }
{
    top.min(added_times(old, residual, k).max(0))
}
