// Means and multipliers in words of 64 bits, from the numbers that they are made of, where the absolute values leave room in such a word.
ghost use Rattle.std.specs.Prelude.{◌≡◌, ◌<◌, ◌+◌, ◌*◌, ◌^◌, pos, ◌+ℤ◌, ◌*ℤ◌, unsigned_abs};
ghost use Rattle.std.specs.Int.{int_max, int_min};
ghost use Rattle.integer_algebra.specs.Division.{floor_of};
ghost use Rattle.overflow_check.specs.FastMachine.{step_weight, mean_divisor};
ghost use Rattle.overflow_check.specs.FastController.{most_fast_steps};

// The weight of step `k`.
#[inline(always)]
fn word_weight(k: u32) -> i64
    requires { k < most_fast_steps }
    ensures { result ≡ pos (step_weight k) }
{
    i64::from(k) + 2
}

// What the means of step `k` are divided by.
#[inline(always)]
fn word_divisor(k: u32) -> i64
    requires { k < most_fast_steps }
    ensures { result ≡ pos (mean_divisor k) }
{
    let step = i64::from(k);
    (step + 1) * (step + 4)
}

// `sum + weight * number`, by the weight of step `k`.
#[inline(always)]
pub fn word_added_times(sum: i64, number: i64, k: u32) -> i64
    requires step { k < most_fast_steps }
    requires room { unsigned_abs sum + step_weight k * unsigned_abs number < 2 ^ 63 }
    ensures { result ≡ sum +ℤ pos (step_weight k) *ℤ number }
{
    let times = word_weight(k) * number;
    sum + times
}

// The mean of a multiplier and of what was reached of it, by the weights up to step `k`, rounded down.
#[inline(always)]
pub fn word_mean(multiplier: i64, reached: i64, k: u32) -> i64
    requires step { k < most_fast_steps }
    requires room { unsigned_abs reached + step_weight k * unsigned_abs multiplier < 2 ^ 63 }
    ensures { result ≡ floor_of (reached +ℤ pos (step_weight k) *ℤ multiplier) (mean_divisor k) }
{
    word_added_times(reached, multiplier, k).div_euclid(word_divisor(k))
}

// A multiplier after step `k`, from the one before it, the residual that is used and the greatest of its row.
#[inline(always)]
pub fn word_moved(old: i64, residual: i64, k: u32, top: i64) -> i64
    requires step { k < most_fast_steps }
    requires room { unsigned_abs old + step_weight k * unsigned_abs residual < 2 ^ 63 }
    ensures { result ≡ int_min top (int_max (old +ℤ pos (step_weight k) *ℤ residual) (pos 0)) }
{
    top.min(word_added_times(old, residual, k).max(0))
}
