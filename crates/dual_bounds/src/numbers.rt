// The numbers that follow from a margin.
ghost use Rattle.std.specs.Prelude.{◌≡◌, ℕ, ◌+◌, ◌*◌, ◌^◌, ◌<◌, ◌≤◌, pos, ◌≤ℤ◌, unsigned_abs, IfOk, IfErr, IsErr, ◌↔◌};
ghost use Rattle.std.specs.Result.{OkIff};
ghost use Rattle.qp_model.specs.bounds.Choices.{multiplier_of, multiplier_size_of, step_count, row_violation_bound, violation_bound, undercut_bound};
ghost use Rattle.qp_model.specs.bounds.Choices.{lean_multiplier, lean_multiplier_size, lean_row_violation};
ghost use Rattle.qp_model.specs.declared.quantity.Quantity.TheVariants.{Multiplier};
ghost use Rattle.qp_model.specs.declared.refusal.Refusal.TheVariants.{TooManySteps as too_many};
ghost use Rattle.dual_bounds.specs.FastSteps.{quarter_steps, IsLeastQuarter, IsFastStepCount, fast_multiplier_size};

use frac_scaled::{isqrt, scaled};
use qp_model::{Margin, Quantity, Refusal, Wide};
use std::fmt;
use thiserror::Error;

/// A run would need `k` steps, more than 4194304, or of the accelerated machine more than 65534.
#[derive(Clone, Copy, PartialEq, Eq, Error)]
#[error("too many steps")]
pub struct TooManySteps {
    pub k: i128,
}

// An error type has `Debug`, and nothing here prints by it: to write what `Display` does is proved in half the time of a derived one.
impl fmt::Debug for TooManySteps {
    fn fmt<W: fmt::Write>(&self, f: &mut fmt::Formatter<W>) -> fmt::Result {
        fmt::Display::fmt(self, f)
    }
}

impl From<TooManySteps> for Refusal {
    ghost from_gives = { λ fault e. e ≡ too_many fault.k };

    fn from(fault: TooManySteps) -> Self {
        Refusal::TooManySteps { k: fault.k }
    }
}

/// R, which bounds the multipliers: the greatest cost over the least slack, rounded up, and at least 1.
///
/// # Errors
/// `multiplier` is above `2^126`.
pub fn multiplier(margin: &Margin) -> Result<i128, Wide>
    requires units { pos 1 ≤ℤ margin.now.units }
    requires cost { pos 0 ≤ℤ margin.now.cost }
    ensures value { OkIff result (multiplier_size_of margin.now ≤ 2 ^ 126) (pos (multiplier_of margin.now)) }
    ensures named { IfErr result (λ e. e.0 ≡ Multiplier) }
{
    if margin.cost > 1 << 110 {
        return Err(Wide(Quantity::Multiplier));
    }
    let cost = margin.cost.unsigned_abs() * 65536;
    let units = margin.units.unsigned_abs();
    let bound = cost.div_ceil(units).max(1);
    if bound > 1 << 44 {
        return Err(Wide(Quantity::Multiplier));
    }
    Ok(bound as i128)
}

/// R of a lean controller: the excess of the corners' plans over the sum of their least slack and the violation's target, rounded up, and at least 1.
/// `excess`, `units` and `share` of the target are all over `2^16`.
///
/// # Errors
/// `multiplier` is above `2^126`.
pub fn lean_multiplier(units: i128, excess: i128, share: i128) -> Result<i128, Wide>
    requires units { pos 1 ≤ℤ units }
    requires excess { pos 0 ≤ℤ excess }
    requires share { pos 0 ≤ℤ share }
    ensures value { let size = lean_multiplier_size (unsigned_abs units) (unsigned_abs excess) (unsigned_abs share) in
        OkIff result (size ≤ 2 ^ 126) (pos (lean_multiplier (unsigned_abs units) (unsigned_abs excess) (unsigned_abs share))) }
    ensures named { IfErr result (λ e. e.0 ≡ Multiplier) }
{
    if excess > 1 << 126 {
        return Err(Wide(Quantity::Multiplier));
    }
    let room = units.unsigned_abs() + share.unsigned_abs();
    let bound = excess.unsigned_abs().div_ceil(room).max(1);
    if bound > 1 << 44 {
        return Err(Wide(Quantity::Multiplier));
    }
    Ok(bound as i128)
}

/// The same R of a lean controller of the accelerated machine, whose steps need more room.
///
/// # Errors
/// `multiplier` is above `2^126`.
pub fn fast_multiplier(units: i128, excess: i128, share: i128) -> Result<i128, Wide>
    requires units { pos 1 ≤ℤ units }
    requires excess { pos 0 ≤ℤ excess }
    requires share { pos 0 ≤ℤ share }
    ensures value { let size = fast_multiplier_size (unsigned_abs units) (unsigned_abs excess) (unsigned_abs share) in
        OkIff result (size ≤ 2 ^ 126) (pos (lean_multiplier (unsigned_abs units) (unsigned_abs excess) (unsigned_abs share))) }
    ensures named { IfErr result (λ e. e.0 ≡ Multiplier) }
{
    let bound = lean_multiplier(units, excess, share)?;
    if bound > 1 << 42 {
        return Err(Wide(Quantity::Multiplier));
    }
    Ok(bound)
}

/// K, the steps of a run: `2^(s+41) r / step_target`, rounded up, for the step exponent `s`, the multiplier bound `r` and the steps' share of
/// the violation's target over `2^40`.
///
/// # Errors
/// K is above 4194304.
pub fn steps(s: u32, r: i128, step_target: i128) -> Result<u32, TooManySteps>
    requires exponent { s ≤ 40 }
    requires some { pos 1 ≤ℤ r }
    requires narrow { r ≤ℤ pos (2 ^ 44) }
    requires target { pos 1 ≤ℤ step_target }
    ensures value { OkIff result (step_count s (unsigned_abs r) (unsigned_abs step_target) ≤ 2 ^ 22)
        (step_count s (unsigned_abs r) (unsigned_abs step_target)) }
    ensures told { IfErr result (λ e. e.k ≡ pos (step_count s (unsigned_abs r) (unsigned_abs step_target))) }
{
    let target = step_target.unsigned_abs();
    let count = whole(s + 41, r).div_ceil(target);
    if count > 1 << 22 {
        return Err(TooManySteps { k: count as i128 });
    }
    Ok(count as u32)
}

// The least k from 1 on with `k (k + 3)` at least `n`: one less than the root of `n`, or that.
fn least_quarter(n: i128) -> i128
    requires some { pos 1 ≤ℤ n }
    requires small { n ≤ℤ pos (2 ^ 125) }
    ensures { (result ≡ pos (unsigned_abs result)) × IsLeastQuarter (unsigned_abs n) (unsigned_abs result) }
{
    let root = isqrt(n);
    if (root - 1) * (root + 2) >= n {
        root - 1
    } else {
        root
    }
}

/// K, the steps of a run of the accelerated machine: the least number from 1 on with `K (K + 3)` at least `2^(s+43) r / step_target`, for the step
/// exponent `s`, the multiplier bound `r` and the steps' share of the violation's target over `2^40`.
///
/// # Errors
/// K is above 65534.
pub fn fast_steps(s: u32, r: i128, step_target: i128) -> Result<u32, TooManySteps>
    requires exponent { s ≤ 40 }
    requires some { pos 1 ≤ℤ r }
    requires narrow { r ≤ℤ pos (2 ^ 42) }
    requires target { pos 1 ≤ℤ step_target }
    ensures value { IfOk result (IsFastStepCount s (unsigned_abs r) (unsigned_abs step_target)) }
    ensures few { IfOk result (λ k. k ≤ 65534) }
    ensures many { IsErr result ↔ (quarter_steps 65534 < step_count (s + 2) (unsigned_abs r) (unsigned_abs step_target)) }
    ensures told { IfErr result (λ e. (e.k ≡ pos (unsigned_abs e.k)) ×
        IsFastStepCount s (unsigned_abs r) (unsigned_abs step_target) (unsigned_abs e.k)) }
{
    let target = step_target.unsigned_abs();
    let count = whole(s + 43, r).div_ceil(target);
    let k = least_quarter(count as i128);
    if k > 65534 {
        return Err(TooManySteps { k });
    }
    Ok(k as u32)
}

/// By how much a plan exceeds any row at most, over `2^40`: after `k` steps with the step exponent `s`, the multiplier bound `r` and the
/// errors `eps` over `2^40`.
pub fn violation(s: u32, r: i128, k: u32, eps: i128) -> i128
    requires exponent { s ≤ 42 }
    requires some { pos 1 ≤ℤ r }
    requires narrow { 2 ^ s * unsigned_abs r ≤ 2 ^ 84 }
    requires steps { 1 ≤ k }
    requires errors { pos 0 ≤ℤ eps }
    requires small { eps ≤ℤ pos (2 ^ 114) }
    ensures { result ≡ pos (violation_bound s (unsigned_abs r) k (unsigned_abs eps)) }
{
    row_violation(s, s, r, k, eps)
}

/// By how much a plan exceeds a row with the step exponent `si` at most, over `2^40`: after `k` steps with the greatest step exponent `s` of all
/// rows, the multiplier bound `r` and the errors `eps` over `2^40`.
pub fn row_violation(si: u32, s: u32, r: i128, k: u32, eps: i128) -> i128
    requires row { si ≤ s }
    requires exponent { s ≤ 42 }
    requires some { pos 1 ≤ℤ r }
    requires narrow { 2 ^ s * unsigned_abs r ≤ 2 ^ 84 }
    requires steps { 1 ≤ k }
    requires errors { pos 0 ≤ℤ eps }
    requires small { eps ≤ℤ pos (2 ^ 114) }
    ensures { result ≡ pos (row_violation_bound si s (unsigned_abs r) k (unsigned_abs eps)) }
{
    let of_steps = (whole(si + 40, r) + whole(s + 40, r)).div_ceil(u128::from(k));
    let bound = r.unsigned_abs();
    let of_errors = eps.unsigned_abs().div_ceil(bound);
    (of_steps + of_errors) as i128
}

/// By how much a plan of a lean controller exceeds a row with the step exponent `e` at most, over `2^40`: after `k` steps, with the multiplier bound `r`,
/// the errors `eps` and the violation's target `threshold`, both over `2^40`, where steps and errors leave no more than that.
pub fn lean_row_violation(e: u32, r: i128, k: u32, eps: i128, threshold: i128) -> i128
    requires exponent { e ≤ 42 }
    requires some { pos 1 ≤ℤ r }
    requires narrow { 2 ^ e * unsigned_abs r ≤ 2 ^ 84 }
    requires steps { 1 ≤ k }
    requires errors { pos 0 ≤ℤ eps }
    requires small { eps ≤ℤ pos (2 ^ 114) }
    requires target { pos 0 ≤ℤ threshold }
    ensures { result ≡ pos (lean_row_violation e (unsigned_abs r) k (unsigned_abs eps) (unsigned_abs threshold)) }
{
    let target = threshold.unsigned_abs();
    let of_steps = whole(e + 40, r).div_ceil(u128::from(k));
    let of_errors = eps.unsigned_abs().div_ceil(2 * r.unsigned_abs());
    let most = target.div_ceil(2) + of_steps + of_errors;
    most.min(target) as i128
}

/// How much more than a plan that exceeds each row by at most `violation` some feasible plan costs at most, over `2^40`.
pub fn undercut(r: i128, violation: i128) -> i128
    requires some { pos 1 ≤ℤ r }
    requires rows { pos 0 ≤ℤ violation }
    requires fits { unsigned_abs r * unsigned_abs violation ≤ 2 ^ 126 }
    ensures { result ≡ pos (undercut_bound (unsigned_abs r) (unsigned_abs violation)) }
{
    r * violation
}

// `2^e r`.
fn whole(e: u32, r: i128) -> u128
    requires exponent { e ≤ 83 }
    requires some { pos 1 ≤ℤ r }
    requires fits { 2 ^ e * unsigned_abs r ≤ 2 ^ 125 }
    ensures value { result ≡ 2 ^ e * unsigned_abs r }
    ensures small { result ≤ 2 ^ 125 }
{
    scaled(r, e).unsigned_abs()
}
