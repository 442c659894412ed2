// Lists of enclosures as numbers: slacks, gaps, and what the enclosures reach; and lists of numbers: weighted squares, and the first that is too small.
ghost use Rattle.std.specs.Prelude.{◌≡◌, ℕ, ◌≤◌, ◌<◌, ◌*◌, ◌%◌, ◌^◌, pos, ◌+ℤ◌, ◌-ℤ◌, ◌*ℤ◌, ◌≤ℤ◌, ◌<ℤ◌, length, IfOk, MatchOption, unsigned_abs};
ghost use Rattle.integer_algebra.specs.Bounds.{absolute};
ghost use Rattle.integer_algebra.specs.Sums.{at, total, square};
ghost use Rattle.frac_scaled.specs.Enclosures.{magnitude};
ghost use Rattle.enclosure.specs.Values.{pair, pair_at};
ghost use Rattle.qp_model.specs.problem.Design.{entries};
ghost use Rattle.qp_model.specs.problem.Parts.{design_of, IsDesign};
ghost use Rattle.qp_model.specs.problem.Runs.{Holds};
ghost use Rattle.corner_margin.specs.Simulation.{SquaresFit};

use enclosure::Enc;
use frac_scaled::scaled;
use qp_model::DesignParts;
use std::alloc::{AllocError, Global};

// By how much a value stays below its bound at least.
fn slack(bound: i128, value: Enc) -> i128
    requires { (absolute bound +ℤ magnitude (pair value)) ≤ℤ pos (2 ^ 126) }
    ensures { result ≡ bound -ℤ value.mid -ℤ value.rad }
{
    bound - value.mid - value.rad
}

// By how much a value misses its target at most.
fn gap(value: Enc, target: i128) -> i128
    requires { (magnitude (pair value) +ℤ absolute target) ≤ℤ pos (2 ^ 126) }
    ensures { result ≡ absolute (value.mid -ℤ target) +ℤ value.rad }
{
    (value.mid - target).abs() + value.rad
}

// How far an enclosure reaches.
fn reach(x: Enc) -> i128
    requires { magnitude (pair x) ≤ℤ pos (2 ^ 126) }
    ensures { result ≡ magnitude (pair x) }
{
    x.mid.abs() + x.rad
}

/// The slack of each value below its bound.
pub fn slacks(alloc: Global, bounds: &[i128], values: &[Enc]) -> Result<Vec<i128>, AllocError>
    requires same { length values.now ≡ length bounds.now }
    requires fits { (i : ℕ) → i < length bounds.now → (absolute (at bounds.now i) +ℤ magnitude (pair_at values.now i)) ≤ℤ pos (2 ^ 126) }
    ensures { IfOk result (λ v. Holds v.items (length bounds.now)
        (λ i. at bounds.now i -ℤ (pair_at values.now i).mid -ℤ (pair_at values.now i).rad)) }
{
    let mut out = Vec::new(alloc);
    for i in 0..bounds.len() {
        out.push(slack(bounds[i], values[i]))?;
    }
    Ok(out)
}

/// The gap of each value to its target.
pub fn gaps(alloc: Global, values: &[Enc], targets: &[i128]) -> Result<Vec<i128>, AllocError>
    requires same { length values.now ≡ length targets.now }
    requires fits { (i : ℕ) → i < length targets.now → (magnitude (pair_at values.now i) +ℤ absolute (at targets.now i)) ≤ℤ pos (2 ^ 126) }
    ensures { IfOk result (λ v. Holds v.items (length targets.now)
        (λ i. absolute ((pair_at values.now i).mid -ℤ at targets.now i) +ℤ (pair_at values.now i).rad)) }
{
    let mut out = Vec::new(alloc);
    for i in 0..targets.len() {
        out.push(gap(values[i], targets[i]))?;
    }
    Ok(out)
}

/// What each enclosure reaches, times `scale`.
pub fn reaches(alloc: Global, xs: &[Enc], scale: i128) -> Result<Vec<i128>, AllocError>
    requires scale { pos 1 ≤ℤ scale }
    requires fits { (j : ℕ) → j < length xs.now → (scale *ℤ magnitude (pair_at xs.now j)) ≤ℤ pos (2 ^ 126) }
    ensures { IfOk result (λ v. Holds v.items (length xs.now) (λ j. scale *ℤ magnitude (pair_at xs.now j))) }
{
    let mut out = Vec::new(alloc);
    for j in 0..xs.len() {
        out.push(scale * reach(xs[j]))?;
    }
    Ok(out)
}

/// The weight of each entry of a plan, over `cost_den`.
pub fn entry_weights(alloc: Global, parts: &DesignParts) -> Result<Vec<i128>, AllocError>
    requires { IsDesign parts.now }
    ensures { IfOk result (λ v. Holds v.items (entries (design_of parts.now)) (λ j. at parts.now.input_weights.items (j % parts.now.inputs))) }
{
    let mut out = Vec::new(alloc);
    for j in 0..parts.stages * parts.inputs {
        out.push(parts.input_weights[j % parts.inputs])?;
    }
    Ok(out)
}

/// The sum of the squares, each times its weight.
pub fn weighted_squares(weights: &[i128], xs: &[i128]) -> i128
    requires same { length weights.now ≡ length xs.now }
    requires fits { SquaresFit (length xs.now) (at weights.now) (at xs.now) }
    ensures { result ≡ total (length xs.now) (λ i. at weights.now i *ℤ square (at xs.now i)) }
{
    let mut sum = 0;
    for i in 0..xs.len() {
        sum += weights[i] * (xs[i] * xs[i]);
    }
    sum
}

/// The first number below `den / 2^16`.
pub fn first_short(slacks: &[i128], den: i128) -> Option<usize>
    requires { (i : ℕ) → i < length slacks.now → 2 ^ 16 * unsigned_abs (at slacks.now i) ≤ 2 ^ 126 }
    ensures { MatchOption result ((k : ℕ) → k < length slacks.now → den ≤ℤ (pos (2 ^ 16) *ℤ at slacks.now k))
        (λ i. (i < length slacks.now) × ((pos (2 ^ 16) *ℤ at slacks.now i) <ℤ den) ×
        ((k : ℕ) → k < i → den ≤ℤ (pos (2 ^ 16) *ℤ at slacks.now k))) }
{
    for (i, slack) in slacks.iter().enumerate() {
        if scaled(*slack, 16) < den {
            return Some(i);
        }
    }
    None
}
