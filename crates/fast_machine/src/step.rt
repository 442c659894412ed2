// One step of the accelerated machine.
ghost use Rattle.std.specs.Prelude.{◌≡◌, ◌+◌, ◌*◌, ◌≤◌, ◌<◌, ◌^◌, ℕ, pos, ◌*ℤ◌, length, replicate, unsigned_abs};
ghost use Rattle.integer_algebra.specs.Division.{floor_of};
ghost use Rattle.integer_algebra.specs.Sums.{at};
ghost use Rattle.qp_model.specs.machine.Controller.{numbers};
ghost use Rattle.qp_model.specs.machine.Machine.{IsAdmissible, loaded, lowering_of, plan_entry, plan_of, row_sum};
ghost use Rattle.qp_model.specs.machine.AbsoluteSums.{clamp_magnitudes, plan_magnitudes};
ghost use Rattle.qp_model.specs.machine.Within.{AreWithin};
ghost use Rattle.overflow_check.specs.FastMachine.{step_weight, fast_top, mean_at, means_of, moved_multiplier, moved_multipliers, added_times, fast_lists, fast_step};
ghost use Rattle.overflow_check.specs.FastController.{IsFastController, most_fast_steps};
ghost use Rattle.fast_machine.specs.FastReady.{LiesUpTo, AreFastMultipliers, AreFastSums, IsFastReady, IsFastSetting};

use crate::number::{added_times, entry_from, mean_from, moved_from, residual_from};
use frac_scaled::{floor_shift, scaled};
use mat_int::dot;
use qp_model::ControllerParts;

// By how many bits the step exponent of row `i` is below the greatest.
pub fn lowering_at(c: &ControllerParts, i: usize) -> u32
    requires sound { IsFastController (numbers c.now) }
    requires in_range { i < length c.now.bound.items }
    ensures value { result ≡ lowering_of (numbers c.now) i }
    ensures bits { result ≤ 40 }
{
    c.s - c.exps[i]
}

// The greatest multiplier of row `i`.
fn top_at(c: &ControllerParts, i: usize) -> i128
    requires sound { IsFastController (numbers c.now) }
    requires in_range { i < length c.now.bound.items }
    ensures { result ≡ fast_top (numbers c.now) i }
{
    floor_shift(2 * c.clamp, lowering_at(c, i))
}

// Mean `i` of step `k`, raised.
fn raised_mean_at(
    c: &ControllerParts,
    multipliers: &[i128],
    reached: &[i128],
    k: u32,
    i: usize,
) -> i128
    requires sound { IsFastController (numbers c.now) }
    requires step { k < c.now.steps }
    requires ready { AreFastMultipliers (numbers c.now) k multipliers.now reached.now }
    requires in_range { i < length c.now.bound.items }
    ensures { result ≡ mean_at k multipliers.now reached.now i *ℤ pos (2 ^ lowering_of (numbers c.now) i) }
{
    scaled(mean_from(multipliers[i], reached[i], k), lowering_at(c, i))
}

// The means of step `k`.
fn make_means(
    c: &ControllerParts,
    multipliers: &[i128],
    reached: &[i128],
    k: u32,
    means: &mut [i128],
)
    requires sound { IsFastController (numbers c.now) }
    requires step { k < c.now.steps }
    requires ready { AreFastMultipliers (numbers c.now) k multipliers.now reached.now }
    requires long { length means.old ≡ length c.now.bound.items }
    ensures value { means.new ≡ means_of (numbers c.now) k multipliers.now reached.now }
    ensures within { AreWithin means.new (clamp_magnitudes (numbers c.now)) }
{
    for i in 0..means.len() {
        means[i] = raised_mean_at(c, multipliers, reached, k, i);
    }
}

// Plan entry `j` at the means.
fn entry_at(c: &ControllerParts, state: &[i128], means: &[i128], j: usize) -> i128
    requires setting { IsFastSetting (numbers c.now) state.now }
    requires means { AreWithin means.now (clamp_magnitudes (numbers c.now)) }
    requires in_range { j < length c.now.t.items }
    ensures { result ≡ plan_entry (numbers c.now) state.now means.now j }
{
    let own = dot(c.p_mat.row(j), state);
    let dual = dot(c.w_mat.row(j), means);
    entry_from(own, c.t[j], dual, c.f, c.s)
}

// The plan at the means.
fn make_plan(c: &ControllerParts, state: &[i128], means: &[i128], plan: &mut [i128])
    requires setting { IsFastSetting (numbers c.now) state.now }
    requires means { AreWithin means.now (clamp_magnitudes (numbers c.now)) }
    requires plan { length plan.old ≡ length c.now.t.items }
    ensures value { plan.new ≡ plan_of (numbers c.now) state.now means.now }
    ensures within { AreWithin plan.new (plan_magnitudes (numbers c.now)) }
{
    for j in 0..plan.len() {
        plan[j] = entry_at(c, state, means, j);
    }
}

// The residual of row `i` that is used.
fn residual_at(c: &ControllerParts, state: &[i128], plan: &[i128], i: usize) -> i128
    requires setting { IsFastSetting (numbers c.now) state.now }
    requires plan { AreWithin plan.now (plan_magnitudes (numbers c.now)) }
    requires in_range { i < length c.now.bound.items }
    ensures { result ≡ floor_of (row_sum (numbers c.now) state.now plan.now i) (2 ^ c.now.f) }
{
    let planned = dot(c.g_mat.row(i), plan);
    let own = dot(c.e_mat.row(i), state);
    residual_from(planned, own, c.bound[i], c.f)
}

// Multiplier `i` after step `k`.
fn multiplier_at(
    c: &ControllerParts,
    state: &[i128],
    plan: &[i128],
    k: u32,
    old: i128,
    i: usize,
) -> i128
    requires setting { IsFastSetting (numbers c.now) state.now }
    requires plan { AreWithin plan.now (plan_magnitudes (numbers c.now)) }
    requires step { k < c.now.steps }
    requires old { LiesUpTo (unsigned_abs (fast_top (numbers c.now) i)) old }
    requires in_range { i < length c.now.bound.items }
    ensures { result ≡ moved_multiplier (numbers c.now) state.now plan.now (step_weight k) old i }
{
    moved_from(old, residual_at(c, state, plan, i), k, top_at(c, i))
}

// The multipliers after step `k`.
fn move_multipliers(
    c: &ControllerParts,
    state: &[i128],
    plan: &[i128],
    k: u32,
    multipliers: &mut [i128],
)
    requires setting { IsFastSetting (numbers c.now) state.now }
    requires plan { AreWithin plan.now (plan_magnitudes (numbers c.now)) }
    requires step { k < c.now.steps }
    requires long { length multipliers.old ≡ length c.now.bound.items }
    requires up { (i : ℕ) → i < length c.now.bound.items → LiesUpTo (unsigned_abs (fast_top (numbers c.now) i)) (at multipliers.old i) }
    ensures { multipliers.new ≡ moved_multipliers (numbers c.now) state.now plan.now (step_weight k) multipliers.old }
{
    for (i, l) in multipliers.iter_mut().enumerate() {
        *l = multiplier_at(c, state, plan, k, *l, i);
    }
}

// Adds each number to its sum, times the weight of step `k`.
fn add_times(sums: &mut [i128], numbers: &[i128], k: u32)
    requires step { k < most_fast_steps }
    requires long { length sums.old ≡ length numbers.now }
    requires room { (j : ℕ) → j < length numbers.now → unsigned_abs (at sums.old j) + step_weight k * unsigned_abs (at numbers.now j) ≤ 2 ^ 126 }
    ensures { sums.new ≡ added_times (step_weight k) sums.old numbers.now }
{
    for (j, sum) in sums.iter_mut().enumerate() {
        *sum = added_times(*sum, numbers[j], k);
    }
}

// Puts a grid state over `2^f`.
pub fn load_state(c: &ControllerParts, state: &[i128], out: &mut [i128])
    requires sound { IsFastController (numbers c.now) }
    requires inside { IsAdmissible (numbers c.now) state.now }
    requires long { length out.old ≡ c.now.n }
    ensures { out.new ≡ loaded (numbers c.now) state.now }
{
    for (i, x) in state.iter().enumerate() {
        out[i] = scaled(*x, c.f - c.g);
    }
}

// Puts zeros.
pub fn clear(numbers: &mut [i128])
    ensures { numbers.new ≡ replicate (length numbers.old) (pos 0) }
{
    for x in numbers.iter_mut() {
        *x = 0;
    }
}

// Step `k`: what the machine has made, list by list, before it and after it.
pub fn make_step(
    c: &ControllerParts,
    state: &[i128],
    k: u32,
    means: &mut [i128],
    plan: &mut [i128],
    multipliers: &mut [i128],
    reached: &mut [i128],
    sums: &mut [i128],
)
    requires setting { IsFastSetting (numbers c.now) state.now }
    requires step { k < c.now.steps }
    requires ready { IsFastReady (numbers c.now) k (fast_lists means.old plan.old multipliers.old reached.old sums.old) }
    ensures { fast_lists means.new plan.new multipliers.new reached.new sums.new
        ≡ fast_step (numbers c.now) state.now k (fast_lists means.old plan.old multipliers.old reached.old sums.old) }
{
    make_means(c, multipliers, reached, k, means);
    make_plan(c, state, means, plan);
    move_multipliers(c, state, plan, k, multipliers);
    add_times(reached, multipliers, k);
    add_times(sums, plan, k);
}
