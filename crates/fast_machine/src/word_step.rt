// A step of the accelerated machine in words of 64 bits.
ghost use Rattle.std.specs.Prelude.{◌≡◌, ◌≤◌, ◌<◌, ◌+◌, ◌*◌, ◌^◌, ℕ, pos, ◌*ℤ◌, IsTrue, length, unsigned_abs};
ghost use Rattle.integer_algebra.specs.Sums.{at};
ghost use Rattle.qp_model.specs.machine.Controller.{numbers};
ghost use Rattle.qp_model.specs.machine.Machine.{lowering_of};
ghost use Rattle.qp_model.specs.machine.AbsoluteSums.{clamp_magnitudes, plan_magnitudes};
ghost use Rattle.qp_model.specs.machine.Within.{AreWithin};
ghost use Rattle.overflow_check.specs.FastMachine.{step_weight, fast_top, mean_at, means_of, moved_multiplier, moved_multipliers, added_times, fast_lists, fast_step, fast_after};
ghost use Rattle.overflow_check.specs.FastController.{IsFastController, most_fast_steps};
ghost use Rattle.fixed_kernel.specs.WordForm.{row_bases, IsWordSized, HasHalfFactors};
ghost use Rattle.fixed_kernel.specs.WordMachine.{IsWordFormOf};
ghost use Rattle.fast_machine.specs.FastReady.{LiesUpTo, AreFastMultipliers, IsFastReady};
ghost use Rattle.fast_machine.specs.FastWords.{IsFastWordSetting, AreBases};

use crate::step::lowering_at;
use crate::wordwise::{word_added_times, word_mean, word_moved};
use fixed_kernel::{WordForm, word_plan, word_raised, word_row_sum, word_shift};
use qp_model::ControllerParts;

// Mean `i` of step `k`, raised.
#[inline(always)]
fn word_mean_at(c: &ControllerParts, multipliers: &[i64], reached: &[i64], k: u32, i: usize) -> i64
    requires sound { IsFastController (numbers c.now) }
    requires words { IsWordSized (numbers c.now) }
    requires step { k < c.now.steps }
    requires ready { AreFastMultipliers (numbers c.now) k multipliers.now reached.now }
    requires in_range { i < length c.now.bound.items }
    ensures { result ≡ mean_at k multipliers.now reached.now i *ℤ pos (2 ^ lowering_of (numbers c.now) i) }
{
    let mean = word_mean(multipliers[i], reached[i], k);
    word_raised(mean, lowering_at(c, i))
}

// The means of step `k`.
#[inline(never)]
fn word_means(c: &ControllerParts, multipliers: &[i64], reached: &[i64], k: u32, means: &mut [i64])
    requires sound { IsFastController (numbers c.now) }
    requires words { IsWordSized (numbers c.now) }
    requires step { k < c.now.steps }
    requires ready { AreFastMultipliers (numbers c.now) k multipliers.now reached.now }
    requires long { length means.old ≡ length c.now.bound.items }
    ensures { means.new ≡ means_of (numbers c.now) k multipliers.now reached.now }
{
    for i in 0..means.len() {
        means[i] = word_mean_at(c, multipliers, reached, k, i);
    }
}

// The greatest multiplier of row `i`.
#[inline(always)]
fn word_top_at(c: &ControllerParts, form: &WordForm, i: usize) -> i64
    requires sound { IsFastController (numbers c.now) }
    requires words { IsWordSized (numbers c.now) }
    requires form { IsWordFormOf (numbers c.now) form.now }
    requires in_range { i < length c.now.bound.items }
    ensures { result ≡ fast_top (numbers c.now) i }
{
    word_shift(2 * form.top, lowering_at(c, i))
}

// Multiplier `i` after step `k`.
#[inline(always)]
fn word_moved_at(
    c: &ControllerParts,
    form: &WordForm,
    half: bool,
    state: &[i128],
    bases: &[i64],
    plan: &[i64],
    k: u32,
    old: i64,
    i: usize,
) -> i64
    requires setting { IsFastWordSetting (numbers c.now) form.now state.now }
    requires half { IsTrue half → HasHalfFactors (numbers c.now) }
    requires bases { bases.now ≡ row_bases (numbers c.now) state.now }
    requires plan { AreWithin plan.now (plan_magnitudes (numbers c.now)) }
    requires step { k < c.now.steps }
    requires old { LiesUpTo (unsigned_abs (fast_top (numbers c.now) i)) old }
    requires in_range { i < length c.now.bound.items }
    ensures { result ≡ moved_multiplier (numbers c.now) state.now plan.now (step_weight k) old i }
{
    let sum = word_row_sum(c, form, half, state, bases, plan, i);
    let residual = word_shift(sum, c.f);
    let top = word_top_at(c, form, i);
    word_moved(old, residual, k, top)
}

// The loop of `word_moves`. It stays within each of the two calls there.
#[inline(always)]
fn word_rows(
    c: &ControllerParts,
    form: &WordForm,
    half: bool,
    state: &[i128],
    bases: &[i64],
    plan: &[i64],
    k: u32,
    multipliers: &mut [i64],
)
    requires setting { IsFastWordSetting (numbers c.now) form.now state.now }
    requires half { IsTrue half → HasHalfFactors (numbers c.now) }
    requires bases { bases.now ≡ row_bases (numbers c.now) state.now }
    requires plan { AreWithin plan.now (plan_magnitudes (numbers c.now)) }
    requires step { k < c.now.steps }
    requires long { length multipliers.old ≡ length c.now.bound.items }
    requires up { (i : ℕ) → i < length c.now.bound.items → LiesUpTo (unsigned_abs (fast_top (numbers c.now) i)) (at multipliers.old i) }
    ensures { multipliers.new ≡ moved_multipliers (numbers c.now) state.now plan.now (step_weight k) multipliers.old }
{
    for (i, l) in multipliers.iter_mut().enumerate() {
        *l = word_moved_at(c, form, half, state, bases, plan, k, *l, i);
    }
}

// The multipliers after step `k`.
#[inline(never)]
fn word_moves(
    c: &ControllerParts,
    form: &WordForm,
    state: &[i128],
    bases: &[i64],
    plan: &[i64],
    k: u32,
    multipliers: &mut [i64],
)
    requires setting { IsFastWordSetting (numbers c.now) form.now state.now }
    requires bases { bases.now ≡ row_bases (numbers c.now) state.now }
    requires plan { AreWithin plan.now (plan_magnitudes (numbers c.now)) }
    requires step { k < c.now.steps }
    requires long { length multipliers.old ≡ length c.now.bound.items }
    requires up { (i : ℕ) → i < length c.now.bound.items → LiesUpTo (unsigned_abs (fast_top (numbers c.now) i)) (at multipliers.old i) }
    ensures { multipliers.new ≡ moved_multipliers (numbers c.now) state.now plan.now (step_weight k) multipliers.old }
{
    if form.half {
        word_rows(c, form, true, state, bases, plan, k, multipliers);
    } else {
        word_rows(c, form, false, state, bases, plan, k, multipliers);
    }
}

// Adds each number to its sum, times the weight of step `k`.
fn word_add_times(sums: &mut [i64], numbers: &[i64], k: u32)
    requires step { k < most_fast_steps }
    requires long { length sums.old ≡ length numbers.now }
    requires room { (j : ℕ) → j < length numbers.now → unsigned_abs (at sums.old j) + step_weight k * unsigned_abs (at numbers.now j) < 2 ^ 63 }
    ensures { sums.new ≡ added_times (step_weight k) sums.old numbers.now }
{
    for (j, sum) in sums.iter_mut().enumerate() {
        *sum = word_added_times(*sum, numbers[j], k);
    }
}

// Step `k`: what the machine has made, list by list, before it and after it.
pub fn word_step(
    c: &ControllerParts,
    form: &WordForm,
    state: &[i128],
    entry_starts: &[i64],
    row_starts: &[i64],
    k: u32,
    means: &mut [i64],
    plan: &mut [i64],
    multipliers: &mut [i64],
    reached: &mut [i64],
    sums: &mut [i64],
)
    requires setting { IsFastWordSetting (numbers c.now) form.now state.now }
    requires bases { AreBases (numbers c.now) state.now entry_starts.now row_starts.now }
    requires step { k < c.now.steps }
    requires ready { IsFastReady (numbers c.now) k (fast_lists means.old plan.old multipliers.old reached.old sums.old) }
    ensures { fast_lists means.new plan.new multipliers.new reached.new sums.new
        ≡ fast_step (numbers c.now) state.now k (fast_lists means.old plan.old multipliers.old reached.old sums.old) }
{
    word_means(c, multipliers, reached, k, means);
    word_plan(c, form, state, entry_starts, means, plan);
    word_moves(c, form, state, row_starts, plan, k, multipliers);
    word_add_times(reached, multipliers, k);
    word_add_times(sums, plan, k);
}

// The steps that are left of a run, of which `made` were made.
pub fn word_steps(
    c: &ControllerParts,
    form: &WordForm,
    state: &[i128],
    entry_starts: &[i64],
    row_starts: &[i64],
    made: u32,
    means: &mut [i64],
    plan: &mut [i64],
    multipliers: &mut [i64],
    reached: &mut [i64],
    sums: &mut [i64],
)
    requires setting { IsFastWordSetting (numbers c.now) form.now state.now }
    requires bases { AreBases (numbers c.now) state.now entry_starts.now row_starts.now }
    requires made { made ≤ c.now.steps }
    requires start { fast_lists means.old plan.old multipliers.old reached.old sums.old ≡ fast_after (numbers c.now) state.now made }
    ensures { fast_lists means.new plan.new multipliers.new reached.new sums.new ≡ fast_after (numbers c.now) state.now c.now.steps }
{
    for k in made..c.steps {
        word_step(
            c,
            form,
            state,
            entry_starts,
            row_starts,
            k,
            means,
            plan,
            multipliers,
            reached,
            sums,
        );
    }
}
