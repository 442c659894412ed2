// A step in words of 64 bits. The multipliers there are raised, before it and after it.
ghost use Rattle.std.specs.Prelude.{◌≡◌, ◌≤◌, ◌<◌, ◌+◌, ◌^◌, ℕ, pos, ◌*ℤ◌, IsTrue, length, unsigned_abs};
ghost use Rattle.integer_algebra.specs.Division.{floor_of};
ghost use Rattle.integer_algebra.specs.Sums.{at};
ghost use Rattle.qp_model.specs.machine.Controller.{numbers};
ghost use Rattle.qp_model.specs.machine.Machine.{lowering_of, raised, plan_entry, plan_of, row_sum, next_multiplier, next_multipliers, added, after};
ghost use Rattle.qp_model.specs.machine.AbsoluteSums.{clamp_magnitudes, plan_magnitudes};
ghost use Rattle.qp_model.specs.machine.Within.{AreWithin};
ghost use Rattle.fixed_kernel.specs.Raised.{unraised, with_raised, raised_step};
ghost use Rattle.fixed_kernel.specs.Spans.{made_of};
ghost use Rattle.fixed_kernel.specs.WordForm.{entry_bases, row_bases, HasHalfFactors, IsReadyInWords};
ghost use Rattle.fixed_kernel.specs.WordMachine.{IsWordSetting, IsWordSumSetting};

use crate::step::{exponents_of, lowering_at};
use crate::word_machine::WordForm;
use crate::wordwise::{word_entry, word_multiplier, word_raised, word_shift};
use qp_model::ControllerParts;

// One plan entry.
#[inline(always)]
fn word_entry_at(
    c: &ControllerParts,
    form: &WordForm,
    half: bool,
    state: &[i128],
    bases: &[i64],
    multipliers: &[i64],
    j: usize,
) -> i64
    requires setting { IsWordSumSetting (numbers c.now) form.now state.now }
    requires half { IsTrue half → HasHalfFactors (numbers c.now) }
    requires bases { bases.now ≡ entry_bases (numbers c.now) state.now }
    requires multipliers { AreWithin multipliers.now (clamp_magnitudes (numbers c.now)) }
    requires in_range { j < length c.now.t.items }
    ensures { result ≡ plan_entry (numbers c.now) state.now multipliers.now j }
{
    let sum = form.gains.row(j).dot(half, false, bases[j], multipliers);
    word_entry(sum, c.f + c.s)
}

// The loop of `word_plan`. It stays within each of the two calls there.
#[inline(always)]
fn word_entries(
    c: &ControllerParts,
    form: &WordForm,
    half: bool,
    state: &[i128],
    bases: &[i64],
    multipliers: &[i64],
    plan: &mut [i64],
)
    requires setting { IsWordSumSetting (numbers c.now) form.now state.now }
    requires half { IsTrue half → HasHalfFactors (numbers c.now) }
    requires bases { bases.now ≡ entry_bases (numbers c.now) state.now }
    requires multipliers { AreWithin multipliers.now (clamp_magnitudes (numbers c.now)) }
    requires plan { length plan.old ≡ length c.now.t.items }
    ensures { plan.new ≡ plan_of (numbers c.now) state.now multipliers.now }
{
    for j in 0..plan.len() {
        plan[j] = word_entry_at(c, form, half, state, bases, multipliers, j);
    }
}

/// The plan at raised multipliers, or at means of either machine. It is never inlined, so that its loops and those of the rows don't share registers.
#[inline(never)]
pub fn word_plan(
    c: &ControllerParts,
    form: &WordForm,
    state: &[i128],
    bases: &[i64],
    multipliers: &[i64],
    plan: &mut [i64],
)
    requires setting { IsWordSumSetting (numbers c.now) form.now state.now }
    requires bases { bases.now ≡ entry_bases (numbers c.now) state.now }
    requires multipliers { AreWithin multipliers.now (clamp_magnitudes (numbers c.now)) }
    requires plan { length plan.old ≡ length c.now.t.items }
    ensures { plan.new ≡ plan_of (numbers c.now) state.now multipliers.now }
{
    if form.half {
        word_entries(c, form, true, state, bases, multipliers, plan);
    } else {
        word_entries(c, form, false, state, bases, multipliers, plan);
    }
}

/// The sum of row `i`.
#[inline(always)]
pub fn word_row_sum(
    c: &ControllerParts,
    form: &WordForm,
    half: bool,
    state: &[i128],
    bases: &[i64],
    plan: &[i64],
    i: usize,
) -> i64
    requires setting { IsWordSumSetting (numbers c.now) form.now state.now }
    requires half { IsTrue half → HasHalfFactors (numbers c.now) }
    requires bases { bases.now ≡ row_bases (numbers c.now) state.now }
    requires plan { AreWithin plan.now (plan_magnitudes (numbers c.now)) }
    requires in_range { i < length c.now.bound.items }
    ensures { result ≡ row_sum (numbers c.now) state.now plan.now i }
{
    form.rows.row(i).dot(half, form.sparse, bases[i], plan)
}

// One raised multiplier, from the one before it: that and the clamp are lowered for the move, and the moved one is raised again. Most rows are
// lowered by no bit, and nothing of theirs is shifted.
#[inline(always)]
fn word_multiplier_at(
    c: &ControllerParts,
    form: &WordForm,
    half: bool,
    state: &[i128],
    bases: &[i64],
    plan: &[i64],
    raised: i64,
    exps: &[u32],
    i: usize,
) -> i64
    requires setting { IsWordSetting (numbers c.now) form.now state.now }
    requires half { IsTrue half → HasHalfFactors (numbers c.now) }
    requires bases { bases.now ≡ row_bases (numbers c.now) state.now }
    requires plan { AreWithin plan.now (plan_magnitudes (numbers c.now)) }
    requires raised { unsigned_abs raised ≤ unsigned_abs c.now.clamp }
    requires exps { exps.now ≡ c.now.exps.items }
    requires in_range { i < length c.now.bound.items }
    ensures { let lowering = lowering_of (numbers c.now) i in
        result ≡ next_multiplier (numbers c.now) state.now plan.now (floor_of raised (2 ^ lowering)) i *ℤ pos (2 ^ lowering) }
{
    let sum = word_row_sum(c, form, half, state, bases, plan, i);
    let lowering = lowering_at(c, exps, i);
    if lowering == 0 {
        word_multiplier(sum, raised, form.top, c.f)
    } else {
        let old = word_shift(raised, lowering);
        let top = word_shift(form.top, lowering);
        word_raised(word_multiplier(sum, old, top, c.f), lowering)
    }
}

// The loop of `word_multipliers`. It stays within each of the two calls there.
#[inline(always)]
fn word_rows(
    c: &ControllerParts,
    form: &WordForm,
    half: bool,
    state: &[i128],
    bases: &[i64],
    plan: &[i64],
    multipliers: &mut [i64],
)
    requires setting { IsWordSetting (numbers c.now) form.now state.now }
    requires half { IsTrue half → HasHalfFactors (numbers c.now) }
    requires bases { bases.now ≡ row_bases (numbers c.now) state.now }
    requires plan { AreWithin plan.now (plan_magnitudes (numbers c.now)) }
    requires multipliers { AreWithin multipliers.old (clamp_magnitudes (numbers c.now)) }
    ensures { multipliers.new ≡ raised (numbers c.now) (next_multipliers (numbers c.now) state.now plan.now (unraised (numbers c.now) multipliers.old)) }
{
    let exps = exponents_of(c, multipliers.len());
    for (i, l) in multipliers.iter_mut().enumerate() {
        *l = word_multiplier_at(c, form, half, state, bases, plan, *l, exps, i);
    }
}

// The raised multipliers after a plan, from those before it.
#[inline(never)]
fn word_multipliers(
    c: &ControllerParts,
    form: &WordForm,
    state: &[i128],
    bases: &[i64],
    plan: &[i64],
    multipliers: &mut [i64],
)
    requires setting { IsWordSetting (numbers c.now) form.now state.now }
    requires bases { bases.now ≡ row_bases (numbers c.now) state.now }
    requires plan { AreWithin plan.now (plan_magnitudes (numbers c.now)) }
    requires multipliers { AreWithin multipliers.old (clamp_magnitudes (numbers c.now)) }
    ensures { multipliers.new ≡ raised (numbers c.now) (next_multipliers (numbers c.now) state.now plan.now (unraised (numbers c.now) multipliers.old)) }
{
    if form.half {
        word_rows(c, form, true, state, bases, plan, multipliers);
    } else {
        word_rows(c, form, false, state, bases, plan, multipliers);
    }
}

// Adds a plan to the sums.
fn word_add(plan: &[i64], sums: &mut [i64])
    requires long { length plan.now ≡ length sums.old }
    requires fit { (k : ℕ) → k < length plan.now → unsigned_abs (at sums.old k) + unsigned_abs (at plan.now k) < 2 ^ 63 }
    ensures { sums.new ≡ added sums.old plan.now }
{
    for (j, sum) in sums.iter_mut().enumerate() {
        *sum += plan[j];
    }
}

// One step of the machine. The products of the gains with the state are not made anew: they stand in the bases.
pub fn word_step(
    c: &ControllerParts,
    form: &WordForm,
    state: &[i128],
    entry_starts: &[i64],
    row_starts: &[i64],
    multipliers: &mut [i64],
    plan: &mut [i64],
    sums: &mut [i64],
)
    requires setting { IsWordSetting (numbers c.now) form.now state.now }
    requires ready { IsReadyInWords (numbers c.now) state.now entry_starts.now row_starts.now (made_of plan.old multipliers.old sums.old) }
    ensures { made_of plan.new multipliers.new sums.new ≡ raised_step (numbers c.now) state.now (made_of plan.old multipliers.old sums.old) }
{
    word_plan(c, form, state, entry_starts, multipliers, plan);
    word_multipliers(c, form, state, row_starts, plan, multipliers);
    word_add(plan, sums);
}

// The steps that are left of a run, of which `made` were made.
pub fn word_steps(
    c: &ControllerParts,
    form: &WordForm,
    state: &[i128],
    entry_starts: &[i64],
    row_starts: &[i64],
    made: u32,
    multipliers: &mut [i64],
    plan: &mut [i64],
    sums: &mut [i64],
)
    requires setting { IsWordSetting (numbers c.now) form.now state.now }
    requires entry_starts { entry_starts.now ≡ entry_bases (numbers c.now) state.now }
    requires row_starts { row_starts.now ≡ row_bases (numbers c.now) state.now }
    requires made { made ≤ c.now.steps }
    requires start { made_of plan.old multipliers.old sums.old ≡ with_raised (numbers c.now) (after (numbers c.now) state.now made) }
    ensures { made_of plan.new multipliers.new sums.new ≡ with_raised (numbers c.now) (after (numbers c.now) state.now c.now.steps) }
{
    for k in made..c.steps {
        word_step(
            c,
            form,
            state,
            entry_starts,
            row_starts,
            multipliers,
            plan,
            sums,
        );
    }
}
