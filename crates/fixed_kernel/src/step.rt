// Plan entries, multipliers and sums.
ghost use Rattle.std.specs.Prelude.{◌≡◌, ◌≤◌, ◌<◌, ◌+◌, ◌^◌, ℕ, pos, ◌+ℤ◌, ◌*ℤ◌, length, unsigned_abs, IsTrue};
ghost use Rattle.std.specs.Int.{int_max, int_min};
ghost use Rattle.integer_algebra.specs.Division.{floor_of};
ghost use Rattle.integer_algebra.specs.Sums.{at};
ghost use Rattle.mat_int.specs.Row.{list_dot};
ghost use Rattle.mat_int.specs.Matrix.{row_of};
ghost use Rattle.mat_products.specs.Narrow.{IsNarrow};
ghost use Rattle.qp_model.specs.problem.Limits.{text_version};
ghost use Rattle.qp_model.specs.machine.Controller.{numbers};
ghost use Rattle.qp_model.specs.machine.Machine.{lowering_of, raised, plan_entry, plan_of, row_sum, next_multiplier, next_multipliers, added};
ghost use Rattle.qp_model.specs.machine.AbsoluteSums.{IsController, clamp_magnitudes, plan_magnitudes};
ghost use Rattle.qp_model.specs.machine.Within.{AreWithin};
ghost use Rattle.fixed_kernel.specs.Raised.{unraised, raised_step};
ghost use Rattle.fixed_kernel.specs.Spans.{words_of, made_of, state_in, made_in};
ghost use Rattle.fixed_kernel.specs.Ready.{IsStepSetting, IsReadyToStep};

use crate::entry::{entry_from, multiplier_from, short_shift};
use crate::narrow::{scaled_by, shifted_by, sum_of_products};
use qp_model::{ControllerParts, FIRST_VERSION};

// The step exponents, cut to the number of rows, which they have: so the compiler knows that a row's index is in range.
pub fn exponents_of(c: &ControllerParts, rows: usize) -> &[u32]
    requires sound { IsController (numbers c.now) }
    requires rows { rows ≡ length c.now.bound.items }
    ensures { result.now ≡ c.now.exps.items }
{
    &c.exps[..rows]
}

// By how many bits the step exponent of row `i` is below the greatest.
pub fn lowering_at(c: &ControllerParts, exps: &[u32], i: usize) -> u32
    requires sound { IsController (numbers c.now) }
    requires exps { exps.now ≡ c.now.exps.items }
    requires in_range { i < length c.now.bound.items }
    ensures value { result ≡ lowering_of (numbers c.now) i }
    ensures bits { result ≤ 40 }
{
    c.s - exps[i]
}

// A raised multiplier, lowered: it was over `2^(f+s)`, and is then over `2^(f + exps[i])`.
pub fn lowered(c: &ControllerParts, raised: i128, i: usize) -> i128
    requires sound { IsController (numbers c.now) }
    requires in_range { i < length c.now.bound.items }
    ensures { result ≡ floor_of raised (2 ^ lowering_of (numbers c.now) i) }
{
    short_shift(raised, lowering_at(c, &c.exps, i))
}

// One plan entry, at raised multipliers. One running sum goes through the multipliers' products, is shifted, and goes on through the state's.
fn entry_at(
    c: &ControllerParts,
    narrow: bool,
    state: &[i128],
    multipliers: &[i128],
    j: usize,
) -> i128
    requires setting { IsStepSetting (numbers c.now) narrow state.now }
    requires multipliers { AreWithin multipliers.now (clamp_magnitudes (numbers c.now)) }
    requires in_range { j < length c.now.t.items }
    ensures { result ≡ plan_entry (numbers c.now) state.now multipliers.now j }
{
    let dual = sum_of_products(narrow, 0, c.w_mat.row(j), multipliers);
    let sum = sum_of_products(narrow, short_shift(dual, c.s), c.p_mat.row(j), state);
    entry_from(sum, c.t[j], c.f)
}

// The plan at a state and raised multipliers. It is never inlined, so that its loops and those of the rows don't share registers.
#[inline(never)]
fn make_plan(
    c: &ControllerParts,
    narrow: bool,
    state: &[i128],
    multipliers: &[i128],
    plan: &mut [i128],
)
    requires setting { IsStepSetting (numbers c.now) narrow state.now }
    requires multipliers { AreWithin multipliers.now (clamp_magnitudes (numbers c.now)) }
    requires plan { length plan.old ≡ length c.now.t.items }
    ensures value { plan.new ≡ plan_of (numbers c.now) state.now multipliers.now }
    ensures within { AreWithin plan.new (plan_magnitudes (numbers c.now)) }
{
    for j in 0..plan.len() {
        plan[j] = entry_at(c, narrow, state, multipliers, j);
    }
}

// The sum of a row's products with a plan and with a state, by one running sum. It stays within each of the loops that call it.
#[inline(always)]
fn row_products(c: &ControllerParts, narrow: bool, state: &[i128], plan: &[i128], i: usize) -> i128
    requires setting { IsStepSetting (numbers c.now) narrow state.now }
    requires plan { AreWithin plan.now (plan_magnitudes (numbers c.now)) }
    requires in_range { i < length c.now.bound.items }
    ensures { result ≡ list_dot (row_of c.now.g_mat i) plan.now +ℤ list_dot (row_of c.now.e_mat i) state.now }
{
    let planned = sum_of_products(narrow, 0, c.g_mat.row(i), plan);
    sum_of_products(narrow, planned, c.e_mat.row(i), state)
}

// One multiplier, from the one before it and the greatest of its row. It stays within the loop that calls it.
#[inline(always)]
fn multiplier_at(
    c: &ControllerParts,
    narrow: bool,
    state: &[i128],
    plan: &[i128],
    old: i128,
    top: i128,
    i: usize,
) -> i128
    requires setting { IsStepSetting (numbers c.now) narrow state.now }
    requires plan { AreWithin plan.now (plan_magnitudes (numbers c.now)) }
    requires old { unsigned_abs old ≤ unsigned_abs c.now.clamp }
    requires in_range { i < length c.now.bound.items }
    ensures { result ≡ int_min top (int_max (old +ℤ floor_of (row_sum (numbers c.now) state.now plan.now i) (2 ^ c.now.f)) (pos 0)) }
{
    let row = row_products(c, narrow, state, plan, i);
    multiplier_from(row, c.bound[i], old, top, c.f)
}

// The multipliers after a plan, in version 1, where the greatest of each row is the clamp.
fn move_multipliers(
    c: &ControllerParts,
    narrow: bool,
    state: &[i128],
    plan: &[i128],
    multipliers: &mut [i128],
)
    requires first { c.now.version ≡ text_version }
    requires setting { IsStepSetting (numbers c.now) narrow state.now }
    requires plan { AreWithin plan.now (plan_magnitudes (numbers c.now)) }
    requires multipliers { AreWithin multipliers.old (clamp_magnitudes (numbers c.now)) }
    ensures { multipliers.new ≡ next_multipliers (numbers c.now) state.now plan.now multipliers.old }
{
    for (i, l) in multipliers.iter_mut().enumerate() {
        *l = multiplier_at(c, narrow, state, plan, *l, c.clamp, i);
    }
}

// One raised multiplier, from the one before it: that and the clamp are lowered for the move, and the moved one is raised again. Most rows are
// lowered by no bit, and nothing of theirs is shifted. It stays within the loop that calls it.
#[inline(always)]
fn raised_multiplier_at(
    c: &ControllerParts,
    narrow: bool,
    state: &[i128],
    plan: &[i128],
    raised: i128,
    exps: &[u32],
    i: usize,
) -> i128
    requires setting { IsStepSetting (numbers c.now) narrow state.now }
    requires plan { AreWithin plan.now (plan_magnitudes (numbers c.now)) }
    requires raised { unsigned_abs raised ≤ unsigned_abs c.now.clamp }
    requires exps { exps.now ≡ c.now.exps.items }
    requires in_range { i < length c.now.bound.items }
    ensures { let lowering = lowering_of (numbers c.now) i in
        result ≡ next_multiplier (numbers c.now) state.now plan.now (floor_of raised (2 ^ lowering)) i *ℤ pos (2 ^ lowering) }
{
    // The products come first: they need the registers that the lowered ones would stay in.
    let row = row_products(c, narrow, state, plan, i);
    let lowering = lowering_at(c, exps, i);
    if lowering == 0 {
        multiplier_from(row, c.bound[i], raised, c.clamp, c.f)
    } else {
        let old = shifted_by(narrow, raised, lowering);
        let top = shifted_by(narrow, c.clamp, lowering);
        let next = multiplier_from(row, c.bound[i], old, top, c.f);
        scaled_by(narrow, next, lowering)
    }
}

// The loop of `move_raised`. It stays within each of the two calls there.
#[inline(always)]
fn move_rows(
    c: &ControllerParts,
    narrow: bool,
    state: &[i128],
    plan: &[i128],
    multipliers: &mut [i128],
)
    requires setting { IsStepSetting (numbers c.now) narrow state.now }
    requires plan { AreWithin plan.now (plan_magnitudes (numbers c.now)) }
    requires multipliers { AreWithin multipliers.old (clamp_magnitudes (numbers c.now)) }
    ensures { multipliers.new ≡ raised (numbers c.now) (next_multipliers (numbers c.now) state.now plan.now (unraised (numbers c.now) multipliers.old)) }
{
    let exps = exponents_of(c, multipliers.len());
    for (i, l) in multipliers.iter_mut().enumerate() {
        *l = raised_multiplier_at(c, narrow, state, plan, *l, exps, i);
    }
}

// The raised multipliers after a plan, from those before it. Each call is a loop of its own, which doesn't ask at each row how wide the
// factors are. It is never inlined, as it would take registers from the loop of version 1.
#[inline(never)]
fn move_raised(
    c: &ControllerParts,
    narrow: bool,
    state: &[i128],
    plan: &[i128],
    multipliers: &mut [i128],
)
    requires setting { IsStepSetting (numbers c.now) narrow state.now }
    requires plan { AreWithin plan.now (plan_magnitudes (numbers c.now)) }
    requires multipliers { AreWithin multipliers.old (clamp_magnitudes (numbers c.now)) }
    ensures { multipliers.new ≡ raised (numbers c.now) (next_multipliers (numbers c.now) state.now plan.now (unraised (numbers c.now) multipliers.old)) }
{
    if narrow {
        move_rows(c, true, state, plan, multipliers);
    } else {
        move_rows(c, false, state, plan, multipliers);
    }
}

// Adds a plan to the sums.
fn add_plan(plan: &[i128], sums: &mut [i128])
    requires long { length plan.now ≡ length sums.old }
    requires fit { (k : ℕ) → k < length plan.now → unsigned_abs (at sums.old k) + unsigned_abs (at plan.now k) ≤ 2 ^ 126 }
    ensures { sums.new ≡ added sums.old plan.now }
{
    for (j, sum) in sums.iter_mut().enumerate() {
        *sum += plan[j];
    }
}

// One step, in the four parts of the region's words. The multipliers there are raised, before it and after it.
fn make_step(
    c: &ControllerParts,
    narrow: bool,
    state: &[i128],
    multipliers: &mut [i128],
    plan: &mut [i128],
    sums: &mut [i128],
)
    requires setting { IsStepSetting (numbers c.now) narrow state.now }
    requires ready { IsReadyToStep (numbers c.now) (made_of plan.old multipliers.old sums.old) }
    ensures { made_of plan.new multipliers.new sums.new ≡ raised_step (numbers c.now) state.now (made_of plan.old multipliers.old sums.old) }
{
    make_plan(c, narrow, state, multipliers, plan);
    // In version 1 all exponents are the greatest, and raising changes nothing.
    let first = c.version == FIRST_VERSION;
    if first {
        move_multipliers(c, narrow, state, plan, multipliers);
    } else {
        move_raised(c, narrow, state, plan, multipliers);
    }
    add_plan(plan, sums);
}

// One step of the machine, in its region's words, which are lent in four parts. Where its factors are narrow, `narrow` may say so, and the
// step is faster.
pub fn advance(c: &ControllerParts, narrow: bool, words: &mut [i128])
    requires setting { IsStepSetting (numbers c.now) narrow (state_in (numbers c.now) words.old) }
    requires long { length words.old ≡ c.now.words }
    requires ready { IsReadyToStep (numbers c.now) (made_in (numbers c.now) words.old) }
    ensures { let state = state_in (numbers c.now) words.old in
        words.new ≡ words_of state (raised_step (numbers c.now) state (made_in (numbers c.now) words.old)) }
{
    let (state, rest) = words.split_at_mut(c.n);
    let (multipliers, rest) = rest.split_at_mut(c.m);
    let (plan, sums) = rest.split_at_mut(c.t.len());
    make_step(c, narrow, state, multipliers, plan, sums);
}
