// The absolute sums, with a test of each product and sum.
ghost use Rattle.std.specs.Prelude.{◌≡◌, ◌≤◌, ◌<◌, ◌+◌, ◌-◌, ◌*◌, ◌^◌, pos, max, take, length, unsigned_abs, slice_index_or, IfSome, IfNone};
ghost use Rattle.std.specs.Option.{SomeIff};
ghost use Rattle.integer_algebra.specs.Division.{ceil_div};
ghost use Rattle.qp_model.specs.machine.Controller.{numbers, IsSized};
ghost use Rattle.qp_model.specs.machine.AbsoluteSums.{IsController, weighted_abs_sum, state_magnitudes, clamp_magnitudes, entry_absolute_sum, plan_magnitudes, row_absolute_sum, greatest_of, greatest_sum};
ghost use Rattle.overflow_check.specs.FastController.{with_last_version};
ghost use Rattle.overflow_check.specs.Machines as machines;
ghost use Rattle.overflow_check.specs.Machines.{IsSizedFor, weights_for, greatest_entry_sum, greatest_row_sum, greatest_weighed};

use crate::machine::Machine;
use qp_model::{ControllerParts, MOST_INPUTS, MOST_ROWS, MOST_STAGES, MOST_STATES};

/// The most plan entries.
const MOST_ENTRIES: usize = MOST_INPUTS * MOST_STAGES;

// The number, where it is at most 2^126.
fn limited(x: u128) -> Option<u128>
    ensures { SomeIff result (x ≤ 2 ^ 126) x }
{
    if x <= 1 << 126 { Some(x) } else { None }
}

// `2^k`.
pub fn two_to(k: u32) -> u128
    requires { k ≤ 127 }
    ensures { result ≡ 2 ^ k }
{
    1 << k
}

// `x / 2^k`, rounded up.
fn ceil_shift(x: u128, k: u32) -> u128
    requires small { x ≤ 2 ^ 126 }
    requires bits { k ≤ 88 }
    ensures { result ≡ ceil_div x (2 ^ k) }
{
    (x + (two_to(k) - 1)) >> k
}

// The absolute values, each times its magnitude.
#[tactic(auto, using(crate::proofs::Greatest::sum_steps))]
fn weighted_abs_sum(row: &[i128], magnitudes: &[u128]) -> Option<u128>
    requires { length row.now ≡ length magnitudes.now }
    ensures { SomeIff result (weighted_abs_sum row.now magnitudes.now < 2 ^ 128) (weighted_abs_sum row.now magnitudes.now) }
{
    let mut sum = 0u128;
    for (i, x) in row.iter().enumerate() {
        let product = x.unsigned_abs().checked_mul(magnitudes[i])?;
        sum = sum.checked_add(product)?;
    }
    Some(sum)
}

// How far a state of the box lies from 0 in each coordinate; the list ends in zeros.
fn state_magnitudes(c: &ControllerParts) -> [u128; MOST_STATES]
    requires { IsSized (with_last_version (numbers c.now)) }
    ensures { take c.now.n result ≡ state_magnitudes (numbers c.now) }
{
    let mut magnitudes = [0; MOST_STATES];
    for i in 0..c.n {
        magnitudes[i] = c.lo[i].unsigned_abs().max(c.hi[i].unsigned_abs()) * two_to(c.f - c.g);
    }
    magnitudes
}

// How far the multipliers lie from 0.
fn clamp_magnitudes(c: &ControllerParts) -> [u128; MOST_ROWS]
    requires { IsSized (with_last_version (numbers c.now)) }
    ensures { take c.now.m result ≡ clamp_magnitudes (numbers c.now) }
{
    [c.clamp.unsigned_abs(); MOST_ROWS]
}

// `(own + offset * 2^f) * 2^s + dual`.
#[tactic(auto, using(crate::proofs::Greatest::entry_parts))]
fn entry_from(own: u128, offset: u128, dual: u128, f: u32, s: u32) -> Option<u128>
    requires f { f ≤ 48 }
    requires s { s ≤ 40 }
    ensures { SomeIff result ((own + offset * 2 ^ f) * 2 ^ s + dual ≤ 2 ^ 126) ((own + offset * 2 ^ f) * 2 ^ s + dual) }
{
    let own = own.checked_add(offset.checked_mul(two_to(f))?)?;
    limited(own.checked_mul(two_to(s))?.checked_add(dual)?)
}

// `planned + own + bound * 2^f`.
#[tactic(auto, using(crate::proofs::Greatest::row_parts))]
fn row_from(planned: u128, own: u128, bound: u128, f: u32) -> Option<u128>
    requires { f ≤ 48 }
    ensures { SomeIff result (planned + own + bound * 2 ^ f ≤ 2 ^ 126) (planned + own + bound * 2 ^ f) }
{
    let sum = planned.checked_add(own)?;
    limited(sum.checked_add(bound.checked_mul(two_to(f))?)?)
}

// The absolute sum that plan entry `j` is made of.
fn entry_absolute_sum(
    c: &ControllerParts,
    states: &[u128],
    clamps: &[u128],
    j: usize,
) -> Option<u128>
    requires sized { IsSized (with_last_version (numbers c.now)) }
    requires states { states.now ≡ state_magnitudes (numbers c.now) }
    requires clamps { clamps.now ≡ clamp_magnitudes (numbers c.now) }
    requires in_range { j < length c.now.t.items }
    ensures { SomeIff result (entry_absolute_sum (numbers c.now) j ≤ 2 ^ 126) (entry_absolute_sum (numbers c.now) j) }
{
    let own = weighted_abs_sum(c.p_mat.row(j), states)?;
    let dual = weighted_abs_sum(c.w_mat.row(j), clamps)?;
    entry_from(own, c.t[j].unsigned_abs(), dual, c.f, c.s)
}

// How far the plan's entries lie from 0, and the greatest of the sums that they are made of.
#[derive(Clone, Copy)]
struct PlanMagnitudes {
    magnitudes: [u128; MOST_ENTRIES],
    greatest: u128,
}

// The list ends in zeros.
#[tactic(auto, using(crate::proofs::Greatest::greatest_steps))]
fn plan_magnitudes(c: &ControllerParts, states: &[u128], clamps: &[u128]) -> Option<PlanMagnitudes>
    requires sized { IsSized (with_last_version (numbers c.now)) }
    requires states { states.now ≡ state_magnitudes (numbers c.now) }
    requires clamps { clamps.now ≡ clamp_magnitudes (numbers c.now) }
    ensures wide { IfNone result (¬ (greatest_entry_sum (numbers c.now) ≤ 2 ^ 126)) }
    ensures greatest { IfSome result (λ r. r.greatest ≡ greatest_entry_sum (numbers c.now)) }
    ensures magnitudes { IfSome result (λ r. take (length c.now.t.items) r.magnitudes ≡ plan_magnitudes (numbers c.now)) }
{
    let mut magnitudes = [0; MOST_ENTRIES];
    let mut greatest = 0;
    for j in 0..c.t.len() {
        let sum = entry_absolute_sum(c, states, clamps, j)?;
        magnitudes[j] = ceil_shift(sum, c.f + c.s);
        greatest = sum.max(greatest);
    }
    Some(PlanMagnitudes {
        magnitudes,
        greatest,
    })
}

// The absolute sum of row `i`.
fn row_absolute_sum(c: &ControllerParts, states: &[u128], plan: &[u128], i: usize) -> Option<u128>
    requires sized { IsSized (with_last_version (numbers c.now)) }
    requires states { states.now ≡ state_magnitudes (numbers c.now) }
    requires plan { plan.now ≡ plan_magnitudes (numbers c.now) }
    requires in_range { i < length c.now.bound.items }
    ensures { SomeIff result (row_absolute_sum (numbers c.now) i ≤ 2 ^ 126) (row_absolute_sum (numbers c.now) i) }
{
    let planned = weighted_abs_sum(c.g_mat.row(i), plan)?;
    let own = weighted_abs_sum(c.e_mat.row(i), states)?;
    row_from(planned, own, c.bound[i].unsigned_abs(), c.f)
}

// The greatest of the rows' sums.
#[tactic(auto, using(crate::proofs::Greatest::greatest_steps))]
fn greatest_row(c: &ControllerParts, states: &[u128], plan: &[u128]) -> Option<u128>
    requires sized { IsSized (with_last_version (numbers c.now)) }
    requires states { states.now ≡ state_magnitudes (numbers c.now) }
    requires plan { plan.now ≡ plan_magnitudes (numbers c.now) }
    ensures { SomeIff result (greatest_row_sum (numbers c.now) ≤ 2 ^ 126) (greatest_row_sum (numbers c.now)) }
{
    let mut greatest = 0;
    for i in 0..c.bound.len() {
        greatest = row_absolute_sum(c, states, plan, i)?.max(greatest);
    }
    Some(greatest)
}

// The greatest number.
#[tactic(auto, using(crate::proofs::Greatest::greatest_steps))]
fn greatest_of(numbers: &[u128]) -> u128
    ensures { result ≡ greatest_of numbers.now }
{
    let mut greatest = 0;
    for x in numbers {
        greatest = greatest.max(*x);
    }
    greatest
}

// What a machine weighs the multipliers and plans of a run by.
#[derive(Clone, Copy)]
struct Weights {
    // The greatest multiplier of any row.
    top: u128,
    // The greatest weight of a step.
    step: u128,
    // The weights of all steps together.
    all: u128,
    // Those that multipliers are summed by.
    held: u128,
}

fn weights_of(c: &ControllerParts, machine: Machine) -> Weights
    requires { IsSizedFor machine (numbers c.now) }
    ensures { result ≡ weights_for machine (numbers c.now) }
{
    let clamp = c.clamp.unsigned_abs();
    let steps = u128::from(c.steps);
    match machine {
        Machine::Plain => Weights {
            top: clamp,
            step: 1,
            all: steps,
            held: 0,
        },
        Machine::Accelerated => {
            let all = steps * (steps + 3) / 2;
            Weights {
                top: 2 * clamp,
                step: steps + 1,
                all,
                held: all,
            }
        }
    }
}

// What a run adds up by its weights, from the greatest of the rows' sums and of the plan's entries.
fn weighed(w: Weights, row: u128, plan: u128, f: u32) -> Option<u128>
    requires small { row ≤ 2 ^ 126 }
    requires bits { f ≤ 48 }
    ensures { SomeIff result (machines.weighed w row plan f ≤ 2 ^ 126) (machines.weighed w row plan f) }
{
    let next = w.step.checked_mul(ceil_shift(row, f))?.checked_add(w.top)?;
    let held = w.top.checked_mul(w.held)?;
    limited(next.max(held).max(w.all.checked_mul(plan)?))
}

// The greatest absolute sum, and how far the plan's entries lie from 0 at most.
#[derive(Clone, Copy)]
struct Greatest {
    sum: u128,
    plan: u128,
}

// From the greatest absolute values of states and multipliers, and weights. None where the sum is above 2^126.
fn greatest_within(
    c: &ControllerParts,
    w: Weights,
    states: &[u128],
    clamps: &[u128],
) -> Option<Greatest>
    requires sized { IsSized (with_last_version (numbers c.now)) }
    requires states { states.now ≡ state_magnitudes (numbers c.now) }
    requires clamps { clamps.now ≡ clamp_magnitudes (numbers c.now) }
    ensures { SomeIff result (greatest_weighed w (numbers c.now) ≤ 2 ^ 126)
        (record { sum = greatest_weighed w (numbers c.now); plan = greatest_of (plan_magnitudes (numbers c.now)) }) }
{
    let entries = plan_magnitudes(c, states, clamps)?;
    let magnitudes = &entries.magnitudes[..c.t.len()];
    let row = greatest_row(c, states, magnitudes)?;
    let plan = greatest_of(magnitudes);
    let run = weighed(w, row, plan, c.f)?;
    let sum = limited(greatest_of(states).max(entries.greatest).max(row).max(run))?;
    Some(Greatest { sum, plan })
}

// Those of a controller of this machine.
fn greatest_numbers(parts: &ControllerParts, machine: Machine) -> Option<Greatest>
    requires { IsSizedFor machine (numbers parts.now) }
    ensures { SomeIff result (machines.greatest_for machine (numbers parts.now) ≤ 2 ^ 126)
        (record { sum = machines.greatest_for machine (numbers parts.now); plan = greatest_of (plan_magnitudes (numbers parts.now)) }) }
{
    let states = state_magnitudes(parts);
    let clamps = clamp_magnitudes(parts);
    let weights = weights_of(parts, machine);
    greatest_within(parts, weights, &states[..parts.n], &clamps[..parts.m])
}

/// The greatest absolute sum: no value that this machine meets in a run from a state of the box is above it. None where
/// it is above `2^126`.
pub fn greatest_for(parts: &ControllerParts, machine: Machine) -> Option<i128>
    requires { IsSizedFor machine (numbers parts.now) }
    ensures { SomeIff result (machines.greatest_for machine (numbers parts.now) ≤ 2 ^ 126) (pos (machines.greatest_for machine (numbers parts.now))) }
{
    Some(greatest_numbers(parts, machine)?.sum as i128)
}

/// That of the plain machine.
pub fn greatest_sum(parts: &ControllerParts) -> Option<i128>
    requires { IsSized (numbers parts.now) }
    ensures { SomeIff result (greatest_sum (numbers parts.now) ≤ 2 ^ 126) (pos (greatest_sum (numbers parts.now))) }
{
    greatest_for(parts, Machine::Plain)
}

/// How far the plan's entries lie from 0 at most in a run of this machine from a state of the box, over `2^f`. None where its
/// greatest absolute sum is above `2^126`.
pub fn plan_sum_for(parts: &ControllerParts, machine: Machine) -> Option<i128>
    requires { IsSizedFor machine (numbers parts.now) }
    ensures { SomeIff result (machines.greatest_for machine (numbers parts.now) ≤ 2 ^ 126) (pos (greatest_of (plan_magnitudes (numbers parts.now)))) }
{
    Some(greatest_numbers(parts, machine)?.plan as i128)
}

/// That of the plain machine.
pub fn plan_sum(parts: &ControllerParts) -> Option<i128>
    requires { IsSized (numbers parts.now) }
    ensures { SomeIff result (greatest_sum (numbers parts.now) ≤ 2 ^ 126) (pos (greatest_of (plan_magnitudes (numbers parts.now)))) }
{
    plan_sum_for(parts, Machine::Plain)
}

/// How far plan entry `j` lies from 0 at most in a run of either machine from a state of the box, over `2^f`.
pub fn plan_entry_magnitude(parts: &ControllerParts, j: usize) -> u128
    requires sound { IsController (with_last_version (numbers parts.now)) }
    requires in_range { j < length parts.now.t.items }
    ensures { result ≡ slice_index_or (plan_magnitudes (numbers parts.now)) j 0 }
{
    let states = state_magnitudes(parts);
    let clamps = clamp_magnitudes(parts);
    match entry_absolute_sum(parts, &states[..parts.n], &clamps[..parts.m], j) {
        Some(sum) => ceil_shift(sum, parts.f + parts.s),
        None => unreachable!(),
    }
}

/// How far coordinate `k` of a state of the box lies from 0 at most, over `2^f`.
pub fn state_magnitude(parts: &ControllerParts, k: usize) -> u128
    requires sized { IsSized (with_last_version (numbers parts.now)) }
    requires in_range { k < parts.now.n }
    ensures { result ≡ slice_index_or (state_magnitudes (numbers parts.now)) k 0 }
{
    let states = state_magnitudes(parts);
    states[k]
}

/// How far the sum of row `i` lies from 0 at most in a run of either machine, over `2^f`, rounded up. `plan` has the magnitudes of the plan's entries.
pub fn row_magnitude(parts: &ControllerParts, plan: &[u128], i: usize) -> u128
    requires sound { IsController (with_last_version (numbers parts.now)) }
    requires plan { plan.now ≡ plan_magnitudes (numbers parts.now) }
    requires in_range { i < length parts.now.bound.items }
    ensures { result ≡ ceil_div (row_absolute_sum (numbers parts.now) i) (2 ^ parts.now.f) }
{
    let states = state_magnitudes(parts);
    match row_absolute_sum(parts, &states[..parts.n], plan, i) {
        Some(sum) => ceil_shift(sum, parts.f),
        None => unreachable!(),
    }
}
