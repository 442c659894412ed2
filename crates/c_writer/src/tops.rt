// The greatest absolute values of variables.
ghost use Rattle.std.specs.Prelude.{◌≡◌, ◌<◌, ◌≤◌, ◌*◌, ◌^◌, pos, ◌*ℤ◌, neg_ℤ, length, IfOk, unsigned_abs};
ghost use Rattle.integer_algebra.specs.Sums.{at};
ghost use Rattle.qp_model.specs.machine.Controller.{numbers};
ghost use Rattle.qp_model.specs.machine.Machine.{lowering_of, top_of};
ghost use Rattle.qp_model.specs.machine.AbsoluteSums.{IsController, state_magnitudes, plan_magnitudes};
ghost use Rattle.overflow_check.specs.FastMachine.{fast_top};
ghost use Rattle.overflow_check.specs.FastController.{with_last_version};
ghost use Rattle.overflow_check.specs.declared.machine.Machine.TheVariants.{Accelerated};
ghost use Rattle.c_program.specs.Of.{multiplier_top};
ghost use Rattle.c_program.specs.ByMachine.{top_for, plans_for};
ghost use Rattle.c_language.specs.Syntax.{variable};
ghost use Rattle.c_language.specs.Syntax.Family.{RowSum};
ghost use Rattle.c_language.specs.Text.{kind_text};
ghost use Rattle.c_writer.specs.Terms.{move_bits};
ghost use Rattle.c_writer.specs.Measured.{controller_in, entry_count, row_count, sizes_in, kinds_in, held_family, held_size};

use crate::measured::{Held, Measured};
use crate::shared::row_bits_at;
use crate::words::kind_word;
use frac_scaled::{floor_shift, scaled};
use overflow_check::{Machine, plan_entry_magnitude, row_magnitude, state_magnitude};
use qp_model::ControllerParts;
use std::alloc::{AllocError, Global};

// By how many bits the step exponent of row `i` is below the greatest.
pub fn lowering_at(c: &ControllerParts, i: usize) -> u32
    requires sound { IsController (with_last_version (numbers c.now)) }
    requires in_range { i < length c.now.bound.items }
    ensures value { result ≡ lowering_of (numbers c.now) i }
    ensures bits { result ≤ 40 }
{
    c.s - c.exps[i]
}

// The greatest multiplier of row `i`.
pub fn top_at(c: &ControllerParts, i: usize) -> i128
    requires sound { IsController (with_last_version (numbers c.now)) }
    requires in_range { i < length c.now.bound.items }
    ensures value { result ≡ top_of (numbers c.now) i }
    ensures small { unsigned_abs result < 2 ^ 127 }
{
    floor_shift(c.clamp, lowering_at(c, i))
}

// Of multiplier `i`.
pub fn multiplier_top(c: &ControllerParts, i: usize) -> u128
    requires sound { IsController (with_last_version (numbers c.now)) }
    requires in_range { i < length c.now.bound.items }
    ensures { result ≡ multiplier_top (numbers c.now) i }
{
    floor_shift(c.clamp, lowering_at(c, i)).unsigned_abs()
}

// Of the plan's entries.
pub fn plan_tops(alloc: Global, c: &ControllerParts) -> Result<Vec<u128>, AllocError>
    requires { IsController (with_last_version (numbers c.now)) }
    ensures { IfOk result (λ v. v.items ≡ plan_magnitudes (numbers c.now)) }
{
    let mut tops = Vec::new(alloc);
    for j in 0..c.t.len() {
        tops.push(plan_entry_magnitude(c, j))?;
    }
    Ok(tops)
}

// Of the state.
pub fn state_tops(alloc: Global, c: &ControllerParts) -> Result<Vec<u128>, AllocError>
    requires { IsController (with_last_version (numbers c.now)) }
    ensures { IfOk result (λ v. v.items ≡ state_magnitudes (numbers c.now)) }
{
    let mut tops = Vec::new(alloc);
    for k in 0..c.n {
        tops.push(state_magnitude(c, k))?;
    }
    Ok(tops)
}

// How many plans the sums of a run are of, each as often as its weight.
pub fn plans_of(from: &Measured) -> u32
    ensures value { result ≡ plans_for from.now.machine (controller_in from.now) }
    ensures some { 0 < result }
{
    match from.machine {
        Machine::Plain => from.c.steps,
        Machine::Accelerated => (u64::from(from.c.steps) * (u64::from(from.c.steps) + 3)
            / 2) as u32,
    }
}

// Of the sum of plan entry `j`.
pub fn sum_top(from: &Measured, j: usize) -> u128
    requires in_range { j < entry_count from.now }
    ensures { result ≡ (sizes_in from.now).sum j }
{
    u128::from(plans_of(from)) * from.plan[j]
}

// Of multiplier `i` before it is clamped.
pub fn moved_top(from: &Measured, i: usize) -> u128
    requires in_range { i < row_count from.now }
    ensures { result ≡ (sizes_in from.now).moved i }
{
    let clamp = from.c.clamp.unsigned_abs();
    let row = row_magnitude(from.c, from.plan, i);
    match from.machine {
        Machine::Plain => clamp + row,
        Machine::Accelerated => 2 * clamp + (u128::from(from.c.steps) + 1) * row,
    }
}

// The greatest multiplier of row `i` of the accelerated machine.
pub fn fast_top_at(from: &Measured, i: usize) -> i128
    requires machine { from.now.machine ≡ Accelerated }
    requires in_range { i < row_count from.now }
    ensures value { result ≡ fast_top (controller_in from.now) i }
    ensures small { unsigned_abs result < 2 ^ 127 }
{
    floor_shift(2 * from.c.clamp, lowering_at(from.c, i))
}

// What multiplier `i` is kept to when it is moved.
pub fn limit_at(from: &Measured, i: usize) -> i128
    requires in_range { i < row_count from.now }
    ensures value { result ≡ top_for from.now.machine (controller_in from.now) i }
    ensures small { unsigned_abs result < 2 ^ 127 }
{
    match from.machine {
        Machine::Plain => top_at(from.c, i),
        Machine::Accelerated => fast_top_at(from, i),
    }
}

// Of the accelerated machine's multiplier `i`, and 0 of the plain one.
fn own_top(from: &Measured, i: usize) -> u128
    requires in_range { i < row_count from.now }
    ensures { result ≡ (sizes_in from.now).own i }
{
    match from.machine {
        Machine::Plain => 0,
        Machine::Accelerated => fast_top_at(from, i).unsigned_abs(),
    }
}

// Of their sums by weights.
pub fn reached_top(from: &Measured) -> u128
    ensures { result ≡ (sizes_in from.now).reached }
{
    match from.machine {
        Machine::Plain => 0,
        Machine::Accelerated => 2 * from.c.clamp.unsigned_abs() * u128::from(plans_of(from)),
    }
}

// Of what a mean is divided by.
pub fn divisor_top(from: &Measured) -> u128
    ensures { result ≡ (sizes_in from.now).divisor }
{
    let steps = u128::from(from.c.steps);
    match from.machine {
        Machine::Plain => 0,
        Machine::Accelerated => (steps + 1) * (steps + 4),
    }
}

// Of what is held of row `i`.
fn held_top(from: &Measured, held: Held, i: usize) -> u128
    requires in_range { i < row_count from.now }
    ensures { result ≡ held_size from.now held i }
{
    match held {
        Held::Planned => multiplier_top(from.c, i),
        Held::Kept => own_top(from, i),
        Held::Added => reached_top(from),
        Held::Near => (1 << 31) - 1,
    }
}

// Its type.
pub fn held_kind(from: &Measured, held: Held, i: usize) -> &'static str
    requires in_range { i < row_count from.now }
    ensures { result.now ≡ kind_text (kinds_in from.now (variable (held_family held) i)) }
{
    kind_word(held_top(from, held, i))
}

// By how many bits the sum of row `i` is lowered where it moves its multiplier; in parts it already is.
pub fn move_bits_at(from: &Measured, i: usize) -> u32
    requires in_range { i < row_count from.now }
    ensures value { result ≡ move_bits from.now.parted (controller_in from.now) i }
    ensures few { result ≤ 48 }
{
    if from.parted {
        0
    } else {
        from.c.f - row_bits_at(from, i)
    }
}

// The type of the sum of row `i`, without the power of two that its factors share.
pub fn row_kind(from: &Measured, i: usize) -> &'static str
    requires in_range { i < row_count from.now }
    ensures { result.now ≡ kind_text (kinds_in from.now (variable RowSum i)) }
{
    let next = from.c.clamp.unsigned_abs() + row_magnitude(from.c, from.plan, i);
    kind_word(next.min(1 << 31) << move_bits_at(from, i))
}

// The offset of plan entry `j`, over `2^(2f + s)`.
pub fn offset_at(c: &ControllerParts, j: usize) -> i128
    requires sound { IsController (with_last_version (numbers c.now)) }
    requires in_range { j < length c.now.t.items }
    ensures value { result ≡ at c.now.t.items j *ℤ pos (2 ^ c.now.f) *ℤ pos (2 ^ c.now.s) }
    ensures small { unsigned_abs result < 2 ^ 127 }
{
    scaled(scaled(c.t[j], c.f), c.s)
}

// The bound of row `i` with the other sign, over `2^(2f)`.
pub fn bound_at(c: &ControllerParts, i: usize) -> i128
    requires sound { IsController (with_last_version (numbers c.now)) }
    requires in_range { i < length c.now.bound.items }
    ensures value { result ≡ neg_ℤ (at c.now.bound.items i *ℤ pos (2 ^ c.now.f)) }
    ensures small { unsigned_abs result < 2 ^ 127 }
{
    -scaled(c.bound[i], c.f)
}
