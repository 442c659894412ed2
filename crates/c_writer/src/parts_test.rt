// Whether a controller has a program: whether its sums fit 64 bits, whole or in two parts.
ghost use Rattle.std.specs.Prelude.{◌<◌, ◌≤◌, ◌*◌, ◌^◌, ◌↔◌, ℕ, IsTrue, IfOk, All, unsigned_abs};
ghost use Rattle.qp_model.specs.machine.Controller.{numbers};
ghost use Rattle.overflow_check.specs.Machines.{IsControllerFor};
ghost use Rattle.c_program.specs.Of.{state_top};
ghost use Rattle.c_program.specs.InParts.{HasParts, HasProgram};
ghost use Rattle.c_writer.specs.Terms.{IsShortGain, IsShortFactor};
ghost use Rattle.c_writer.specs.Measured.{controller_in, entry_count, row_count, sizes_in};

use crate::measured::Measured;
use crate::measuring::{lists_of, measured};
use crate::tops::{lowering_at, moved_top, reached_top, sum_top};
use overflow_check::Machine;
use qp_model::ControllerParts;
use std::alloc::{AllocError, Global};

// Whether each of these numbers is below 2^37.
fn are_short(xs: &[i128]) -> bool
    ensures { IsTrue result ↔ All (λ x. unsigned_abs x < 2 ^ 37) xs.now }
{
    xs.iter().all(|x| x.unsigned_abs() < 1 << 37)
}

// Whether each of these is.
fn are_sizes_short(sizes: &[u128]) -> bool
    ensures { IsTrue result ↔ All (λ x. x < 2 ^ 37) sizes.now }
{
    sizes.iter().all(|size| *size < 1 << 37)
}

// Whether each coordinate of a state is.
fn are_states_short(from: &Measured) -> bool
    ensures { IsTrue result ↔ ((k : ℕ) → k < (controller_in from.now).states → state_top (controller_in from.now) k < 2 ^ 37) }
{
    are_sizes_short(from.states)
}

// Whether a number times `2^k` is.
fn is_short(size: u128, k: u32) -> bool
    requires { k ≤ 40 }
    ensures { IsTrue result ↔ (size * 2 ^ k < 2 ^ 37) }
{
    size.min(1 << 37) << k < 1 << 37
}

// Whether the gain of plan entry `j` on the multiplier of row `i` is.
fn is_gain_short(from: &Measured, j: usize, i: usize) -> bool
    requires entry { j < entry_count from.now }
    requires row { i < row_count from.now }
    ensures { IsTrue result ↔ IsShortGain (controller_in from.now) j i }
{
    let row = from.c.w_mat.row(j);
    is_short(row[i].unsigned_abs(), lowering_at(from.c, i))
}

// Whether each gain of plan entry `j` is.
fn are_gains_short(from: &Measured, j: usize) -> bool
    requires in_range { j < entry_count from.now }
    ensures { IsTrue result ↔ ((i : ℕ) → i < row_count from.now → IsShortGain (controller_in from.now) j i) }
{
    for i in 0..from.c.bound.len() {
        if !is_gain_short(from, j, i) {
            return false;
        }
    }
    true
}

// Whether all gains are.
fn are_all_gains_short(from: &Measured) -> bool
    ensures { IsTrue result ↔ ((j : ℕ) → j < entry_count from.now → (i : ℕ) → i < row_count from.now → IsShortGain (controller_in from.now) j i) }
{
    for j in 0..from.c.t.len() {
        if !are_gains_short(from, j) {
            return false;
        }
    }
    true
}

// Whether each number of row `i` is.
fn is_row_short(from: &Measured, i: usize) -> bool
    requires in_range { i < row_count from.now }
    ensures { IsTrue result ↔ ((j : ℕ) → j < entry_count from.now → IsShortFactor (controller_in from.now) i j) }
{
    are_short(from.c.g_mat.row(i))
}

// Whether each number of each row is.
fn are_rows_short(from: &Measured) -> bool
    ensures { IsTrue result ↔ ((i : ℕ) → i < row_count from.now → (j : ℕ) → j < entry_count from.now → IsShortFactor (controller_in from.now) i j) }
{
    for i in 0..from.c.bound.len() {
        if !is_row_short(from, i) {
            return false;
        }
    }
    true
}

// Whether a number fits 64 bits with its sign.
fn does_fit(size: u128) -> bool
    ensures { IsTrue result ↔ (size < 2 ^ 63) }
{
    size < 1 << 63
}

// Whether each multiplier on its way to the next one fits 64 bits.
fn do_moved_fit(from: &Measured) -> bool
    ensures { IsTrue result ↔ ((i : ℕ) → i < row_count from.now → (sizes_in from.now).moved i < 2 ^ 63) }
{
    for i in 0..from.c.bound.len() {
        if !does_fit(moved_top(from, i)) {
            return false;
        }
    }
    true
}

// Whether each sum of plan entries does.
fn do_sums_fit(from: &Measured) -> bool
    ensures { IsTrue result ↔ ((j : ℕ) → j < entry_count from.now → (sizes_in from.now).sum j < 2 ^ 63) }
{
    for j in 0..from.c.t.len() {
        if !does_fit(sum_top(from, j)) {
            return false;
        }
    }
    true
}

// Whether the program of a controller can be made in two parts.
fn has_parts(from: &Measured) -> bool
    ensures { IsTrue result ↔ HasParts from.now.machine (controller_in from.now) }
{
    from.c.w <= 79
        && from.c.f >= 16
        && are_states_short(from)
        && are_all_gains_short(from)
        && are_rows_short(from)
        && do_moved_fit(from)
        && do_sums_fit(from)
        && does_fit(reached_top(from))
}

/// Whether a controller of this machine has a program.
pub fn has_program(alloc: Global, machine: Machine, c: &ControllerParts) -> Result<bool, AllocError>
    requires { IsControllerFor machine (numbers c.now) }
    ensures { IfOk result (λ found. IsTrue found ↔ HasProgram machine (numbers c.now)) }
{
    if c.w <= 64 {
        return Ok(true);
    }
    let lists = lists_of(alloc, c)?;
    let found = has_parts(&measured(alloc, machine, c, &lists));
    Ok(found)
}
