// The plant's next state.
ghost use Rattle.std.specs.Prelude.{◌≡◌, ℕ, ◌≤◌, ◌<◌, ◌+◌, ◌^◌, ◌+ℤ◌, length, map, unsigned_abs};
ghost use Rattle.std.specs.List.{range_with_len};
ghost use Rattle.mat_int.specs.Matrix.{entry_of};
ghost use Rattle.integer_algebra.specs.Sums.{at, image};
ghost use Rattle.integer_algebra.specs.Division.{round_of, IsNearest};
ghost use Rattle.qp_model.specs.machine.Machine.{IsAdmissible};
ghost use Rattle.qp_model.specs.problem.Parts.{IsDesign, design_of};
ghost use Rattle.qp_model.specs.machine.Successor.{IsFor};
ghost use Rattle.closed_loop.specs.Looping.{IsLooping, next_sum_by, next_over_by, successor_by, turn_size_by};
ghost use Rattle.closed_loop.specs.Under.{AreSmallShifts};

use crate::machine::ControlMachine;
use crate::size::{grid_scale, next_over};
use frac_scaled::round_div;
use mat_int::dot;
use packed_rows::RowWalk;
use qp_model::{Design, DesignParts};

// Row `i` of the plant's inputs, at the first inputs' sums from this state.
fn input_sum<M: ControlMachine>(design: &DesignParts, machine: &M, state: &[i128], i: usize) -> i128
    requires sound { IsLooping (M.looping machine.now) }
    requires done { M.done machine.now }
    requires state { M.runs_from machine.now state.now }
    requires inside { IsAdmissible (M.looping machine.now).controller state.now }
    requires matched { IsFor (M.looping machine.now).controller (design_of design.now) }
    requires narrow { turn_size_by (design_of design.now) (M.looping machine.now) ≤ 2 ^ 126 }
    requires design { IsDesign design.now }
    requires in_range { i < design.now.states }
    ensures { result ≡ image design.now.inputs (design_of design.now).plant_b (at ((M.looping machine.now).plan state.now)) i }
{
    let mut sum = 0;
    for l in 0..design.inputs {
        sum += design.b.at(i, l) * machine.first_input(l);
    }
    sum
}

// Coordinate `i` of the next state over `2^g`, as a numerator over `next_over`.
fn next_sum<M: ControlMachine>(design: &DesignParts, machine: &M, state: &[i128], i: usize) -> i128
    requires design { IsDesign design.now }
    requires done { M.done machine.now }
    requires state { M.runs_from machine.now state.now }
    requires matched { IsFor (M.looping machine.now).controller (design_of design.now) }
    requires narrow { turn_size_by (design_of design.now) (M.looping machine.now) ≤ 2 ^ 126 }
    requires in_range { i < design.now.states }
    ensures { result ≡ next_sum_by (design_of design.now) (M.looping machine.now) state.now i }
{
    let scale = grid_scale(machine);
    let own = dot(design.a.row(i), state) * scale;
    own + input_sum(design, machine, state, i)
}

// Coordinate `i` of the next state, over `2^g`.
fn next_coordinate<M: ControlMachine>(
    design: &DesignParts,
    machine: &M,
    state: &[i128],
    i: usize,
) -> i128
    requires design { IsDesign design.now }
    requires done { M.done machine.now }
    requires state { M.runs_from machine.now state.now }
    requires matched { IsFor (M.looping machine.now).controller (design_of design.now) }
    requires narrow { turn_size_by (design_of design.now) (M.looping machine.now) ≤ 2 ^ 126 }
    requires in_range { i < design.now.states }
    ensures value { result ≡ round_of (next_sum_by (design_of design.now) (M.looping machine.now) state.now i)
        (next_over_by (design_of design.now) (M.looping machine.now)) }
    ensures nearest { IsNearest (next_sum_by (design_of design.now) (M.looping machine.now) state.now i)
        (next_over_by (design_of design.now) (M.looping machine.now)) result }
    ensures small { unsigned_abs result ≤ 2 ^ 126 }
{
    let over = next_over(design, machine);
    round_div(next_sum(design, machine, state, i), over)
}

/// The state of the plant, over `2^g`, after the state that all steps were made from: under the first inputs of the averaged
/// plan, to the nearest whole numbers, and a tie upward.
pub fn next_state<M: ControlMachine>(
    design: &Design,
    machine: &M,
    state: &[i128],
    next: &mut [i128],
)
    requires done { M.done machine.now }
    requires state { M.runs_from machine.now state.now }
    requires matched { IsFor (M.looping machine.now).controller (design_of design.now) }
    requires narrow { turn_size_by (design_of design.now) (M.looping machine.now) ≤ 2 ^ 126 }
    requires next { length next.old ≡ (M.looping machine.now).controller.states }
    ensures value { next.new ≡ successor_by (design_of design.now) (M.looping machine.now) state.now }
    ensures nearest { (i : ℕ) → i < (M.looping machine.now).controller.states →
        IsNearest (next_sum_by (design_of design.now) (M.looping machine.now) state.now i)
        (next_over_by (design_of design.now) (M.looping machine.now)) (at next.new i) }
    ensures small { (i : ℕ) → i < (M.looping machine.now).controller.states → unsigned_abs (at next.new i) ≤ 2 ^ 126 }
{
    let parts = design.parts();
    for i in 0..next.len() {
        next[i] = next_coordinate(parts, machine, state, i);
    }
}

/// Adds the row of a turn, counted from 0, to a state over `2^g`, where there is that row; it is the next of the walk.
pub fn shift_state(shifts: &mut RowWalk, turn: usize, state: &mut [i128])
    requires width { 0 < length shifts.old.rows.rows → shifts.old.rows.cols ≡ length state.old }
    requires shifts { AreSmallShifts shifts.old.rows }
    requires next { turn < length shifts.old.rows.rows → shifts.old.next ≡ turn }
    requires room { (i : ℕ) → i < length state.old → unsigned_abs (at state.old i) ≤ 2 ^ 126 }
    ensures shifted { state.new ≡ map (λ i. at state.old i +ℤ entry_of shifts.old.rows turn i) (range_with_len 0 (length state.old)) }
    ensures next { turn < length shifts.old.rows.rows → shifts.new.next ≡ turn + 1 }
    ensures rows { shifts.new.rows ≡ shifts.old.rows }
{
    if turn < shifts.rows() {
        shifts.step();
        add_row(shifts.row(), state);
    }
}

// Adds a row to a state.
fn add_row(row: &[i128], state: &mut [i128])
    requires width { length row.now ≡ length state.old }
    requires small { (i : ℕ) → unsigned_abs (at row.now i) < 2 ^ 31 }
    requires room { (i : ℕ) → i < length state.old → unsigned_abs (at state.old i) ≤ 2 ^ 126 }
    ensures { state.new ≡ map (λ i. at state.old i +ℤ at row.now i) (range_with_len 0 (length state.old)) }
{
    for i in 0..state.len() {
        state[i] += row[i];
    }
}
