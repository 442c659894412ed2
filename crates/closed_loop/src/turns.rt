// A closed loop, turn by turn.
ghost use Rattle.std.specs.Prelude.{◌≡◌, ℕ, ◌≤◌, ◌<◌, ◌^◌, ◌++◌, length, Err, option_map, OnOk, IfErr};
ghost use Rattle.qp_model.specs.machine.Machine.{IsAdmissible};
ghost use Rattle.qp_model.specs.problem.Parts.{design_of};
ghost use Rattle.qp_model.specs.machine.Successor.{IsFor};
ghost use Rattle.closed_loop.specs.Looping.{turn_size_by, line_by};
ghost use Rattle.closed_loop.specs.Answers.{LieInside};
ghost use Rattle.closed_loop.specs.Under.{AreSmallShifts, unshifted_by, unshifted_lines_by, states_by, lines_by};
ghost use Rattle.closed_loop.specs.Shows.{TurnShows, LoopShows, LoopEnds};

use crate::fault::LoopFault;
use crate::line::loop_line;
use crate::machine::ControlMachine;
use crate::size::turn_size;
use crate::successor::{next_state, shift_state};
use io_edge::Sink;
use packed_rows::{PackedRows, RowWalk};
use qp_model::{Design, Quantity};
use std::alloc::Global;
use std::mem::swap;

// A turn at a state: the state is tested, all steps are made from it, and the line is put.
fn make_turn<M: ControlMachine, O: Sink>(
    alloc: Global,
    machine: &mut M,
    entry: u32,
    turn: u32,
    state: &[i128],
    out: &mut O,
) -> Result<(), LoopFault>
    requires { length state.now ≡ (M.looping machine.old).controller.states }
    ensures inside { OnOk result (IsAdmissible (M.looping machine.old).controller state.now) }
    ensures done { OnOk result (M.done machine.new) }
    ensures made { OnOk result (M.runs_from machine.new state.now) }
    ensures put { OnOk result (O.got out.new ≡ option_map (λ old. old ++ line_by (M.looping machine.old) entry turn state.now) (O.got out.old)) }
    ensures refused { IfErr result (TurnShows (M.looping machine.old) entry turn state.now
        (O.got out.old) (O.got out.new) (O.faults out.old) (O.faults out.new)) }
    ensures quiet { (number coordinate : ℕ) → result ≡ Err (LoopFault.OutsideBox number coordinate) → (number ≡ turn) × (out.new ≡ out.old) }
    ensures no_fewer { O.faults out.old ≤ O.faults out.new }
    ensures same { M.looping machine.new ≡ M.looping machine.old }
{
    if let Some(coordinate) = machine.run(state) {
        return Err(LoopFault::OutsideBox { turn, coordinate });
    }
    let line = loop_line(alloc, machine, entry, turn, state)?;
    match out.put(&line) {
        Ok(()) => Ok(()),
        Err(_) => Err(LoopFault::WriteFault),
    }
}

// The turns from a start, each of which is shifted by its row where there is one, from a walk before the first, where the quantity `turn` is within its limit.
fn run_turns<M: ControlMachine, O: Sink>(
    alloc: Global,
    design: &Design,
    machine: &mut M,
    entry: u32,
    start: &[i128],
    turns: u32,
    shifts: &mut RowWalk,
    out: &mut O,
) -> Result<(), LoopFault>
    requires matched { IsFor (M.looping machine.old).controller (design_of design.now) }
    requires narrow { turn_size_by (design_of design.now) (M.looping machine.old) ≤ 2 ^ 126 }
    requires start { length start.now ≡ (M.looping machine.old).controller.states }
    requires width { 0 < length shifts.old.rows.rows → shifts.old.rows.cols ≡ (M.looping machine.old).controller.states }
    requires next { shifts.old.next ≡ 0 }
    requires shifts { AreSmallShifts shifts.old.rows }
    ensures inside { OnOk result (LieInside (M.looping machine.old).controller
        (states_by (design_of design.now) (M.looping machine.old) start.now shifts.old.rows) turns) }
    ensures put { OnOk result (O.got out.new ≡
        option_map (λ old. old ++ lines_by (design_of design.now) (M.looping machine.old) entry start.now shifts.old.rows turns) (O.got out.old)) }
    ensures refused { IfErr result (LoopShows (M.looping machine.old).controller (states_by (design_of design.now) (M.looping machine.old) start.now shifts.old.rows)
        (lines_by (design_of design.now) (M.looping machine.old) entry start.now shifts.old.rows) turns
        (O.got out.old) (O.got out.new) (O.faults out.old) (O.faults out.new)) }
    ensures quiet { (coordinate : ℕ) → result ≡ Err (LoopFault.OutsideBox 1 coordinate) → out.new ≡ out.old }
    ensures no_fewer { O.faults out.old ≤ O.faults out.new }
    ensures same { M.looping machine.new ≡ M.looping machine.old }
    ensures rows { shifts.new.rows ≡ shifts.old.rows }
{
    let mut state = Vec::from_slice(alloc, start)?;
    let mut next = Vec::from_slice(alloc, start)?;
    for gone in 0..turns {
        make_turn(alloc, machine, entry, gone + 1, &state, out)?;
        next_state(design, machine, &state, &mut next);
        shift_state(shifts, gone as usize, &mut next);
        swap(&mut state, &mut next);
    }
    Ok(())
}

// The same without shifts.
fn run_unshifted<M: ControlMachine, O: Sink>(
    alloc: Global,
    design: &Design,
    machine: &mut M,
    entry: u32,
    start: &[i128],
    turns: u32,
    out: &mut O,
) -> Result<(), LoopFault>
    requires matched { IsFor (M.looping machine.old).controller (design_of design.now) }
    requires narrow { turn_size_by (design_of design.now) (M.looping machine.old) ≤ 2 ^ 126 }
    requires start { length start.now ≡ (M.looping machine.old).controller.states }
    ensures inside { OnOk result (LieInside (M.looping machine.old).controller (unshifted_by (design_of design.now) (M.looping machine.old) start.now) turns) }
    ensures put { OnOk result (O.got out.new ≡
        option_map (λ old. old ++ unshifted_lines_by (design_of design.now) (M.looping machine.old) entry start.now turns) (O.got out.old)) }
    ensures refused { IfErr result (LoopShows (M.looping machine.old).controller (unshifted_by (design_of design.now) (M.looping machine.old) start.now)
        (unshifted_lines_by (design_of design.now) (M.looping machine.old) entry start.now) turns
        (O.got out.old) (O.got out.new) (O.faults out.old) (O.faults out.new)) }
    ensures quiet { (coordinate : ℕ) → result ≡ Err (LoopFault.OutsideBox 1 coordinate) → out.new ≡ out.old }
    ensures no_fewer { O.faults out.old ≤ O.faults out.new }
    ensures same { M.looping machine.new ≡ M.looping machine.old }
{
    let none = PackedRows::new(alloc, 0);
    let mut shifts = none.walk(alloc)?;
    run_turns(
        alloc,
        design,
        machine,
        entry,
        start,
        turns,
        &mut shifts,
        out,
    )
}

/// The lines of a record's closed loop from a start, over `2^g`, turn by turn, to a sink: the controller's machine is run from the state,
/// the line is put, and the plant goes on. `TooWide` where the quantity `turn` is above `2^126`, before any line;
/// `OutsideBox` at the first turn whose state lies outside the box, with the lines of the turns before it put.
pub fn run_loop<M: ControlMachine, O: Sink>(
    alloc: Global,
    design: &Design,
    machine: &mut M,
    entry: u32,
    start: &[i128],
    turns: u32,
    out: &mut O,
) -> Result<(), LoopFault>
    requires matched { IsFor (M.looping machine.old).controller (design_of design.now) }
    requires start { length start.now ≡ (M.looping machine.old).controller.states }
    ensures ends { LoopEnds (M.looping machine.old).controller (unshifted_by (design_of design.now) (M.looping machine.old) start.now)
        (unshifted_lines_by (design_of design.now) (M.looping machine.old) entry start.now) turns (turn_size_by (design_of design.now) (M.looping machine.old))
        (O.got out.old) (O.got out.new) (O.faults out.old) (O.faults out.new) (out.new ≡ out.old) result }
    ensures no_fewer { O.faults out.old ≤ O.faults out.new }
    ensures same { M.looping machine.new ≡ M.looping machine.old }
{
    if turn_size(design, machine).is_none() {
        return Err(LoopFault::TooWide {
            quantity: Quantity::Turn,
        });
    }
    run_unshifted(alloc, design, machine, entry, start, turns, out)
}

/// The same where the state is shifted after each turn by a row of `shifts`, of whole numbers over `2^g` that are at most 2147483647 in absolute value; the
/// turns are these rows, of which there are fewer than `2^32`.
pub fn run_loop_under<M: ControlMachine, O: Sink>(
    alloc: Global,
    design: &Design,
    machine: &mut M,
    entry: u32,
    start: &[i128],
    shifts: &mut RowWalk,
    out: &mut O,
) -> Result<(), LoopFault>
    requires matched { IsFor (M.looping machine.old).controller (design_of design.now) }
    requires start { length start.now ≡ (M.looping machine.old).controller.states }
    requires width { shifts.old.rows.cols ≡ (M.looping machine.old).controller.states }
    requires shifts { AreSmallShifts shifts.old.rows }
    requires few { length shifts.old.rows.rows < 2 ^ 32 }
    ensures ends { LoopEnds (M.looping machine.old).controller (states_by (design_of design.now) (M.looping machine.old) start.now shifts.old.rows)
        (lines_by (design_of design.now) (M.looping machine.old) entry start.now shifts.old.rows) (length shifts.old.rows.rows)
        (turn_size_by (design_of design.now) (M.looping machine.old))
        (O.got out.old) (O.got out.new) (O.faults out.old) (O.faults out.new) (out.new ≡ out.old) result }
    ensures no_fewer { O.faults out.old ≤ O.faults out.new }
    ensures same { M.looping machine.new ≡ M.looping machine.old }
    ensures rows { shifts.new.rows ≡ shifts.old.rows }
{
    let size = turn_size(design, machine);
    if size.is_none() {
        return Err(LoopFault::TooWide {
            quantity: Quantity::Turn,
        });
    }
    shifts.rewind();
    let turns = shifts.rows() as u32;
    run_turns(alloc, design, machine, entry, start, turns, shifts, out)
}
