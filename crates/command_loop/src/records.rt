// The loops of all records, one after the other.
ghost use Rattle.std.specs.Prelude.{◌≡◌, ◌≢◌, ◌≤◌, ◌<◌, ◌^◌, ◌++◌, length, Err, option_map, OnOk, IfErr, IfOk, IfSome, IsSomeAnd};
ghost use Rattle.io_edge.specs.Faults.{Rose};
ghost use Rattle.qp_model.specs.problem.Parts.{design_of};
ghost use Rattle.qp_model.specs.machine.Successor.{IsFor};
ghost use Rattle.controller_file.specs.AnyText.{any_numbers};
ghost use Rattle.closed_loop.specs.Looping.{Looping, turn_size_by};
ghost use Rattle.closed_loop.specs.Answers.{LieInside};
ghost use Rattle.command_loop.specs.Loop.{TellsLeavingLater, LoopsPrint, course_by, course_of_any, turn_size_of};
ghost use Rattle.command_loop.specs.Printing.{AreShiftsFor, RecordShows, IsBeforeLines, LoopsEnd, LoopsDone, loop_status, rows_along};

use closed_loop::{ControlMachine, LoopFault, run_loop, run_loop_under};
use command_line::Status;
use controller_file::AnyController;
use fast_machine::FastKernel;
use fixed_kernel::Kernel;
use io_edge::Sink;
use packed_rows::{PackedRows, RowWalk};
use qp_model::{Design, Refusal};
use std::alloc::{AllocError, Global};

// The status that tells why the loop of a record ended.
fn loop_status(entry: u32, fault: LoopFault) -> Status
    ensures { result ≡ loop_status entry fault }
{
    match fault {
        LoopFault::Memory => Status::Memory,
        LoopFault::TooWide { quantity } => Status::Refused {
            refusal: Refusal::TooWide { quantity },
        },
        LoopFault::OutsideBox { turn, coordinate } => Status::OutsideBox {
            entry,
            turn,
            coordinate,
        },
        LoopFault::WriteFault => Status::WriteFault { file: 0 },
    }
}

// Puts the lines of a record's loop: with the shifts after each turn where there are any.
fn run_record<M: ControlMachine, O: Sink>(
    alloc: Global,
    design: &Design,
    machine: &mut M,
    entry: u32,
    start: &[i128],
    shifts: &mut Option<RowWalk>,
    turns: u32,
    out: &mut O,
) -> Result<(), LoopFault>
    requires matched { IsFor (M.looping machine.old).controller (design_of design.now) }
    requires start { length start.now ≡ (M.looping machine.old).controller.states }
    requires shifts { AreShiftsFor (M.looping machine.old).controller.states turns (rows_along shifts.old) }
    ensures narrow { OnOk result (turn_size_by (design_of design.now) (M.looping machine.old) ≤ 2 ^ 126) }
    ensures inside { OnOk result (LieInside (M.looping machine.old).controller
        ((course_by (design_of design.now) (M.looping machine.old) (rows_along shifts.old)).states start.now) turns) }
    ensures put { OnOk result (O.got out.new ≡ option_map
        (λ old. old ++ (course_by (design_of design.now) (M.looping machine.old) (rows_along shifts.old)).lines entry start.now turns) (O.got out.old)) }
    ensures shows { IfErr result (RecordShows (turn_size_by (design_of design.now) (M.looping machine.old)) (M.looping machine.old).controller
        (course_by (design_of design.now) (M.looping machine.old) (rows_along shifts.old)) entry start.now turns (O.got out.old) (O.got out.new)) }
    ensures quiet { IfErr result (λ fault. IsBeforeLines fault → out.new ≡ out.old) }
    ensures failed { result ≡ Err LoopFault.WriteFault → Rose (O.faults out.old) (O.faults out.new) }
    ensures no_fewer { O.faults out.old ≤ O.faults out.new }
    ensures same { M.looping machine.new ≡ M.looping machine.old }
    ensures shifts { rows_along shifts.new ≡ rows_along shifts.old }
{
    match shifts {
        Some(shifts) => run_loop_under(alloc, design, machine, entry, start, shifts, out),
        None => run_loop(alloc, design, machine, entry, start, turns, out),
    }
}

// Prints the lines of each record's loop, until one ends early.
fn print_records<M: ControlMachine, O: Sink>(
    alloc: Global,
    design: &Design,
    machine: &mut M,
    states: &PackedRows,
    shifts: &mut Option<RowWalk>,
    turns: u32,
    out: &mut O,
) -> Status
    requires matched { IsFor (M.looping machine.old).controller (design_of design.now) }
    requires width { states.now.cols ≡ (M.looping machine.old).controller.states }
    requires count { length states.now.rows < 2 ^ 32 }
    requires shifts { AreShiftsFor (M.looping machine.old).controller.states turns (rows_along shifts.old) }
    ensures ends { LoopsEnd (turn_size_by (design_of design.now) (M.looping machine.old)) (M.looping machine.old).controller
        (course_by (design_of design.now) (M.looping machine.old) (rows_along shifts.old)) turns states.now result }
    ensures printed { IfSome (O.got out.old) (λ old. IsSomeAnd (O.got out.new)
        (LoopsPrint (turn_size_by (design_of design.now) (M.looping machine.old)) (M.looping machine.old).controller
        (course_by (design_of design.now) (M.looping machine.old) (rows_along shifts.old)) turns states.now result old)) }
    ensures quiet { result ≢ Status.Done → result ≢ Status.Memory → result ≢ Status.WriteFault 0 → ¬ TellsLeavingLater result → out.new ≡ out.old }
    ensures failed { result ≡ Status.WriteFault 0 → Rose (O.faults out.old) (O.faults out.new) }
    ensures no_fewer { O.faults out.old ≤ O.faults out.new }
{
    let Ok(mut walk) = states.walk(alloc) else {
        return Status::Memory;
    };
    for i in 0..states.rows() {
        let entry = i as u32 + 1;
        walk.step();
        if let Err(fault) = run_record(
            alloc,
            design,
            machine,
            entry,
            walk.row(),
            shifts,
            turns,
            out,
        ) {
            return loop_status(entry, fault);
        }
    }
    Status::Done
}

// A walk along the shifts, where there are any.
fn walk_of(alloc: Global, shifts: &Option<PackedRows>) -> Result<Option<RowWalk<'_>>, AllocError>
    ensures { IfOk result (λ walk. rows_along walk ≡ shifts.now) }
{
    match shifts {
        Some(shifts) => Ok(Some(shifts.walk(alloc)?)),
        None => Ok(None),
    }
}

// Prints the lines of all loops by a machine.
fn print_along<M: ControlMachine, O: Sink>(
    alloc: Global,
    design: &Design,
    machine: &mut M,
    states: &PackedRows,
    shifts: &Option<PackedRows>,
    turns: u32,
    out: &mut O,
) -> Status
    requires matched { IsFor (M.looping machine.old).controller (design_of design.now) }
    requires width { states.now.cols ≡ (M.looping machine.old).controller.states }
    requires count { length states.now.rows < 2 ^ 32 }
    requires shifts { AreShiftsFor (M.looping machine.old).controller.states turns shifts.now }
    ensures { LoopsDone O.Sink (turn_size_by (design_of design.now) (M.looping machine.old)) (M.looping machine.old).controller
        (course_by (design_of design.now) (M.looping machine.old) shifts.now) turns states.now out.old out.new result }
{
    match walk_of(alloc, shifts) {
        Ok(mut shifts) => print_records(alloc, design, machine, states, &mut shifts, turns, out),
        Err(_) => Status::Memory,
    }
}

// The same by one that could be prepared.
fn print_prepared<M: ControlMachine + Drop, O: Sink>(
    alloc: Global,
    design: &Design,
    machine: Result<M, AllocError>,
    states: &PackedRows,
    shifts: &Option<PackedRows>,
    turns: u32,
    out: &mut O,
) -> Status
    requires matched { IfOk machine (λ m. IsFor (M.looping m).controller (design_of design.now)) }
    requires width { IfOk machine (λ m. states.now.cols ≡ (M.looping m).controller.states) }
    requires count { length states.now.rows < 2 ^ 32 }
    requires shifts { IfOk machine (λ m. AreShiftsFor (M.looping m).controller.states turns shifts.now) }
    ensures { (l : Looping) → IfOk machine (λ m. M.looping m ≡ l) →
        LoopsDone O.Sink (turn_size_by (design_of design.now) l) l.controller (course_by (design_of design.now) l shifts.now) turns states.now
        out.old out.new result }
{
    match machine {
        Ok(mut machine) => print_along(alloc, design, &mut machine, states, shifts, turns, out),
        Err(_) => Status::Memory,
    }
}

// Prints the lines of all loops, by one kernel of the controller's machine.
pub fn print_loops<O: Sink>(
    alloc: Global,
    design: &Design,
    controller: &AnyController,
    states: &PackedRows,
    shifts: &Option<PackedRows>,
    turns: u32,
    out: &mut O,
) -> Status
    requires matched { IsFor (any_numbers controller.now) (design_of design.now) }
    requires width { states.now.cols ≡ (any_numbers controller.now).states }
    requires count { length states.now.rows < 2 ^ 32 }
    requires shifts { AreShiftsFor (any_numbers controller.now).states turns shifts.now }
    ensures { LoopsDone O.Sink (turn_size_of (design_of design.now) controller.now) (any_numbers controller.now)
        (course_of_any (design_of design.now) controller.now shifts.now) turns states.now out.old out.new result }
{
    match controller {
        AnyController::Plain(controller) => {
            let kernel = Kernel::prepare(alloc, controller);
            print_prepared(alloc, design, kernel, states, shifts, turns, out)
        }
        AnyController::Fast(controller) => {
            let kernel = FastKernel::prepare(alloc, controller.parts());
            print_prepared(alloc, design, kernel, states, shifts, turns, out)
        }
    }
}
