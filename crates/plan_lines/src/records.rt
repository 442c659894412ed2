// The lines of records, by a machine that is prepared for them.
ghost use Rattle.std.specs.Prelude.{◌≡◌, ◌⊎◌, ◌<◌, ◌^◌, length, IfOk, IfErr, OnOk};
ghost use Rattle.plan_lines.specs.Making.{AreRunFrom, IsRefusedFirst, PrintsLines, PrintsRecords};

use crate::machine::PreparedMachine;
use command_line::Status;
use io_edge::Sink;
use packed_rows::PackedRows;
use std::alloc::{AllocError, Global};

// Nothing where the machine runs from each state, and else the status that tells of the first that it refuses; or `Memory`.
fn all_run<M: PreparedMachine>(
    alloc: Global,
    machine: &M,
    states: &PackedRows,
) -> Result<(), Status>
    requires size { M.is_for machine.now states.now.cols }
    requires count { length states.now.rows < 2 ^ 32 }
    ensures run { OnOk result (AreRunFrom (M.makes (M.subject machine.now)) states.now (length states.now.rows)) }
    ensures refused { IfErr result (λ s. (s ≡ Status.Memory) ⊎ IsRefusedFirst (M.makes (M.subject machine.now)) states.now s) }
{
    let mut walk = states.walk(alloc)?;
    for i in 0..states.rows() {
        walk.step();
        if let Some(coordinate) = machine.refused(walk.row()) {
            return Err(Status::OutsideBox {
                entry: i as u32 + 1,
                turn: 0,
                coordinate,
            });
        }
    }
    Ok(())
}

/// Prints the line of each state, as soon as it is made, until a run has none. The machine runs from them all.
pub fn print_lines<M: PreparedMachine, O: Sink>(
    alloc: Global,
    machine: &mut M,
    states: &PackedRows,
    out: &mut O,
) -> Status
    requires size { M.is_for machine.old states.now.cols }
    requires count { length states.now.rows < 2 ^ 32 }
    requires run { AreRunFrom (M.makes (M.subject machine.old)) states.now (length states.now.rows) }
    ensures { PrintsLines O.Sink (M.makes (M.subject machine.old)) states.now out.old out.new result }
{
    let Ok(mut walk) = states.walk(alloc) else {
        return Status::Memory;
    };
    for i in 0..states.rows() {
        walk.step();
        match machine.line(alloc, i as u32 + 1, walk.row()) {
            Ok(line) => {
                if out.put(&line).is_err() {
                    return Status::WriteFault { file: 0 };
                }
            }
            Err(status) => return status,
        }
    }
    Status::Done
}

// Prints the line of each state where the machine runs from them all, until a run has none, and else nothing.
fn print_records<M: PreparedMachine, O: Sink>(
    alloc: Global,
    machine: &mut M,
    states: &PackedRows,
    out: &mut O,
) -> Status
    requires size { M.is_for machine.old states.now.cols }
    requires count { length states.now.rows < 2 ^ 32 }
    ensures { PrintsRecords O.Sink (M.makes (M.subject machine.old)) states.now out.old out.new result }
{
    match all_run(alloc, machine, states) {
        Ok(()) => print_lines(alloc, machine, states, out),
        Err(status) => status,
    }
}

/// Prints the line of each state where the machine could be prepared and runs from them all, until a run has none, and else nothing.
pub fn print_prepared<M: PreparedMachine + Drop, O: Sink>(
    alloc: Global,
    machine: Result<M, AllocError>,
    states: &PackedRows,
    out: &mut O,
) -> Status
    requires size { IfOk machine (λ m. M.is_for m states.now.cols) }
    requires count { length states.now.rows < 2 ^ 32 }
    ensures { (subject : M.Subject) → IfOk machine (λ m. M.subject m ≡ subject) → PrintsRecords O.Sink (M.makes subject) states.now out.old out.new result }
{
    match machine {
        Ok(mut machine) => print_records(alloc, &mut machine, states, out),
        Err(_) => Status::Memory,
    }
}
