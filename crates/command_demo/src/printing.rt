// The text that is printed.
ghost use Rattle.std.specs.Prelude.{◌≡◌, ◌⊎◌, ◌≤◌, ◌<◌, ◌^◌, length, IfSome, IsSomeAnd};
ghost use Rattle.io_edge.specs.Faults.{Rose};
ghost use Rattle.qp_model.specs.bounds.Printed.{printed};
ghost use Rattle.plan_lines.specs.Inside.{AreInside};
ghost use Rattle.command_demo.specs.Demo.{IsTextPrinted};

use bound_report::report_text;
use command_line::Status;
use fixed_kernel::Kernel;
use io_edge::Sink;
use overflow_check::Controller;
use packed_rows::PackedRows;
use plan_lines::{AnyKernel, print_lines};
use qp_model::Bounds;
use std::alloc::Global;

/// Prints the report of the bounds, and the lines of a controller from states of its box: `Done`, `Memory`, or `WriteFault` for file 0.
pub fn print_text<O: Sink>(
    alloc: Global,
    controller: &Controller,
    bounds: &Bounds,
    states: &PackedRows,
    out: &mut O,
) -> Status
    requires inside { AreInside controller.now states.now (length states.now.rows) }
    requires some { 0 < length states.now.rows }
    requires width { states.now.cols ≡ controller.now.states }
    requires count { length states.now.rows < 2 ^ 32 }
    ensures only { (result ≡ Status.Memory) ⊎ ((result ≡ Status.Done) ⊎ (result ≡ Status.WriteFault 0)) }
    ensures printed { IfSome (O.got out.old) (λ old. IsSomeAnd (O.got out.new) (IsTextPrinted controller.now (printed bounds.now) states.now result old)) }
    ensures failed { result ≡ Status.WriteFault 0 → Rose (O.faults out.old) (O.faults out.new) }
    ensures no_fewer { O.faults out.old ≤ O.faults out.new }
{
    let Ok(kernel) = Kernel::prepare(alloc, controller) else {
        return Status::Memory;
    };
    let Ok(report) = report_text(alloc, bounds) else {
        return Status::Memory;
    };
    match out.put(&report) {
        Ok(()) => print_lines(alloc, &mut AnyKernel::Plain(kernel), states, out),
        Err(_) => Status::WriteFault { file: 0 },
    }
}
