// The files of a loop, one after the other.
ghost use Rattle.std.specs.Prelude.{◌≡◌, ◌<◌, ◌^◌, length};
ghost use Rattle.qp_model.specs.problem.Parts.{design_of};
ghost use Rattle.qp_model.specs.machine.Successor.{IsFor};
ghost use Rattle.controller_file.specs.AnyText.{any_numbers};
ghost use Rattle.command_line.specs.Words.{IsLoop};
ghost use Rattle.command_line.specs.Running.{Runs};
ghost use Rattle.command_loop.specs.Loop.{loop_shifts, loop_states, loop_deeds};

use crate::records::print_loops;
use command_files::{read_shifts_file, read_states_file};
use command_line::Status;
use controller_file::AnyController;
use io_edge::{Sink, Store, Words};
use packed_rows::PackedRows;
use qp_model::Design;
use std::alloc::Global;

// The shifts, where there are disturbances, and the loops.
fn run_states<S: Store, O: Sink>(
    alloc: Global,
    words: &Words,
    turns: u32,
    disturbed: bool,
    design: &Design,
    controller: &AnyController,
    states: &PackedRows,
    store: &mut S,
    out: &mut O,
) -> Status
    requires words { IsLoop words.now turns disturbed }
    requires matched { IsFor (any_numbers controller.now) (design_of design.now) }
    requires width { states.now.cols ≡ (any_numbers controller.now).states }
    requires count { length states.now.rows < 2 ^ 32 }
    ensures { Runs S.Store O.Sink words.now (loop_deeds turns disturbed) store.old store.new out.old out.new result
        (loop_shifts turns disturbed (design_of design.now) controller.now states.now) }
{
    if disturbed {
        let n = controller.parts().n;
        match read_shifts_file(alloc, 5, words.at(5), n, turns as usize, store) {
            Ok(shifts) => print_loops(alloc, design, controller, states, &Some(shifts), turns, out),
            Err(status) => status,
        }
    } else {
        print_loops(alloc, design, controller, states, &None, turns, out)
    }
}

/// The states, and what comes after them, for a controller that is for the design.
pub fn run_controller<S: Store, O: Sink>(
    alloc: Global,
    words: &Words,
    turns: u32,
    disturbed: bool,
    design: &Design,
    controller: &AnyController,
    store: &mut S,
    out: &mut O,
) -> Status
    requires words { IsLoop words.now turns disturbed }
    requires matched { IsFor (any_numbers controller.now) (design_of design.now) }
    ensures { Runs S.Store O.Sink words.now (loop_deeds turns disturbed) store.old store.new out.old out.new result
        (loop_states turns disturbed (design_of design.now) controller.now) }
{
    match read_states_file(alloc, 3, words.at(3), controller.parts().n, store) {
        Ok(states) => {
            run_states(
                alloc, words, turns, disturbed, design, controller, &states, store, out,
            )
        }
        Err(status) => status,
    }
}
