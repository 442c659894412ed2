// `solve` with its arguments.
ghost use Rattle.command_line.specs.Words.{IsSolve};
ghost use Rattle.command_line.specs.Does.{Does};
ghost use Rattle.command_solve.specs.Deeds.{solve_deeds};

use command_files::{read_any_controller_file, read_states_file};
use command_line::Status;
use io_edge::{Sink, Store, Words};
use plan_lines::{kernel_of, print_prepared};
use std::alloc::Global;

/// Prints a line for each state of the second file, the averaged plan of the first file's controller from that state, over `K*2^f`, and over
/// `K*(K+3)/2*2^f` in version 3; nothing where a file is refused or a state lies outside the box.
pub fn solve<S: Store, O: Sink>(alloc: Global, words: &Words, store: &mut S, out: &mut O) -> Status
    requires { IsSolve words.now }
    ensures { Does S.Store O.Sink words.now solve_deeds store.old store.new out.old out.new result }
{
    let controller = match read_any_controller_file(alloc, 1, words.at(1), store) {
        Ok(controller) => controller,
        Err(ended) => return ended,
    };
    match read_states_file(alloc, 2, words.at(2), controller.parts().n, store) {
        Ok(states) => print_prepared(alloc, kernel_of(alloc, &controller), &states, out),
        Err(status) => status,
    }
}
