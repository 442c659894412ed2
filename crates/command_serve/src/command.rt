// `serve` with its arguments.
ghost use Rattle.std.specs.Prelude.{◌≡◌, ◌<◌, length};
ghost use Rattle.command_line.specs.Words.{IsServe};
ghost use Rattle.command_line.specs.Does.{Does};
ghost use Rattle.command_serve.specs.Served.{cell_states};
ghost use Rattle.command_serve.specs.Deeds.{serve_deeds};

use crate::cells::cells_of;
use command_files::{read_cells_file, read_states_file};
use command_line::Status;
use io_edge::{Sink, Store, Words};
use plan_lines::{AnyController, print_prepared};
use std::alloc::Global;

// How many numbers a state of cells has.
fn state_size(cells: &[AnyController]) -> usize
    requires { 0 < length cells.now }
    ensures { result ≡ cell_states cells.now }
{
    cells[0].parts().n
}

/// Prints a line for each state of the second file, the averaged plan from that state of the first of the first file's controllers whose box holds it, over its
/// `K*2^f`, and over `K*(K+3)/2*2^f` in version 3; nothing where a file is refused or no controller's box holds a state.
pub fn serve<S: Store, O: Sink>(alloc: Global, words: &Words, store: &mut S, out: &mut O) -> Status
    requires { IsServe words.now }
    ensures { Does S.Store O.Sink words.now serve_deeds store.old store.new out.old out.new result }
{
    let cells = match read_cells_file(alloc, 1, words.at(1), store) {
        Ok(cells) => cells,
        Err(ended) => return ended,
    };
    match read_states_file(alloc, 2, words.at(2), state_size(&cells), store) {
        Ok(states) => print_prepared(alloc, cells_of(alloc, &cells), &states, out),
        Err(status) => status,
    }
}
