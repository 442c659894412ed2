// `loop` with its arguments.
ghost use Rattle.command_line.specs.Words.{IsLoop};
ghost use Rattle.command_line.specs.Does.{Does};
ghost use Rattle.command_loop.specs.Loop.{loop_deeds};

use crate::files::run_controller;
use crate::plant::read_plant;
use command_line::Status;
use io_edge::{Sink, Store, Words};
use std::alloc::Global;

/// Prints the lines of a closed loop of `turns` turns for each state of the third file: the plant of the design in the first file, controlled by the
/// controller in the second, both of any version. Where there are disturbances, the fifth file has a record of them for each turn, which is added to the state
/// after the turn, in every loop. A record whose state leaves the box ends it, with the lines of the turns before that printed.
pub fn run_loops<S: Store, O: Sink>(
    alloc: Global,
    words: &Words,
    turns: u32,
    disturbed: bool,
    store: &mut S,
    out: &mut O,
) -> Status
    requires { IsLoop words.now turns disturbed }
    ensures { Does S.Store O.Sink words.now (loop_deeds turns disturbed) store.old store.new out.old out.new result }
{
    match read_plant(alloc, words, store) {
        Ok(plant) => {
            run_controller(
                alloc,
                words,
                turns,
                disturbed,
                &plant.asked.design,
                &plant.controller,
                store,
                out,
            )
        }
        Err(status) => status,
    }
}
