// `settle` with its arguments.
ghost use Rattle.command_line.specs.Words.{IsSettle};
ghost use Rattle.command_line.specs.Does.{Does};
ghost use Rattle.command_settle.specs.Settle.{settle_deeds};

use crate::files::run_controller;
use command_line::Status;
use command_loop::read_plant;
use io_edge::{Sink, Store, Words};
use std::alloc::Global;

/// Prints the turn from which every closed loop of a design's plant and a controller for it, from a box of states and under every list of disturbances of a
/// range, lies in a small box for good, and that box over `2^grid`: by a certificate. The first file has the design and the second the controller, both of any version, and the third
/// the certificate; where there are disturbances, the fourth has their range, and else there are none.
pub fn settle<S: Store, O: Sink>(
    alloc: Global,
    words: &Words,
    disturbed: bool,
    store: &mut S,
    out: &mut O,
) -> Status
    requires { IsSettle words.now disturbed }
    ensures { Does S.Store O.Sink words.now (settle_deeds disturbed) store.old store.new out.old out.new result }
{
    match read_plant(alloc, words, store) {
        Ok(plant) => {
            run_controller(
                alloc,
                words,
                disturbed,
                &plant.asked.design,
                &plant.controller,
                store,
                out,
            )
        }
        Err(status) => status,
    }
}
