// A design and a controller for it.
ghost use Rattle.std.specs.Prelude.{◌<◌, length};
ghost use Rattle.command_loop.specs.Plant.{ReadsPlant};

use crate::mismatch::mismatch_of;
use command_design_files::{Wanted, read_asked_file};
use command_files::read_any_controller_file;
use command_line::Status;
use controller_file::AnyController;
use io_edge::{Store, Words};
use std::alloc::Global;

/// A design, of any version, and a controller for it, of either machine.
#[derive(Drop)]
pub struct Plant {
    pub asked: Wanted,
    pub controller: AnyController,
}

/// The design of the first file and the controller of the second, which is to be for it; or the status that ends the run.
pub fn read_plant<S: Store>(alloc: Global, words: &Words, store: &mut S) -> Result<Plant, Status>
    requires { 2 < length words.now }
    ensures { ReadsPlant S.Store words.now result store.old store.new }
{
    let asked = read_asked_file(alloc, 1, words.at(1), store)?;
    let controller = read_any_controller_file(alloc, 2, words.at(2), store)?;
    match mismatch_of(&asked.design, controller.parts()) {
        Some(status) => Err(status),
        None => Ok(Plant { asked, controller }),
    }
}
