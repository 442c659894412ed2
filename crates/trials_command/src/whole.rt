// The one call that the program makes.
use command_line::Status;
use command_run::run;
use io_edge::Words;
use std::alloc::Global;
use trials_stores::{MemSink, MemStore, Program};

// The whole program.
pub(crate) struct Whole;

impl Program for Whole {
    fn answer(alloc: Global, words: &Words, store: &mut MemStore, out: &mut MemSink) -> Status {
        run(alloc, words, store, out)
    }
}
