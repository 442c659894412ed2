// The commands that make controllers.
use command_line::{Command, Status, command_of};
use command_make::{generate, lean_stay, stay};
use command_split::split;
use io_edge::Words;
use std::alloc::Global;
use trials_stores::{MemSink, MemStore, Program};

// `generate`, `stay`, `lean` with faces, and `split`.
pub(crate) struct Makers;

impl Program for Makers {
    fn answer(alloc: Global, words: &Words, store: &mut MemStore, _: &mut MemSink) -> Status {
        match command_of(words) {
            Some(Command::Generate) => generate(alloc, words, store),
            Some(Command::Stay { disturbed }) => stay(alloc, words, disturbed, store),
            Some(Command::LeanStay { disturbed }) => lean_stay(alloc, words, disturbed, store),
            Some(Command::Split) => split(alloc, words, store),
            _ => Status::Usage,
        }
    }
}
