//! Stores and outputs in memory, some of whose calls fail, and how the program or commands of it are run over them, for the trials of commands.
#![tactic(auto)]

mod entry;
mod failing;
mod mem_sink;
mod mem_store;
mod runs;
mod stores;

pub use mem_sink::MemSink;
pub use mem_store::MemStore;
pub use runs::{
    Fails, GENERATE, NONE, Program, ends_with, generates, leaves_both, solves, tells, tells_rows,
};
pub use stores::{ROOM, changed, given, has_lines, held, holds, part, store_of, two_sided};
