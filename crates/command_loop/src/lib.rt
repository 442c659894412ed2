//! `loop`: the lines of a design's plant under its controller, turn by turn, from a file of states, with disturbances or without.
#![tactic(auto)]

mod command;
mod files;
mod mismatch;
mod plant;
mod records;

pub use command::run_loops;
// What reads a design and a controller for it is handed on: a crate above that names fewer others is stamped on fewer paths.
pub use command_design_files::{FILE_LIMIT, read_bytes, told_text};
pub use command_files::read_range_file;
pub use controller_file::AnyController;
pub use plant::{Plant, read_plant};
