//! `list`: the listing of a controller's step, written to a file.
#![tactic(auto)]

mod command;
mod text;

pub use command::list;
