//! `c`: the program of a controller in C, written to a source file and a header file.
#![tactic(auto)]

mod command;
mod texts;

pub use command::write_c;
