//! `play`: the lines that a listing's machine puts out, from a file of states.
#![tactic(auto)]

mod command;
mod lines;
mod listing;

pub use command::play;
