//! `solve`: the lines of a controller's averaged plans, of any version, from a file of states.
#![tactic(auto)]

mod command;

pub use command::solve;
