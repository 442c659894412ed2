//! The program's one call: the command that the arguments are, over any store and any output.
#![tactic(auto)]

mod command;

pub use command::run;
