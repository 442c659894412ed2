//! `serve`: for each state of a file the line of the first controller of cells whose box holds it.
#![tactic(auto)]

mod cells;
mod command;
mod laws;

pub use command::serve;
pub use laws::{one_cell_law, one_text_law};
