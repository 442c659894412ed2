//! A controller for each cell of a design's box.
#![tactic(auto)]

mod cell;
mod make;

pub use make::{CellRefusal, MadeCells, make_cells};
