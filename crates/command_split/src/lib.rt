//! `split`: a controller for each cell of a design's box, all in one text, and their reports, from a design, cuts and the cells' policies.
#![tactic(auto)]

mod cells;
mod command;

pub use command::split;
