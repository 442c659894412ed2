//! Texts of lines, a word and numbers each, of any grammar: read up to the first line with which no text of the grammar begins.
#![tactic(auto)]

mod grammar;
mod line;
mod reader;
mod table;

pub use grammar::Grammar;
pub use line::{Line, has_place, number_at, number_in, numbers_in, small};
pub use reader::lines_in;
pub use table::{place_in, rows_before};
