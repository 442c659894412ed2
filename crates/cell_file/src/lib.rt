//! The one text of the controllers of cells: written, and read back exactly where the bytes are such a text; and which of them serves a state.
#![tactic(auto)]

mod alike;
mod finder;
mod grammar;
mod laws;
mod place;
mod reader;
mod writer;

pub use finder::find;
pub use grammar::CellsGrammar;
pub use laws::{cells_length_law, one_list_law, prefix_law};
pub use reader::read_cells;
pub use writer::write_cells;
