//! The one text of a controller: its blocks of lines, and how it is written; and why bytes are none.
#![tactic(auto)]

mod bad_controller;
mod block;
mod laws;
mod layout;
mod writer;

pub use bad_controller::BadController;
pub use block::{BLOCKS, Block, place_of};
pub use laws::{text_form_law, text_length_law};
pub use layout::{Sizes, line_count, table};
pub use writer::{write_controller, write_fast_controller};
