//! Numbers as words: read, printed and put on lines; and what can be wrong in a text of them.
#![tactic(auto)]

mod number;
mod text_fault;

pub use number::{line_text, number_word, numbers_of, pieces_of, push_line, spaced_text};
pub use text_fault::TextFault;
