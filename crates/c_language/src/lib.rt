//! A small part of C: its statements, what they mean, and their text, from which they can be told.
#![tactic(auto)]

mod laws;

pub use laws::{expression_text_law, program_text_law, statement_text_law};
