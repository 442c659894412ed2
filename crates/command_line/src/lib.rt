//! The arguments of the program, what it may answer, and how an answer is told.
#![tactic(auto)]

mod error_line;
mod program_name;
mod status;
mod two_texts;
mod words;

pub use error_line::status_line;
pub use status::{Field, Status, status_number};
pub use two_texts::{Texts, write_texts};
pub use words::{Command, command_of, is_json, one_command_law};
