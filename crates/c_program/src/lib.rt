//! The program of a controller in a small part of C, and why it makes what the controller's machine makes.
#![tactic(auto)]

mod laws;

pub use laws::{
    fast_program_law, fast_short_text_law, fast_worked_lines, parted_program_law,
    parted_short_text_law, parted_worked_lines, program_law, short_text_law, worked_lines,
    written_program_law, written_text_law,
};
