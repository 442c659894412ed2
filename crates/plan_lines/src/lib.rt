//! The lines of records, printed as they are made: of averaged plans from states of a box, or of any machine that is prepared for states.
#![tactic(auto)]

mod any_kernel;
mod machine;
mod records;

// Handed on, as in `specs/Lib.antt`.
pub use any_kernel::{AnyKernel, kernel_of, line_from};
pub use controller_file::AnyController;
pub use machine::PreparedMachine;
pub use records::{print_lines, print_prepared};
