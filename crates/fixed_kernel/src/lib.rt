//! The machine at work: a controller's steps from a state, in memory that is taken once.
#![tactic(auto)]

mod entry;
mod half;
mod kernel;
mod laws;
mod narrow;
mod spans;
mod state;
mod step;
mod word_bases;
mod word_machine;
mod word_mat;
mod word_run;
mod word_step;
mod wordwise;

pub use kernel::Kernel;
pub use laws::one_outside_law;
pub use narrow::has_narrow_factors;
pub use state::{OutsideBox, first_outside};
pub use word_bases::{put_entry_bases, put_row_bases};
pub use word_machine::{WordForm, WordMachine, WordRoom};
pub use word_mat::{WordMat, WordRow};
pub use word_run::{put_words, take_words};
pub use word_step::{word_plan, word_row_sum};
pub use wordwise::{word_raised, word_shift};
