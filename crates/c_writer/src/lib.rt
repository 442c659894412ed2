//! The text of a controller's program.
#![tactic(auto)]

mod averages;
mod ending;
mod header;
mod lines;
mod means;
mod measured;
mod measuring;
mod needed;
mod opposite;
mod parts;
mod parts_test;
mod plan;
mod quick;
mod rows;
mod shared;
mod start;
mod sums;
mod tops;
mod words;
mod writer;

pub use header::write_header;
pub use parts_test::has_program;
pub use writer::{write_fast_program, write_program};
