//! Rows of whole numbers, packed in about as many bytes as their digits, and gone through from the first on.
#![tactic(auto)]

mod packing;
mod rows;
mod unpacking;
mod walk;

pub use rows::PackedRows;
pub use walk::RowWalk;
