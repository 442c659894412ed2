//! Exact products of matrices, and products of 64-bit factors in two words.
#![tactic(auto)]

mod fault;
mod narrow;
mod product;

pub use fault::MatFault;
pub use narrow::{are_narrow, is_narrow_matrix, narrow_dot, narrow_product};
pub use product::{gram, mul};
