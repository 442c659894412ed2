//! Reading of design texts.
#![tactic(auto)]

mod document;
mod keys;
mod numbers;
mod places;

pub use places::{Asked, read_any_design, read_design};
