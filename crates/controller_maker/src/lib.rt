//! A controller, from a condensed form, the chosen numbers and the gains.
#![tactic(auto)]

mod assemble;
mod rounding;
mod widest;

pub use assemble::{Settings, controller_of, fast_controller_of};
