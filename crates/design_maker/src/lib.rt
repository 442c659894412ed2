//! Made designs: for each number a design, with a policy and states for it.
#![tactic(auto)]

mod draws;
mod laws;
mod texts;

pub use laws::made_law;
pub use texts::{Texts, make};
