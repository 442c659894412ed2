//! `generate` of designs of versions 1 and 2: a controller and the report of its bounds, from a design and a policy, and what is made of them.
#![tactic(auto)]

mod command;
mod made;
mod texts;

pub use command::generate;
// Handed on with `texts_made`, which takes what is made: a crate above that names fewer others is stamped on fewer paths.
pub use design_engine::{Made, violations_after};
pub use made::make_controller;
pub use texts::{report_for, texts_made};
