//! A controller read back from its one text, exactly where the bytes are such a text.
#![tactic(auto)]

mod any_controller;
mod following;
mod grammar;
mod laws;
mod parts;
mod reader;
mod sizes;

pub use any_controller::{AnyController, any_safe, read_any_controller};
pub use following::any_can_follow;
pub use laws::{one_controller_law, prefix_law};
pub use parts::parts_of;
pub use reader::read_controller;
pub use sizes::sizes_in;
