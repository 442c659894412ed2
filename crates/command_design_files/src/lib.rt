//! The files of designs and of policies, as the commands read them; and what a reader of other files is made of.
#![tactic(auto)]

mod bytes;
mod files;
mod statuses;

pub use bytes::{FILE_LIMIT, read_bytes};
// What a design of any version asks for, as `read_asked_file` gives it.
pub use design_files::Asked as Wanted;
pub use files::{read_asked_file, read_design_file, read_policy_file};
pub use statuses::{told_controller, told_text};
