//! The policy text, and records of whole numbers in any layout, read with their first fault.
#![tactic(auto)]

mod headed;
mod number;
mod read;
mod record;
mod text;

pub use headed::{Headed, read_headed};
pub use number::number_field;
pub use read::{corner_count, read_plans, read_policy};
pub use record::{Layout, numbers_of};
pub use text::{all_records, text_records};
