//! The absolute sums of a controller, which bound each value that its machine meets, and the controllers that they let pass.
#![tactic(auto)]

mod absolute_sums;
mod controller;
mod form;
mod laws;
mod machine;
mod word_width;

pub use absolute_sums::{
    greatest_for, greatest_sum, plan_entry_magnitude, plan_sum, plan_sum_for, row_magnitude,
    state_magnitude,
};
pub use controller::{BadParts, Controller, FastController};
pub use form::{FAST_VERSION, MOST_FAST_STEPS};
pub use laws::{sub_sums_law, values_law};
pub use machine::Machine;
pub use word_width::{width, width_for};
