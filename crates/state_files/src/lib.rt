//! The texts of states, and of shifts: whole numbers that a disturbance adds to the coordinates of a state.
#![tactic(auto)]

mod range;
mod states;
mod turns;

pub use range::read_shift_range;
pub use states::read_states;
pub use turns::read_shifts;
