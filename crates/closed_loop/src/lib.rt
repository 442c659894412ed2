//! A controller of either machine and the plant of its design in a closed loop, turn by turn.
#![tactic(auto)]

mod fault;
mod line;
mod machine;
mod size;
mod successor;
mod turns;

pub use fault::LoopFault;
pub use machine::ControlMachine;
pub use size::turn_size;
pub use successor::next_state;
pub use turns::{run_loop, run_loop_under};
