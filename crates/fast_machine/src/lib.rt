//! An accelerated projected dual gradient method with inexact steps, for any quadratic program, and the machine that runs it in whole numbers: a controller's steps from a state.
#![tactic(auto)]

mod kernel;
mod laws;
mod method;
mod number;
mod step;
mod word_machine;
mod word_run;
mod word_step;
mod wordwise;

pub use kernel::FastKernel;
pub use laws::{
    fast_average_law, fast_cost_law, fast_machine_even_law, fast_machine_run_law,
    fast_machine_step_law, fast_ready_law, fast_values_law, weight_sum_law,
};
pub use method::{fast_even_law, fast_run_law, fast_step_law, weights_law};
