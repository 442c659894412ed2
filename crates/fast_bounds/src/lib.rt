//! Controllers of the accelerated machine that are made for a design, and what they promise.
#![tactic(auto)]

mod aimed;
mod bounds;
mod controller;
mod generation;
mod laws;
mod margin;
mod numbers;
mod residuals;

pub use bounds::fast_bounds_of;
pub use controller::fast_controller_with;
pub use generation::{FastMade, generate_fast};
pub use laws::{
    fast_carried_law, fast_causes_law, fast_certified_law, fast_design_run_law, fast_lean_law,
    fast_margin_law, fast_stated_run_law, plan_errors_law,
};
// (what the faces of a loop ask for, handed on)
pub use lean_engine::{Run, fast_violations_after};
pub use margin::generate_fast_by_margin;
pub use numbers::{RunNumbers, run_numbers};
