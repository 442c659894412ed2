//! The lean generator: from a design, a policy and reference plans, which show how little the policy's plans cost more than the best, to a controller and
//! its bounds, and why the controller keeps them.
#![tactic(auto)]

mod generation;
mod laws;
mod targets;
mod violations;

// Handed on: a crate above that names fewer others is stamped on fewer paths.
pub use design_engine::{
    Aim, Made, Run, Settings, SteppedForm, Terms, fast_violation, fast_violations_after, margins,
    plain_terms, row_exponents, stepped_form,
};
pub use generation::{generate_lean, lean_terms};
pub use laws::{causes_law, lean_law};
pub use plan_excess::excess;
pub use targets::{floor_target, violation_target};
pub use violations::row_violations;
