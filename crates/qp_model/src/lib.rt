//! The design, the controller and the machine: their types, what makes them right, and the words in which every promise is made;
//! the laws of an inexact projected dual gradient method; and why a design with a policy has no controller, and the words that say so.
#![tactic(auto)]

mod bounds;
mod controller_parts;
mod corner_sizes;
mod design;
mod design_parts;
mod laws;
mod limits;
pub mod method;
mod part_rules;
mod policy;
mod quantity;
pub mod range;
mod refusal;
pub mod rules;
mod size_fault;
mod sizes;
mod words;

pub use bounds::{Bounds, Margin};
pub use controller_parts::ControllerParts;
pub use corner_sizes::{box_magnitude, corner_cost_size, corner_slack_size, policy_magnitude};
pub use design::Design;
pub use design_parts::DesignParts;
pub use laws::{
    agrees_law, average_law, condensing_law, cost_bound_law, curvature_law, difference_law,
    exact_form_law, excess_law, expansion_law, floor_law, gram_law, hessian_law,
    plan_magnitude_law, residual_law, response_law, row_bound_law, run_law, scaling_law,
    trajectory_law,
};
pub use limits::{
    FIRST_VERSION, LAST_VERSION, MOST_INPUTS, MOST_ROWS, MOST_STAGES, MOST_STATES, most_rows,
    most_stages, most_states,
};
pub use policy::Policy;
pub use quantity::{Quantity, Wide};
pub use refusal::Refusal;
pub use size_fault::SizeFault;
pub use sizes::{
    cost_width, curvature_of, growth, hessian_size, limit_width, limited_area, limited_power,
    prediction_size, rows_size, weight_sum,
};
pub use words::refusal_words;
