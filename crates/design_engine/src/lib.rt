//! The generator: from a design and a policy to a controller and its bounds, and why the controller keeps them. Its margin and its condensed form are in
//! the class that the design's size calls for: exact numbers, or enclosures of them.
#![tactic(auto)]

mod aimed;
mod bounds;
mod condensing;
mod corners;
mod generation;
mod laws;
mod residuals;

pub use aimed::{Aim, SteppedForm, row_exponents, stepped_form};
pub use bounds::{
    Run, Terms, fast_violation, fast_violations_after, row_violations, violations_after,
};
pub use condensing::{condense, form_law};
pub use controller_maker::{Settings, controller_of};
pub use corners::{margins, shown_law};
pub use generation::{Made, gap_target, generate, made_with, plain_terms};
pub use laws::{agreement_law, causes_law, certified_law, targets_law, threshold_law};
pub use qp_model::Refusal;
