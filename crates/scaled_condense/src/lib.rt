//! A design's cost and limits as functions of the plan alone: in exact numbers, and in enclosures for plants whose exact numbers are too long. One recipe makes
//! both, over what their whole numbers are over.
#![tactic(auto)]

mod columns;
mod costs;
mod exact;
mod fine;
mod form;
mod hessian;
mod limits;
mod lists;
mod products;
mod scales;
mod sizes;
mod units;

pub use exact::condense_exact;
pub use form::{condense_fine, fine_form_law, fine_law};
