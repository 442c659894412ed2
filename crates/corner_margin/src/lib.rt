//! What a policy, a plan for each corner of a design's box, shows of the design: by how much the plans keep every limit, and what they cost at most.
//! The plans are run from their corners, in one recipe for both classes: exactly, over a unit in which nothing is rounded; or where the exact numbers
//! are too long in enclosures over `2^40`, which show slacks that are at most the true ones, and costs that are at least those.
//! Slater's condition asks for a plan with some slack in each row; the corners of the box give one for each state in it.
#![tactic(auto)]

mod corner;
mod fault;
mod laws;
mod lists;
mod margin;
mod sizes;
mod unit;

pub use corner::coordinate;
pub use fault::MarginFault;
pub use laws::fine_corners_law;
pub use margin::margins_in;
