//! The condensed form of a design, and the numbers that every class of it is made of.
#![tactic(auto)]

mod bounds;
mod condensed;
mod denominators;
mod limit;
mod squares;
mod stacked;
mod weights;

pub use bounds::scaled_bounds;
pub use condensed::Condensed;
pub use denominators::{bend_floor, least_input, least_of, square_scale};
pub use limit::{is_curvature_limited, is_lowering_limited, squares_exponent};
pub use stacked::{cost_count, limit_count};
pub use weights::{scaled_targets, target_at, weights_of};
