//! By how much more than the best, over all plans and not only feasible ones, a policy's plans cost at the corners of the box, as reference plans
//! show it. Neither plan is simulated: one linear form of the condensed cost's numbers, at both plans, bounds the difference of their costs, and
//! the squares of its gradient at the reference bound how much less than that any plan can cost.
#![tactic(auto)]

mod corner;
mod corners;
mod fault;
mod rows;
mod slope;
mod sums;

pub use corners::excess;
