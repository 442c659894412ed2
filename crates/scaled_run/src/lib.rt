//! A run of a design's plant in enclosures over any unit, from any state under any plan, and what the rows have of it; and the recipe of the condensed form
//! over that unit, with what it is for both classes of designs.
#![tactic(auto)]

mod laws;
mod reach;
mod run;
mod states;

pub use laws::{
    exact_corner_room_law, exact_corners_are_scaled, exact_cost_law, exact_is_scaled,
    exact_limit_law, exact_radii_law, exact_reach_law, exact_room_law, exact_run_law,
    exact_sizes_law, fine_corners_are_scaled, fine_is_scaled, fine_sizes_law,
};
pub use reach::last_reach;
pub use run::ScaledRun;
