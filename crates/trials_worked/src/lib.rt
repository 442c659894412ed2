//! What the tests share: the texts of the worked designs and their controllers, and how they are changed, read and compared.
#![tactic(auto)]

mod changes;
mod designs;
mod matrices;
mod texts;

pub use changes::{Changed, FINE_STILL, FORCED, HIGH, LIMITS, cells_text, changed_text};
pub use designs::{changed_design, design};
pub use matrices::has_rows;
pub use texts::{
    CONTROLLER, CONTROLLER_OF_TWO, DEMO_OF_SEVEN, DESIGN, FAST_CONTROLLER, LEAN_CONTROLLER,
    LISTING, LOW, LOW_REPORT, PLANS, POLICY, REPORT, SATELLITE, STATES,
};
