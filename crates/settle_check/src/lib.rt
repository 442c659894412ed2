//! Whether every closed loop of a controller and a plant settles: in whole numbers, where no multiplier moves.
#![tactic(auto)]

mod certificate;
mod check;
mod closed;
mod costs;
mod counted;
mod course;
mod fault;
mod laws;
mod rows;
mod settle;
mod still;
mod text;
mod tube;
mod whole;

pub use certificate::{CertificateParts, Settled, StateBox};
pub use check::test_still;
pub use fault::SettleFault;
pub use laws::{
    certified_settling_law, fast_still_law, row_law, row_settling_law, settling_law, still_law,
    tube_law, worked_law,
};
pub use settle::check_settling;
pub use text::read_certificate;
