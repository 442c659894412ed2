//! Whether a closed loop stays in the box of its design: by faces that sum up the first limits of a plan.
#![tactic(auto)]

mod check;
mod faces;
mod fault;
mod laws;
mod read;
mod rows;
mod size;
mod sums;

pub use check::{check_faces, check_faces_under};
pub use faces::Faces;
pub use fault::StayFault;
pub use laws::{loop_stay_law, loop_under_law, stay_law};
pub use read::read_faces;
