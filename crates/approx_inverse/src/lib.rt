//! Whole numbers that solve a system of equations as near as steps of single entries reach.
#![tactic(auto)]

mod all;
mod bits;
mod column;
mod descent;
mod guess;
mod inverse;
mod laws;
mod room;
mod start;
mod system;
mod workspace;

pub use all::solve_all;
pub use column::solve_column;
pub use inverse::Inverse;
pub use laws::entry_law;
pub use system::put_column;
