//! A box of states split into cells: the cuts of its coordinates, the cells that they make, and each cell's design.
#![tactic(auto)]

mod cell;
mod copies;
mod cuts;
mod design;
mod laws;
mod policies;
mod read;
mod read_cells;
mod record;
mod state_box;

pub use cell::cell_box;
pub use cuts::Cuts;
pub use design::cell_design;
pub use laws::split_law;
pub use policies::read_cell_policies;
pub use read::read_cuts;
pub use state_box::StateBox;
