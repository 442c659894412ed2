//! The other files that the commands read: controllers, states, the faces of a box, disturbances, cuts with the policies of their cells, and the controllers of cells.
#![tactic(auto)]

mod cell_policies;
mod files;

pub use cell_policies::read_cell_policies_file;
pub use files::{
    CELLS_LIMIT, read_any_controller_file, read_cells_file, read_controller_file, read_cuts_file,
    read_faces_file, read_range_file, read_shifts_file, read_states_file,
};
