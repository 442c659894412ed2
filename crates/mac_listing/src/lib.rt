//! The step of a controller as a list of instructions for a machine with one accumulator.
#![tactic(auto)]

mod bad_listing;
mod body;
mod body_line;
mod grammar;
mod head_line;
mod instruction;
mod laws;
mod listing;
mod listing_parts;
mod reader;
mod writer;

pub use bad_listing::BadListing;
pub use instruction::Op;
pub use laws::{grammar_law, length_law, listing_prefix_law, one_listing_law};
pub use listing::{Listing, make_listing};
pub use listing_parts::ListingParts;
pub use reader::read_listing;
pub use writer::write_listing;
