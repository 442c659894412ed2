//! The machine with one accumulator that runs a listing, and why it makes what the controller's machine makes.
#![tactic(auto)]

mod accumulator;
mod laws;
mod machine;
mod player;
mod stop;
mod width;

pub use laws::listing_law;
pub use machine::Machine;
pub use stop::Stop;
