//! `demo`: a made design from its texts to the plans of its corners.
#![tactic(auto)]

mod command;
mod inputs;
mod printing;

pub use command::demo;
