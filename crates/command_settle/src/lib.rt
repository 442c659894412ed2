//! `settle`: the turn from which all loops from a box of states lie in a small box for good, and that box, by a certificate.
#![tactic(auto)]

mod certificate;
mod check;
mod command;
mod files;
mod lines;
mod printing;

pub use command::settle;
