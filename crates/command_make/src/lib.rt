//! `generate`, `stay`, `lean`, and `lean` with faces: a controller and the report of its bounds, made of a design of any version, a policy and more: reference
//! plans, which show how little the policy's plans cost more than the best, and faces, by which its closed loops are known to stay in the box.
#![tactic(auto)]

mod check;
mod command;
mod excess;
mod fast;
mod inputs;
mod made;
mod texts;

pub use command::{generate, lean, lean_stay, stay};
