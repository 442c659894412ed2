//! Trials of the readers of designs, of controllers, of numbers, of states and of the program's arguments, on worked texts, on texts that are one change away from them, and on those of made designs.
#![tactic(auto)]

#[cfg(test)]
mod commands;
#[cfg(test)]
mod controllers;
#[cfg(test)]
mod designs;
#[cfg(test)]
mod made_designs;
#[cfg(test)]
mod policies;
