//! Trials of the whole program over stores and outputs in memory: of all commands but those of `trials_makers`, and of these, one call after the other.
#![tactic(auto)]

#[cfg(test)]
mod answers;
#[cfg(test)]
mod cells;
#[cfg(test)]
mod compiled;
#[cfg(test)]
mod programs;
#[cfg(test)]
mod whole;
