//! Trials of the files and the output of the system, also where a call moves few bytes.
#![tactic(auto)]

#[cfg(test)]
mod real;
#[cfg(test)]
mod slow;
