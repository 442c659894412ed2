//! Trials of what the engine makes of worked designs: roots of matrices, step exponents, and controllers of the accelerated machine with their bounds.
#![tactic(auto)]

#[cfg(test)]
mod accelerated;
#[cfg(test)]
mod steps;
