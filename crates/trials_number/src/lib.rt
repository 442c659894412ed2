//! Trials of enclosures, of products of columns, of the spelling of whole numbers, of the multiplier and the steps that follow from a margin, and of how often a kernel asks for memory.
#![tactic(auto)]

#[cfg(test)]
mod bounds;
#[cfg(test)]
mod controllers;
#[cfg(test)]
mod enclosures;
#[cfg(test)]
mod products;
#[cfg(test)]
mod requests;
#[cfg(test)]
mod spelling;
