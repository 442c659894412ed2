//! Trials of `generate`, `stay`, `lean` with faces and `split` over stores in memory: what they refuse and what they write, of designs with exact and with fine numbers, of faces that hold and faces that
//! don't, with disturbances and without, of the worked cells of either machine, and calls that fail.
#![tactic(auto)]

#[cfg(test)]
mod generated;
#[cfg(test)]
mod makers;
#[cfg(test)]
mod splits;
#[cfg(test)]
mod stays;
