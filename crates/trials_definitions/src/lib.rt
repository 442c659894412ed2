//! The worked rows: lines that the prover computes from the definitions, with numbers that were worked out by hand or by another program.
//! Where a definition that the promise cites is changed by one step, one of them doesn't hold.
#![tactic(auto)]
