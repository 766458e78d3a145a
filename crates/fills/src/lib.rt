// The table of kinds and the promise of every fill: definitions and laws (specs/, proofs/). Its code is the table's columns.
#![tactic(auto)]

pub mod kinds;
