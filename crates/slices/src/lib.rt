// Elements stored in the places of a slice; words and halves as bytes.
#![tactic(auto)]

pub mod bytes;
pub mod put;
