// The fills of the Philox generator.
#![tactic(auto)]

pub mod bytes;
pub mod engine;
pub mod fill_words;
pub mod typed;
