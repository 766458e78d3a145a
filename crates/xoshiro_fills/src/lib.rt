// The fills of the eight-lane xoshiro256++.
#![tactic(auto)]

pub mod bytes;
pub mod engine;
pub mod fill_words;
pub mod typed;
