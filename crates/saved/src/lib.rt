// Saved forms of a generator.
#![tactic(auto)]

pub mod fields;
pub mod philox4x32;
pub mod xoshiro256pp;
