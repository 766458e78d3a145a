// Floats: patterns of bits and domains; unit floats.
#![tactic(auto)]

pub mod patterns;
pub mod units;
