// SplitMix64 and xoshiro256++: one stream, eight together, many draws of the eight.
#![tactic(auto)]

pub mod draws;
mod powers;
pub mod rows;
pub mod scalar;
pub mod splitmix64;
pub mod x8;
