// A worked example for each engine, for those who prove a model of their own (docs/PROVING.md): a function that makes five calls on a
// generator. What it promises is proved from the contracts of these calls and the theorem over lists of calls, and from nothing else.
#![tactic(auto)]

pub mod philox4x32;
pub mod xoshiro256pp;
