// Philox4x32-10: a block, eight blocks as a generator, many draws of it.
#![tactic(auto)]

pub mod block;
pub mod draws;
pub mod x8;
