// The words of draws into elements and their bytes, a module a kind: kinds 1 to 4, 7 and 8.
#![tactic(auto)]

pub mod engine;
pub mod f32s;
pub mod f64s;
pub mod fill;
pub mod group;
pub mod groups;
pub mod open01_f32s;
pub mod open01_f64s;
pub mod u32s;
pub mod u64s;
