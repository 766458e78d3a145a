// The formulas in f32, eight lanes at a time, Box-Muller also 64, and the calls that refuse.
#![tactic(auto)]

pub mod box_muller;
pub mod box_muller_x64;
pub mod calls;
pub mod formulas;
pub mod ln;
pub mod sincos_turns;
pub mod sqrt;
