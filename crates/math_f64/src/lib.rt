// The formulas in f64, eight lanes at a time, Box-Muller also 32, and the calls that refuse.
#![tactic(auto)]

pub mod box_muller;
pub mod box_muller_x32;
pub mod calls;
pub mod formulas;
pub mod ln;
pub mod sincos_turns;
pub mod sqrt;
