// Numbers and floats as text, and lines of them.
#![tactic(auto)]

pub mod decimal;
pub mod hexfloat;
pub mod lines;
