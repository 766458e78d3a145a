// The definitions of the float lanes (specs/), theorems about them (specs/Claims.antt, specs/Accepted.antt), the struct of a cosine and a
// sine, and the code that both formats share: eight lanes at a time, and the calls that refuse.
#![tactic(auto)]

pub mod calls;
pub mod cos_sin;
pub mod formulas;
pub mod lanes;
