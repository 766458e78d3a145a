// What the other crates share: the refusals of a call, and definitions and laws (specs/ and proofs/).
#![tactic(auto)]

pub mod refusal;
