// A generator at a draw, a fill in parts, and the claims of a delivery.
#![tactic(auto)]

pub mod claims;
pub mod parts;
pub mod source;
