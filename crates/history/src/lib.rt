// The draws add up: every list of calls, on either engine and of a host.
#![tactic(auto)]

pub mod host;
pub mod philox4x32;
pub mod xoshiro256pp;
