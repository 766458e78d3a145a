// No code: worked cases, proved from the definitions (specs/Claims.antt).
#![tactic(auto)]
