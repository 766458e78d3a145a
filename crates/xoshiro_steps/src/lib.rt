// Steps and jumps of xoshiro256++, and how far a jump goes: definitions and theorems (specs/, proofs/), no code.
#![tactic(auto)]
