// What the program deliver writes: definitions and theorems (specs/, proofs/), no code.
