// Lists of a host's calls on one saved form: definitions and theorems (specs/, proofs/), no code.
