// SplitMix64 (Vigna), which makes a state from a seed (SplitMix64 of the Rust's xoshiro.rs).
ghost use Rattle.std.specs.Prelude.{◌≡◌};
ghost use Rattle.xoshiro.specs.splitmix64.SplitMix64.{started, drawn};

// One word of state. Every seed is valid.
#[derive(Clone, Copy)]
pub struct SplitMix64 {
    pub state: u64,
}

// A word, and the generator after it. (A record: the scope document's form for a pair.)
#[derive(Clone, Copy)]
pub struct Draw {
    pub word: u64,
    pub rng: SplitMix64,
}

impl SplitMix64 {
    // The generator whose first word is made from `seed`.
    pub fn new(seed: u64) -> Self
        ensures { result ≡ started seed }
    {
        Self { state: seed }
    }

    // A word, and the generator after it.
    pub fn next_u64(self) -> Draw
        ensures { result ≡ drawn self }
    {
        let state = std::num::wrapping_add_u64(self.state, 0x9E37_79B9_7F4A_7C15);
        let y = words::wrapping_mul(state ^ (state >> 30), 0xBF58_476D_1CE4_E5B9);
        let z = words::wrapping_mul(y ^ (y >> 27), 0x94D0_49BB_1331_11EB);
        Draw {
            word: z ^ (z >> 31),
            rng: SplitMix64 { state },
        }
    }
}
