// An engine of random words, as code that is generic over the engines names it.
ghost use Rattle.std.specs.Prelude.{◌≡◌, min};
ghost use Rattle.base.specs.Engine.{Engine as EngineOf, DrawnAt};
ghost use Rattle.base.proofs.Engine.{EachEight};

// The words of a draw, and the generator after it.
#[derive(Clone, Copy)]
pub struct Drawn<R> {
    pub words: [u64; 8],
    pub rng: R,
}

// The generator after some draws, and how many they were. (In this order: four words that are moved at once are then words of one row.)
#[derive(Clone, Copy)]
pub struct Made<R> {
    pub rng: R,
    pub draws: u64,
}

// What draws from generators of one type hand out. A type of its own stands for the engine, since a generator's crate knows of no fills.
pub trait Engine {
    type Rng: Copy;

    ghost engine: { EngineOf Self.Rng };

    // One draw.
    fn draw(g: Self::Rng) -> Drawn<Self::Rng>
        ensures { (result.words ≡ engine.words g) × (result.rng ≡ engine.next g) };

    // The words of `m` draws, at most 16, in a buffer.
    fn fill_buffer(g: Self::Rng, b: &mut [u64; 128], m: usize) -> Made<Self::Rng>
        ensures { DrawnAt engine g 0 (min 16 m) b.old b.new result.draws result.rng };

    ghost eight_words: { EachEight engine };
}
