// Either engine under one type: a generator at any of its draws, and the fills of bytes from it on.
ghost use Rattle.std.specs.Prelude.{◌≡◌};
ghost use Rattle.base.specs.Iterate.{iterate};
ghost use Rattle.fills.specs.FillBytes.{FilledBytes};
ghost use Rattle.delivery.specs.source.Source.{next_of, start_of, either, answered};

use base::refusal::Refusal;
use philox::x8::Philox4x32X8;
use xoshiro::x8::Xoshiro256ppX8;

// A generator of one of the two engines.
#[derive(Clone, Copy)]
pub enum Source {
    Xoshiro(Xoshiro256ppX8),
    Philox(Philox4x32X8),
}

// A byte fill's draws, and the source after them.
#[derive(Clone, Copy)]
pub struct SourceFill {
    pub draws: u64,
    pub source: Source,
}

// The source of an engine, a seed and a block (for Philox a key and a stream) after `first` draws: xoshiro256++ is engine 1, and Philox any other.
pub fn start(engine: u64, seed: u64, block: u64, first: u64) -> Source
    ensures { result ≡ iterate next_of first (start_of engine seed block) }
{
    if engine == 1 {
        return Source::Xoshiro(Xoshiro256ppX8::from_seed_block(seed, block).rng.skip(first));
    }
    Source::Philox(Philox4x32X8::new(seed, block).skip(first))
}

// The bytes of the fill of a kind, by its number, or a refusal that changes nothing: the engine's own `fill_bytes`.
pub fn fill_bytes(s: Source, kind: u64, out: &mut [u8]) -> Result<SourceFill, Refusal>
    ensures { let a = answered s result in FilledBytes either kind s out.old out.new a.refusal a.value.draws a.value.source }
{
    match s {
        Source::Xoshiro(rng) => {
            let f = xoshiro_fills::bytes::fill_bytes(rng, kind, out)?;
            Ok(SourceFill {
                draws: f.draws,
                source: Source::Xoshiro(f.rng),
            })
        }
        Source::Philox(rng) => {
            let f = philox_fills::bytes::fill_bytes(rng, kind, out)?;
            Ok(SourceFill {
                draws: f.draws,
                source: Source::Philox(f.rng),
            })
        }
    }
}
