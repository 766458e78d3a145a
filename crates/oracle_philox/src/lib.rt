// Philox4x32-10 and its fills for a caller in C: a static library that tests/oracle links beside the Rust. The first six arguments are the
// generator's fields; each call that moves the generator leaves in them the generator after the call. A draw and a fill leave their label
// in `from`, the first block of the group, and `upper`.
#![tactic(auto)]

ghost use Rattle.std.specs.Prelude.{◌≡◌};
ghost use Rattle.fills.specs.Kinds.{u64s, u32s, f32s, f64s, normal_f32s, normal_f64s, open01_f32s, open01_f64s};
ghost use Rattle.philox.specs.x8.Machine.{drawn, fresh, sought, grouped, left_of};
ghost use Rattle.philox_fills.specs.Labelled.{LabelledFill, LabelledBytes};
ghost use Rattle.oracle_philox.specs.States.{counted, labelled, blocks_of};

use philox::x8::{Blocks, Philox4x32X8};
use philox_fills::{bytes, typed};

// The generator of the fields that a caller lends. (The C interface lends each field by itself.)
fn generator(
    key: &[u32; 2],
    stream: &u64,
    counter: &u64,
    waiting: &bool,
    pending: &[u64; 8],
    first: &u64,
) -> Philox4x32X8
    ensures { result ≡ counted key.now stream.now counter.now waiting.now pending.now
        first.now }
{
    Philox4x32X8 {
        key: *key,
        stream: *stream,
        counter: *counter,
        waiting: *waiting,
        pending: *pending,
        first: *first,
    }
}

// Leaves the fields of `rng` in them.
fn leave(
    rng: Philox4x32X8,
    key: &mut [u32; 2],
    stream: &mut u64,
    counter: &mut u64,
    waiting: &mut bool,
    pending: &mut [u64; 8],
    first: &mut u64,
)
    ensures { counted key.new stream.new counter.new waiting.new pending.new
        first.new ≡ rng }
{
    Philox4x32X8 {
        key: *key,
        stream: *stream,
        counter: *counter,
        waiting: *waiting,
        pending: *pending,
        first: *first,
    } = rng;
}

#[unsafe(no_mangle)]
pub extern "C" fn oracle_philox_new(
    key: &mut [u32; 2],
    stream: &mut u64,
    counter: &mut u64,
    waiting: &mut bool,
    pending: &mut [u64; 8],
    first: &mut u64,
    seed: u64,
    id: u64,
)
    ensures { counted key.new stream.new counter.new waiting.new pending.new
        first.new ≡ fresh seed id }
{
    leave(
        Philox4x32X8::new(seed, id),
        key,
        stream,
        counter,
        waiting,
        pending,
        first,
    );
}

#[unsafe(no_mangle)]
pub extern "C" fn oracle_philox_seek(
    key: &mut [u32; 2],
    stream: &mut u64,
    counter: &mut u64,
    waiting: &mut bool,
    pending: &mut [u64; 8],
    first: &mut u64,
    block: u64,
)
    ensures { counted key.new stream.new counter.new waiting.new pending.new
        first.new ≡ sought (counted key.old stream.old counter.old waiting.old
        pending.old first.old) block }
{
    let g = generator(key, stream, counter, waiting, pending, first);
    leave(g.seek(block), key, stream, counter, waiting, pending, first);
}

#[unsafe(no_mangle)]
pub extern "C" fn oracle_philox_next_u64x8(
    key: &mut [u32; 2],
    stream: &mut u64,
    counter: &mut u64,
    waiting: &mut bool,
    pending: &mut [u64; 8],
    first: &mut u64,
    from: &mut u64,
    upper: &mut bool,
    words: &mut [u64; 8],
)
    ensures { record {
      words = words.new;
      label = labelled from.new upper.new;
      rng = counted
          key.new stream.new counter.new waiting.new pending.new first.new;
    }
        ≡ drawn (counted key.old stream.old counter.old waiting.old pending.old
        first.old) }
{
    let g = generator(key, stream, counter, waiting, pending, first);
    let d = g.next_u64x8();
    let w = d.words;
    *words = w;
    *from = d.label.first;
    *upper = d.label.upper;
    leave(d.rng, key, stream, counter, waiting, pending, first);
}

// `words` has word k of block i at place i of row k.
#[unsafe(no_mangle)]
pub extern "C" fn oracle_philox_blocks(
    key: &mut [u32; 2],
    stream: &mut u64,
    counter: &mut u64,
    waiting: &mut bool,
    pending: &mut [u64; 8],
    first: &mut u64,
    words: &mut [[u32; 8]; 4],
)
    ensures { blocks_of words.new (counted key.new stream.new counter.new
        waiting.new pending.new first.new) ≡ grouped
        (counted key.old stream.old counter.old waiting.old pending.old
        first.old) }
{
    let g = generator(key, stream, counter, waiting, pending, first);
    let Blocks {
        w0,
        w1,
        w2,
        w3,
        rng,
    } = g.blocks();
    *words = [w0, w1, w2, w3];
    leave(rng, key, stream, counter, waiting, pending, first);
}

#[unsafe(no_mangle)]
pub extern "C" fn oracle_philox_draws_left(
    key: &[u32; 2],
    stream: &u64,
    counter: &u64,
    waiting: &bool,
    pending: &[u64; 8],
    first: &u64,
) -> u64
    ensures { result
        ≡ left_of (counted key.now stream.now counter.now waiting.now pending.now
        first.now) }
{
    let g = generator(key, stream, counter, waiting, pending, first);
    g.draws_left()
}

// The fills answer their draws.
#[unsafe(no_mangle)]
pub extern "C" fn oracle_philox_fill_u64(
    key: &mut [u32; 2],
    stream: &mut u64,
    counter: &mut u64,
    waiting: &mut bool,
    pending: &mut [u64; 8],
    first: &mut u64,
    from: &mut u64,
    upper: &mut bool,
    out: &mut [u64],
) -> u64
    ensures { LabelledFill u64s (counted key.old stream.old counter.old waiting.old
        pending.old first.old) out.old out.new
        (record {
          draws = result;
          label = labelled from.new upper.new;
          rng = counted key.new stream.new
              counter.new waiting.new pending.new first.new;
        }) }
{
    let g = generator(key, stream, counter, waiting, pending, first);
    let f = typed::fill_u64(g, out);
    *from = f.label.first;
    *upper = f.label.upper;
    leave(f.rng, key, stream, counter, waiting, pending, first);
    f.draws
}

#[unsafe(no_mangle)]
pub extern "C" fn oracle_philox_fill_u32(
    key: &mut [u32; 2],
    stream: &mut u64,
    counter: &mut u64,
    waiting: &mut bool,
    pending: &mut [u64; 8],
    first: &mut u64,
    from: &mut u64,
    upper: &mut bool,
    out: &mut [u32],
) -> u64
    ensures { LabelledFill u32s (counted key.old stream.old counter.old waiting.old
        pending.old first.old) out.old out.new
        (record {
          draws = result;
          label = labelled from.new upper.new;
          rng = counted key.new stream.new
              counter.new waiting.new pending.new first.new;
        }) }
{
    let g = generator(key, stream, counter, waiting, pending, first);
    let f = typed::fill_u32(g, out);
    *from = f.label.first;
    *upper = f.label.upper;
    leave(f.rng, key, stream, counter, waiting, pending, first);
    f.draws
}

#[unsafe(no_mangle)]
pub extern "C" fn oracle_philox_fill_f32(
    key: &mut [u32; 2],
    stream: &mut u64,
    counter: &mut u64,
    waiting: &mut bool,
    pending: &mut [u64; 8],
    first: &mut u64,
    from: &mut u64,
    upper: &mut bool,
    out: &mut [f32],
) -> u64
    ensures { LabelledFill f32s (counted key.old stream.old counter.old waiting.old
        pending.old first.old) out.old out.new
        (record {
          draws = result;
          label = labelled from.new upper.new;
          rng = counted key.new stream.new
              counter.new waiting.new pending.new first.new;
        }) }
{
    let g = generator(key, stream, counter, waiting, pending, first);
    let f = typed::fill_f32(g, out);
    *from = f.label.first;
    *upper = f.label.upper;
    leave(f.rng, key, stream, counter, waiting, pending, first);
    f.draws
}

#[unsafe(no_mangle)]
pub extern "C" fn oracle_philox_fill_f64(
    key: &mut [u32; 2],
    stream: &mut u64,
    counter: &mut u64,
    waiting: &mut bool,
    pending: &mut [u64; 8],
    first: &mut u64,
    from: &mut u64,
    upper: &mut bool,
    out: &mut [f64],
) -> u64
    ensures { LabelledFill f64s (counted key.old stream.old counter.old waiting.old
        pending.old first.old) out.old out.new
        (record {
          draws = result;
          label = labelled from.new upper.new;
          rng = counted key.new stream.new
              counter.new waiting.new pending.new first.new;
        }) }
{
    let g = generator(key, stream, counter, waiting, pending, first);
    let f = typed::fill_f64(g, out);
    *from = f.label.first;
    *upper = f.label.upper;
    leave(f.rng, key, stream, counter, waiting, pending, first);
    f.draws
}

#[unsafe(no_mangle)]
pub extern "C" fn oracle_philox_fill_normal_f32(
    key: &mut [u32; 2],
    stream: &mut u64,
    counter: &mut u64,
    waiting: &mut bool,
    pending: &mut [u64; 8],
    first: &mut u64,
    from: &mut u64,
    upper: &mut bool,
    out: &mut [f32],
) -> u64
    ensures { LabelledFill normal_f32s (counted key.old stream.old counter.old waiting.old
        pending.old first.old) out.old out.new
        (record {
          draws = result;
          label = labelled from.new upper.new;
          rng = counted key.new stream.new
              counter.new waiting.new pending.new first.new;
        }) }
{
    let g = generator(key, stream, counter, waiting, pending, first);
    let f = typed::fill_normal_f32(g, out);
    *from = f.label.first;
    *upper = f.label.upper;
    leave(f.rng, key, stream, counter, waiting, pending, first);
    f.draws
}

#[unsafe(no_mangle)]
pub extern "C" fn oracle_philox_fill_normal_f64(
    key: &mut [u32; 2],
    stream: &mut u64,
    counter: &mut u64,
    waiting: &mut bool,
    pending: &mut [u64; 8],
    first: &mut u64,
    from: &mut u64,
    upper: &mut bool,
    out: &mut [f64],
) -> u64
    ensures { LabelledFill normal_f64s (counted key.old stream.old counter.old waiting.old
        pending.old first.old) out.old out.new
        (record {
          draws = result;
          label = labelled from.new upper.new;
          rng = counted key.new stream.new
              counter.new waiting.new pending.new first.new;
        }) }
{
    let g = generator(key, stream, counter, waiting, pending, first);
    let f = typed::fill_normal_f64(g, out);
    *from = f.label.first;
    *upper = f.label.upper;
    leave(f.rng, key, stream, counter, waiting, pending, first);
    f.draws
}

#[unsafe(no_mangle)]
pub extern "C" fn oracle_philox_fill_open01_f32(
    key: &mut [u32; 2],
    stream: &mut u64,
    counter: &mut u64,
    waiting: &mut bool,
    pending: &mut [u64; 8],
    first: &mut u64,
    from: &mut u64,
    upper: &mut bool,
    out: &mut [f32],
) -> u64
    ensures { LabelledFill open01_f32s (counted key.old stream.old counter.old waiting.old
        pending.old first.old) out.old out.new
        (record {
          draws = result;
          label = labelled from.new upper.new;
          rng = counted key.new stream.new
              counter.new waiting.new pending.new first.new;
        }) }
{
    let g = generator(key, stream, counter, waiting, pending, first);
    let f = typed::fill_open01_f32(g, out);
    *from = f.label.first;
    *upper = f.label.upper;
    leave(f.rng, key, stream, counter, waiting, pending, first);
    f.draws
}

#[unsafe(no_mangle)]
pub extern "C" fn oracle_philox_fill_open01_f64(
    key: &mut [u32; 2],
    stream: &mut u64,
    counter: &mut u64,
    waiting: &mut bool,
    pending: &mut [u64; 8],
    first: &mut u64,
    from: &mut u64,
    upper: &mut bool,
    out: &mut [f64],
) -> u64
    ensures { LabelledFill open01_f64s (counted key.old stream.old counter.old waiting.old
        pending.old first.old) out.old out.new
        (record {
          draws = result;
          label = labelled from.new upper.new;
          rng = counted key.new stream.new
              counter.new waiting.new pending.new first.new;
        }) }
{
    let g = generator(key, stream, counter, waiting, pending, first);
    let f = typed::fill_open01_f64(g, out);
    *from = f.label.first;
    *upper = f.label.upper;
    leave(f.rng, key, stream, counter, waiting, pending, first);
    f.draws
}

// Answers the refusal's number, and leaves the draws in `draws`.
#[unsafe(no_mangle)]
pub extern "C" fn oracle_philox_fill_bytes(
    key: &mut [u32; 2],
    stream: &mut u64,
    counter: &mut u64,
    waiting: &mut bool,
    pending: &mut [u64; 8],
    first: &mut u64,
    from: &mut u64,
    upper: &mut bool,
    kind: u64,
    out: &mut [u8],
    draws: &mut u64,
) -> u64
    ensures { LabelledBytes kind (counted key.old stream.old counter.old waiting.old
        pending.old first.old) out.old out.new
        (record {
          refusal = result;
          value = record {
            draws = draws.new;
            label = labelled from.new upper.new;
            rng = counted
                key.new stream.new counter.new waiting.new pending.new first.new;
          };
        }) }
{
    let g = generator(key, stream, counter, waiting, pending, first);
    match bytes::fill_bytes(g, kind, out) {
        Ok(f) => {
            *from = f.label.first;
            *upper = f.label.upper;
            leave(f.rng, key, stream, counter, waiting, pending, first);
            *draws = f.draws;
            0
        }
        Err(refusal) => {
            *from = 0;
            *upper = false;
            *draws = 0;
            refusal.number()
        }
    }
}
