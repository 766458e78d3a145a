// The arguments of an order, ENGINE SEED BLOCK FIRST KIND COUNT [raw], as the numbers that they stand for. Each argument is in an array of
// zeros that is longer than it, so that a 0 ends it.
#![tactic(auto)]

ghost use Rattle.std.specs.Prelude.{◌≡◌, not, ◌+◌, leb, Some, None, nat_eq, position};
ghost use Rattle.std.specs.List.{starts_with as begins_with};
ghost use Rattle.order.specs.Words.{number};
ghost use Rattle.order.specs.Order.{engine_of, numbered, kind_of, last_block, last_draw, origin_of, with_draws, with_values, order_of, nonzero};
ghost use Rattle.order.specs.Faults.{engine_in, number_of_engine, blank, answer_of, started, origin_in};

use fills::kinds;
use std::error::Error;
use std::fmt;
use text::decimal;

// An order, with the draws that its values take.
#[derive(Clone, Copy, Debug, PartialEq, Eq)]
pub struct Order {
    // 1 xoshiro256++, 2 Philox
    pub engine: u64,
    pub seed: u64,
    pub block: u64,
    pub first: u64,
    pub kind: u64,
    pub count: u64,
    pub draws: u64,
    pub raw: bool,
}

// What is wrong with the arguments (none of the scope document's refusals).
#[derive(Clone, Copy, Debug, PartialEq, Eq)]
pub enum Fault {
    Engine,
    Seed,
    Block,
    First,
    Kind,
    Count,
    // The last argument, where there are seven.
    Last,
    // More draws than there are from `first` on.
    Draws,
    // Too few arguments or too many.
    Arguments,
}

// What the argument takes that is wrong, or why the order as a whole is refused.
impl fmt::Display for Fault {
    ghost use Rattle.order.specs.Faults.{message_of};

    ghost output = { λ f. Some (message_of f) };

    fn fmt<W: fmt::Write>(&self, f: &mut fmt::Formatter<W>) -> fmt::Result {
        match self {
            Fault::Engine => f.write_str("ENGINE: xoshiro or philox"),
            Fault::Seed => f.write_str(
                "SEED: a whole number in decimal digits, with no zero in front, from 0 to 18446744073709551615",
            ),
            Fault::Block => f.write_str(
                "BLOCK: a whole number in decimal digits, with no zero in front, from 0 to 2305843009213693951 for xoshiro, to 18446744073709551615 for philox",
            ),
            Fault::First => f.write_str(
                "FIRST: a whole number in decimal digits, with no zero in front, from 0 to 18446744073709551615 for xoshiro, to 4611686018427387903 for philox",
            ),
            Fault::Kind => f.write_str(
                "KIND: 1 to 8, or u64, u32, f32, f64, normal_f32, normal_f64, open01_f32, open01_f64",
            ),
            Fault::Count => f.write_str(
                "COUNT: a whole number in decimal digits, with no zero in front, from 0 to 18446744073709551615",
            ),
            Fault::Last => f.write_str("the last argument: raw, or nothing"),
            Fault::Draws => f.write_str(
                "COUNT: FIRST and the draws of COUNT values come to more than 18446744073709551616 for xoshiro, 4611686018427387904 for philox",
            ),
            Fault::Arguments => f.write_str(
                "usage: deliver ENGINE SEED BLOCK FIRST KIND COUNT [raw]",
            ),
        }
    }
}

impl Error for Fault {}

#[derive(Clone, Copy, Debug, PartialEq, Eq)]
enum Engine {
    Xoshiro,
    Philox,
}

impl Engine {
    fn number(self) -> u64
        ensures { result ≡ number_of_engine self }
    {
        match self {
            Engine::Xoshiro => 1,
            Engine::Philox => 2,
        }
    }

    fn last_block(self) -> u64
        ensures { result ≡ last_block (number_of_engine self) }
    {
        match self {
            Engine::Xoshiro => 0x1FFF_FFFF_FFFF_FFFF,
            Engine::Philox => 0xFFFF_FFFF_FFFF_FFFF,
        }
    }

    fn last_draw(self) -> u64
        ensures { result ≡ last_draw (number_of_engine self) }
    {
        match self {
            Engine::Xoshiro => 0xFFFF_FFFF_FFFF_FFFF,
            Engine::Philox => 0x3FFF_FFFF_FFFF_FFFF,
        }
    }
}

// The engine that an argument names.
fn engine_of(s: &[u8]) -> Option<Engine>
    ensures { engine_in result ≡ engine_of s.now }
{
    if s.starts_with(b"xoshiro\0") {
        return Some(Engine::Xoshiro);
    }
    if s.starts_with(b"philox\0") {
        return Some(Engine::Philox);
    }
    None
}

// The number that an argument is, at most top.
fn number(s: &[u8], top: u64) -> Option<u64>
    ensures { result ≡ number top s.now None Some }
{
    decimal::read_number(s, 0, 0, top).map(|n| n.value)
}

// The names of the kinds, from kind 1 on.
const NAMES: [&[u8]; 8] = [
    b"u64\0",
    b"u32\0",
    b"f32\0",
    b"f64\0",
    b"normal_f32\0",
    b"normal_f64\0",
    b"open01_f32\0",
    b"open01_f64\0",
];

// The place of the first of some words that a text starts with.
fn named(words: &[&[u8]], s: &[u8]) -> Option<usize>
    ensures { result ≡ position (λ w. begins_with nat_eq s.now w.now) words.now }
{
    words.iter().position(|w| s.starts_with(w))
}

// The kind that an argument names, by its name or its number.
fn kind_of(s: &[u8]) -> Option<u64>
    ensures { result ≡ nonzero (kind_of s.now) }
{
    if let Some(i) = named(&NAMES, s) {
        return Some(i as u64 + 1);
    }
    let k = number(s, kinds::count())?;
    (k != 0).then_some(k)
}

// Where an order starts: the generator and its draw `first`.
#[derive(Clone, Copy)]
struct Start {
    engine: Engine,
    seed: u64,
    block: u64,
    first: u64,
}

fn origin(engine: &[u8], seed: &[u8], block: &[u8], first: &[u8]) -> Result<Start, Fault>
    ensures { origin_in result ≡ origin_of engine.now seed.now block.now first.now }
{
    let engine = engine_of(engine).ok_or(Fault::Engine)?;
    let seed = number(seed, 0xFFFF_FFFF_FFFF_FFFF).ok_or(Fault::Seed)?;
    let block = number(block, engine.last_block()).ok_or(Fault::Block)?;
    let first = number(first, engine.last_draw()).ok_or(Fault::First)?;
    Ok(Start {
        engine,
        seed,
        block,
        first,
    })
}

// The order that starts at `o`, of `count` values of a kind.
fn with_draws(o: Start, kind: u64, count: u64, raw: bool) -> Result<Order, Fault>
    ensures { answer_of result ≡ with_draws (started o) kind count raw }
{
    let draws = kinds::draws_of(kind, count);
    if is_past(o.first, draws, o.engine.last_draw()) {
        return Err(Fault::Draws);
    }
    Ok(Order {
        engine: o.engine.number(),
        seed: o.seed,
        block: o.block,
        first: o.first,
        kind,
        count,
        draws,
        raw,
    })
}

// Whether `draws` draws from draw `first` on go past the draw `last`.
fn is_past(first: u64, draws: u64, last: u64) -> bool
    ensures { result ≡ not (leb (first + draws) (last + 1)) }
{
    if last < first {
        // only if nothing is drawn, and `first` is the draw after the last
        if draws == 0 {
            return last < first - 1;
        }
        return true;
    }
    // last - first + 1 may not fit
    if draws == 0 {
        return false;
    }
    last - first < draws - 1
}

fn with_values(o: Start, kind: &[u8], count: &[u8], raw: bool) -> Result<Order, Fault>
    ensures { answer_of result ≡ with_values (started o) kind.now count.now raw }
{
    let k = kind_of(kind).ok_or(Fault::Kind)?;
    let c = number(count, 0xFFFF_FFFF_FFFF_FFFF).ok_or(Fault::Count)?;
    with_draws(o, k, c, raw)
}

// The order of `given` arguments. `last` is looked at only where there are 7.
pub fn read(
    given: usize,
    engine: &[u8],
    seed: &[u8],
    block: &[u8],
    first: &[u8],
    kind: &[u8],
    count: &[u8],
    last: &[u8],
) -> Result<Order, Fault>
    ensures { answer_of result ≡ order_of given engine.now seed.now block.now first.now kind.now count.now last.now }
{
    if given < 6 {
        return Err(Fault::Arguments);
    }
    if given > 7 {
        return Err(Fault::Arguments);
    }
    let o = origin(engine, seed, block, first)?;
    if given == 6 {
        return with_values(o, kind, count, false);
    }
    if last.starts_with(b"raw\0") {
        return with_values(o, kind, count, true);
    }
    Err(Fault::Last)
}
