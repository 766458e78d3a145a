// One order delivered part by part, so that a caller needs no more memory than two buffers. What a caller writes, and when it is done, is
// decided here: it begins with an order, takes part after part and writes what it is handed, until nothing is left, and then the closing
// line.
ghost use Rattle.std.specs.Prelude.{◌≡◌, ◌*◌, ◌≤◌, length};
ghost use Rattle.base.specs.Put.{Put};
ghost use Rattle.text.specs.lines.Lines.{Counts};
ghost use Rattle.delivery.specs.parts.Delivery.{width_of, places_of, begun, text_room, closing_of, FilledPart, NextPart};

use crate::source;
use crate::source::{Source, SourceFill};
use fills::kinds;
use order::Order;
use text::lines;

// The places of a kind that are still to come, and the source that they are drawn from; whether they are written as bytes or as lines;
// and for the closing line, the delivery's first draw and the draws that its parts made so far.
#[derive(Clone, Copy)]
pub struct Delivery {
    pub source: Source,
    pub kind: u64,
    pub left: u64,
    pub raw: bool,
    pub first: u64,
    pub draws: u64,
}

// How many bytes a part has, and what is still to come after it.
#[derive(Clone, Copy)]
pub struct Part {
    pub bytes: usize,
    pub rest: Delivery,
}

// The delivery of an order, of which no part was made yet.
pub fn begin(o: Order) -> Delivery
    ensures { result ≡ begun o }
{
    let source = source::start(o.engine, o.seed, o.block, o.first);
    Delivery {
        source,
        kind: o.kind,
        left: o.count,
        raw: o.raw,
        first: o.first,
        draws: 0,
    }
}

// The places of a part in a buffer of `len` bytes.
fn places(kind: u64, left: u64, len: usize) -> usize
    ensures { (result ≡ places_of kind left len) × (result ≤ left) × (result * width_of kind ≤ len) }
{
    if kinds::is_kind(kind) {
        let room = 16 * (len / (16 * kinds::width(kind)));
        return left.min(room as u64) as usize;
    }
    0
}

// The next part's values as bytes, at the start of `out`: as many places as are left, or as many times 16 as `out` has room for. The
// bytes behind them stay. Nothing is written where the kind is outside the table.
fn fill_part(d: Delivery, out: &mut [u8]) -> Part
    ensures { FilledPart d out.old out.new result.bytes result.rest }
{
    let kind = d.kind;
    let left = d.left;
    let from = d.source;
    let n = places(kind, left, out.len());
    let bytes = n * kinds::width(kind);
    // A refused fill makes no draws and leaves the source.
    let draws = 0;
    let none = SourceFill {
        draws,
        source: from,
    };
    let f = source::fill_bytes(from, kind, &mut out[..bytes]).unwrap_or(none);
    let after = f.source;
    let rest = Delivery {
        source: after,
        kind,
        left: left - n as u64,
        raw: d.raw,
        first: d.first,
        draws: std::num::wrapping_add_u64(d.draws, f.draws),
    };
    Part { bytes, rest }
}

// The bytes of values that a part in text may have: no more than `values`, nor than there are lines for in a text of `out` bytes. A line
// has 25 bytes at most.
fn text_room(kind: u64, values: usize, out: usize) -> usize
    ensures { (result ≡ text_room kind values out) × (result ≤ values) }
{
    values.min(out / 25 * kinds::width(kind))
}

// The next part of a delivery as it is to be written, at the start of `out`: the bytes of its values, which are made there; or their
// lines, and then the values are made in `values`. What stands behind them stays, and with `raw` all of `values`. The part is empty only
// where nothing is left, the kind is outside the table, or a buffer is too small: 128 bytes of values and 400 bytes of text are enough.
pub fn next_part(d: Delivery, values: &mut [u8], out: &mut [u8]) -> Part
    ensures { NextPart d values.old values.new out.old out.new result.bytes result.rest }
{
    if d.raw {
        return fill_part(d, out);
    }
    let kind = d.kind;
    let room = text_room(kind, values.len(), out.len());
    let part = fill_part(d, &mut values[..room]);
    let n = part.bytes;
    let rest = part.rest;
    let bytes = lines::put_lines(kind, &values[..n], out);
    Part { bytes, rest }
}

// The closing line of a delivery, at the start of `line`, and how many bytes it has: the delivery's first draw, and the first draw after
// those that its parts made. Nothing where something is left. It has 42 bytes at most; with less room nothing is written either.
pub fn closing(d: Delivery, line: &mut [u8]) -> usize
    ensures put { Put (closing_of d (length line.old)) 0 line.old line.new result }
    ensures counts { Counts result line.new }
{
    if d.left != 0 {
        return 0;
    }
    lines::put_ends(d.first, d.draws, line)
}
