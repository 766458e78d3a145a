// An order in, its numbers out: deliver ENGINE SEED BLOCK FIRST KIND COUNT [raw]. What an order is, what is written and what the closing
// line says is decided by `order` and by `delivery::parts`, and proved there: here the arguments are taken, and what those functions hand
// out is written. No contract can say what a program reads or writes, so that a function that only does that promises nothing.
#![tactic(auto)]

ghost use Rattle.std.specs.Prelude.{◌≡◌, ◌≤◌, length, is_ok, MatchResult};
ghost use Rattle.fills.specs.Kinds.{kinds};
ghost use Rattle.order.specs.Claims.{Accepted};
ghost use Rattle.delivery.specs.parts.Claims.{Reached};
ghost use Rattle.delivery.specs.parts.Delivery.{begun};

use delivery::parts;
use delivery::parts::Delivery;
use order::{Fault, Order};
use std::env::{Env, FillError};
use std::fmt::InlineText;
use std::io;
use std::io::{Stderr, Stdout};

// Whether a write took everything. Where it did not, standard error says why.
fn told(err: Stderr, written: io::Result<()>) -> bool
    ensures { result ≡ is_ok written }
{
    match written {
        Ok(()) => true,
        Err(error) => {
            fail(err, "deliver: standard output", error);
            false
        }
    }
}

// A line on standard error: what failed, a colon and the system's text for the error.
fn fail(err: Stderr, what: &str, error: io::Error) {
    let text = InlineText::<256>::of(error);
    let reason = without_number(text.as_str());
    let _said = eprintln!(err; "{what}: {reason}");
}

// The text of an error without its number, which the library puts behind it.
fn without_number(text: &str) -> &str {
    match text.rsplit_once(" (os error ") {
        Some((reason, _)) => reason,
        None => text,
    }
}

// Part after part of a delivery to standard output, until nothing is left. Where a write fails, hands back what is left, with the part that it
// was to write.
fn write_parts(
    to: Stdout,
    err: Stderr,
    d: Delivery,
    values: &mut [u8],
    out: &mut [u8],
) -> Result<Delivery, Delivery>
    requires { (1 ≤ d.kind) × (d.kind ≤ length kinds) × (128 ≤ length values.old) × (400 ≤ length out.old) }
    ensures { MatchResult result (λ rest. Reached d rest × (rest.left ≡ 0)) (λ rest. Reached d rest) }
{
    let mut rest = d;
    while rest.left > 0 {
        let part = parts::next_part(rest, values, out);
        let n = part.bytes;
        if !told(err, to.write_all(&out[..n])) {
            return Err(rest);
        }
        rest = part.rest;
    }
    Ok(rest)
}

fn zeros<const N: usize>() -> [u8; N]
    ensures { N ≡ length result }
{
    [0; N]
}

// An order's values to standard output. Hands back what is left of them: nothing, unless a write failed.
fn deliver(to: Stdout, err: Stderr, o: Order) -> Result<Delivery, Delivery>
    requires { Accepted o }
    ensures { MatchResult result (λ rest. Reached (begun o) rest × (rest.left ≡ 0)) (λ rest. Reached (begun o) rest) }
{
    // at most 2,560 values, whose lines have 64,000 bytes at most
    let mut values = zeros::<10240>();
    let mut out = zeros::<65536>();
    write_parts(to, err, parts::begin(o), &mut values, &mut out)
}

// The closing line of a delivery, which says that all of it was written: none where something is left.
fn close(err: Stderr, d: Delivery) {
    let mut line = zeros::<4096>();
    let n = parts::closing(d, &mut line);
    say(err, &line[..n]);
}

// Where standard error takes nothing there is no place left to say so.
fn say(err: Stderr, line: &[u8]) {
    let _said = err.write_all(line);
}

// What is wrong with the arguments.
fn refuse(err: Stderr, fault: Fault) {
    let _said = eprintln!(err; "deliver: {fault}");
}

// Argument `i`, or zeros where there is none. One of 32 bytes or more is cut, and then no 0 ends it, so that it is refused.
fn argument(rt: &impl Env, i: usize) -> [u8; 32] {
    let mut text = [0u8; 32];
    let _filled = rt.arg(i, &mut text);
    text
}

// How many arguments there are, the program's own name not counted.
fn given(rt: &impl Env) -> usize {
    for i in 1..usize::MAX {
        if let Err(FillError::NotPresent) = rt.arg(i, &mut [0u8; 32]) {
            return i - 1;
        }
    }
    usize::MAX - 1
}

fn main(rt: HostRuntime) {
    let err = rt.stderr();
    let engine = argument(&rt, 1);
    let seed = argument(&rt, 2);
    let block = argument(&rt, 3);
    let first = argument(&rt, 4);
    let kind = argument(&rt, 5);
    let count = argument(&rt, 6);
    let last = argument(&rt, 7);
    let read = order::read(
        given(&rt),
        &engine,
        &seed,
        &block,
        &first,
        &kind,
        &count,
        &last,
    );
    match read {
        Ok(o) => {
            if let Ok(rest) = deliver(rt.stdout(), err, o) {
                close(err, rest);
            }
        }
        Err(fault) => refuse(err, fault),
    }
}
