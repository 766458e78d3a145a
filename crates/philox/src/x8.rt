// Philox4x32-10, eight blocks at a time (Philox4x32X8 of the Rust's philox.rs).
ghost use Rattle.std.specs.Prelude.{◌≡◌, true, false, ◌+◌, ◌*◌, ◌%◌, ◌^◌, ◌<◌};
ghost use Rattle.philox.specs.x8.Machine.{join_of, fresh, sought, grouped, label_of, drawn, skipped, left_of};

use crate::block;

// Eight words from their halves.
fn joined(lo: [u32; 8], hi: [u32; 8]) -> [u64; 8]
    ensures { result ≡ join_of lo hi }
{
    std::array::from_fn(|i| words::join(lo[i], hi[i]))
}

// A key, a stream and a block counter; and eight words that wait for the next draw, with the first block of their group, or zeros where
// none wait. (The one byte stands last, so that a copy moves the words as words. An array beside a yes or no, and no Option: the scope document
// names this form.)
#[derive(Clone, Copy)]
pub struct Philox4x32X8 {
    pub key: [u32; 2],
    pub stream: u64,
    pub counter: u64,
    pub pending: [u64; 8],
    pub first: u64,
    pub waiting: bool,
}

// Where a draw's words come from: the first block of its group, and whether they are the group's upper half.
#[derive(Clone, Copy)]
pub struct Label {
    pub first: u64,
    pub upper: bool,
}

// Eight words, their label, and the generator after them. (Records: the scope document's form for a pair.)
#[derive(Clone, Copy)]
pub struct Draw {
    pub words: [u64; 8],
    pub label: Label,
    pub rng: Philox4x32X8,
}

// The four words of eight blocks, word k of block i at place i of row k, and the generator after them.
#[derive(Clone, Copy)]
pub struct Blocks {
    pub w0: [u32; 8],
    pub w1: [u32; 8],
    pub w2: [u32; 8],
    pub w3: [u32; 8],
    pub rng: Philox4x32X8,
}

// The counter after `n` groups of eight blocks; with what its type says of the one before.
fn groups_on(counter: u64, n: u64) -> u64
    ensures { (result ≡ (counter + 8 * n) % 2 ^ 64) × (counter < 2 ^ 64) }
{
    std::num::wrapping_add_u64(counter, words::wrapping_mul(8, n))
}

// The generator after `n` draws from the counter on, where no words wait. Two draws use eight blocks, so that a seek takes the place of all
// but an odd one.
fn skip_groups(g: Philox4x32X8, n: u64) -> Philox4x32X8
    ensures { result ≡ skipped n (sought g g.counter) }
{
    let rng = g.seek(groups_on(g.counter, n / 2));
    if n % 2 == 0 {
        return rng;
    }
    let draw = rng.next_u64x8();
    draw.rng
}

impl Philox4x32X8 {
    // Stream 0 of key `seed`, counter 0.
    pub fn from_seed(seed: u64) -> Self
        ensures { result ≡ fresh seed 0 }
    {
        Philox4x32X8::new(seed, 0)
    }

    // Stream `stream` of key `seed`, counter 0.
    pub fn new(seed: u64, stream: u64) -> Self
        ensures { result ≡ fresh seed stream }
    {
        let lo = words::low(seed);
        let hi = words::high(seed);
        Self {
            key: [lo, hi],
            stream,
            counter: 0,
            waiting: false,
            pending: [0; 8],
            first: 0,
        }
    }

    // Block `block` is next, and no words wait.
    pub fn seek(self, block: u64) -> Self
        ensures { result ≡ sought self block }
    {
        let key = self.key;
        let waiting = false;
        let pending = [0u64; 8];
        let first = 0u64;
        Self {
            key,
            stream: self.stream,
            counter: block,
            waiting,
            pending,
            first,
        }
    }

    // The eight blocks at the counter. Words that wait go on waiting, and keep the number of their group.
    pub fn blocks(self) -> Blocks
        ensures { result ≡ grouped self }
    {
        let key = self.key;
        let group = block::eight_blocks(key, self.stream, self.counter);
        let w0 = group.w0;
        let w1 = group.w1;
        let w2 = group.w2;
        let w3 = group.w3;
        let counter = std::num::wrapping_add_u64(self.counter, 8);
        let pending = self.pending;
        let rng = Philox4x32X8 {
            key,
            stream: self.stream,
            counter,
            waiting: self.waiting,
            pending,
            first: self.first,
        };
        Blocks {
            w0,
            w1,
            w2,
            w3,
            rng,
        }
    }

    // The label of the next draw.
    pub fn label(self) -> Label
        ensures { result ≡ label_of self }
    {
        let kept = self.first;
        let next = self.counter;
        if self.waiting {
            return Label {
                first: kept,
                upper: true,
            };
        }
        Label {
            first: next,
            upper: false,
        }
    }

    // The draw of the words that wait. This draw and the next are what the two writings of a draw share, `next_u64x8` and `draws::draw`: they
    // differ in how the blocks of a group are made.
    pub(crate) fn waiting_draw(self) -> Draw
        requires { self.waiting ≡ true }
        ensures { result ≡ drawn self }
    {
        let words = self.pending;
        let first = self.first;
        let upper = true;
        Draw {
            words,
            label: Label { first, upper },
            rng: self.seek(self.counter),
        }
    }

    // The draw that begins a group at the counter: `words` are its lower words, `pending` its upper ones, which then wait, and `counter` is the
    // block after it.
    pub(crate) fn first_draw(self, counter: u64, words: [u64; 8], pending: [u64; 8]) -> Draw
        ensures { result ≡ record {
          words = words;
          label = record { first = self.counter; upper = false };
          rng = record { key = self.key; stream = self.stream; counter = counter; waiting = true; pending = pending; first = self.counter };
        } }
    {
        let key = self.key;
        let first = self.counter;
        let upper = false;
        Draw {
            words,
            label: Label { first, upper },
            rng: Philox4x32X8 {
                key,
                stream: self.stream,
                counter,
                waiting: true,
                pending,
                first,
            },
        }
    }

    // One draw: the words that wait; or the lower words of the next eight blocks, whose upper words then wait.
    pub fn next_u64x8(self) -> Draw
        ensures { result ≡ drawn self }
    {
        if self.waiting {
            return self.waiting_draw();
        }
        let key = self.key;
        let group = block::eight_blocks(key, self.stream, self.counter);
        let w0 = group.w0;
        let w1 = group.w1;
        let w2 = group.w2;
        let w3 = group.w3;
        let words = joined(w0, w1);
        let pending = joined(w2, w3);
        self.first_draw(std::num::wrapping_add_u64(self.counter, 8), words, pending)
    }

    // The generator after `n` draws.
    pub fn skip(self, n: u64) -> Self
        ensures { result ≡ skipped n self }
    {
        if n == 0 {
            return self;
        }
        if self.waiting {
            // the words that wait are the first draw
            return skip_groups(self, n - 1);
        }
        skip_groups(self, n)
    }

    // The draws that the whole groups before counter 2^64 still hold, and the draw that waits.
    pub fn draws_left(self) -> u64
        ensures { result ≡ left_of self }
    {
        // 2^64 - counter is rest + 1, which may not fit a u64.
        let rest = u64::MAX - self.counter;
        let groups = rest / 8 + (rest % 8 + 1) / 8;
        if self.waiting {
            return 2 * groups + 1;
        }
        2 * groups
    }
}
