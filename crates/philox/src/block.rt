// Philox4x32-10: one block (philox4x32_10 of the Rust's philox.rs), and eight blocks in a row.
ghost use Rattle.std.specs.Prelude.{◌≡◌, slice_index};
ghost use Rattle.base.specs.Quad.{quad_of, list_of};
ghost use Rattle.philox.specs.block.Philox.{round as roundOf, rounds, group_of};

// The multipliers, and what a round adds to the key words (by std's function for sums that wrap, as the scope document has it).
const M0: u32 = 0xD251_1F53;

const M1: u32 = 0xCD9E_8D57;

const W0: u32 = 0x9E37_79B9;

const W1: u32 = 0xBB67_AE85;

// One round under the key words `k0` and `k1`, on words of 32 bits as the documents have it. (`draws` has it on words of 64, for speed: two
// writings, each proved equal to one definition.)
fn round(c: [u32; 4], k0: u32, k1: u32) -> [u32; 4]
    ensures { result ≡ list_of (roundOf k0 k1 (quad_of c)) }
{
    let p0 = words::product(M0, c[0]);
    let p1 = words::product(M1, c[2]);
    let h1 = words::high(p1);
    let l1 = words::low(p1);
    let h0 = words::high(p0);
    let l0 = words::low(p0);
    [h1 ^ c[1] ^ k0, l1, h0 ^ c[3] ^ k1, l0]
}

// One block: `counter` encrypted under `key`.
pub fn philox4x32_10(counter: [u32; 4], key: [u32; 2]) -> [u32; 4]
    ensures { result ≡ list_of (rounds 10 (slice_index key 0) (slice_index key 1) (quad_of counter)) }
{
    let mut c = counter;
    let mut k0 = key[0];
    let mut k1 = key[1];
    for _ in 0u32..10 {
        let next = round(c, k0, k1);
        c = next;
        k0 = std::num::wrapping_add_u32(k0, W0);
        k1 = std::num::wrapping_add_u32(k1, W1);
    }
    c
}

// The four words of eight blocks: word k of block i at place i of row k.
#[derive(Clone, Copy)]
pub struct Group {
    pub w0: [u32; 8],
    pub w1: [u32; 8],
    pub w2: [u32; 8],
    pub w3: [u32; 8],
}

// Blocks `n` to `n + 7`, each modulo 2^64, of stream `stream` under `key`. (The loop stores the words of each block as they come: eight
// blocks by `from_fn`, their words then put into rows, take 5 % longer a draw.)
pub fn eight_blocks(key: [u32; 2], stream: u64, n: u64) -> Group
    ensures { result ≡ group_of (slice_index key 0) (slice_index key 1) stream n }
{
    let c2 = words::low(stream);
    let c3 = words::high(stream);
    let mut w0 = [0u32; 8];
    let mut w1 = [0u32; 8];
    let mut w2 = [0u32; 8];
    let mut w3 = [0u32; 8];
    for i in 0..8 {
        let number = std::num::wrapping_add_u64(n, i as u64);
        let c0 = words::low(number);
        let c1 = words::high(number);
        let block = philox4x32_10([c0, c1, c2, c3], key);
        w0[i] = block[0];
        w1[i] = block[1];
        w2[i] = block[2];
        w3[i] = block[3];
    }
    Group { w0, w1, w2, w3 }
}
