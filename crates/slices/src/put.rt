// Elements stored in the places of a slice.
ghost use Rattle.std.specs.Prelude.{◌≡◌};
ghost use Rattle.base.specs.Stored.{stored};

// Stores `v` in the places from `at` on, as far as `out` has them.
pub fn put_slice<T: Copy>(out: &mut [T], at: usize, v: &[T])
    ensures { out.new ≡ stored out.old at v.now }
{
    // by index: a `copy_from_slice` of as many places as there are is a call of memmove, which the archives for C do without
    let n = words::room(out.len(), at, v.len());
    for k in 0..n {
        out[at + k] = v[k];
    }
}

// Stores `v` in the places from `at` on, as far as `out` has them.
pub fn put<T: Copy, const N: usize>(out: &mut [T], at: usize, v: [T; N])
    ensures { out.new ≡ stored out.old at v }
{
    if at < out.len() {
        // N stores that the compiler knows to be N become one run
        if N <= out.len() - at {
            out[at..at + N].copy_from_slice(&v);
        } else {
            // a copy is lent, so that `v` itself need not be in memory
            let part = v;
            put_slice(out, at, &part);
        }
    }
}
