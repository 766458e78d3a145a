// The bytes of a kind that is chosen when the program runs: elements little-endian, floats as their bits.
#![tactic(auto)]

ghost use Rattle.std.specs.Prelude.{◌≡◌, ◌-◌, ◌*◌, ◌+◌, ◌<◌, ◌≤◌, length};
ghost use Rattle.base.specs.Stored.{stored};
ghost use Rattle.fills.proofs.Bytes.{row_sound};
ghost use Rattle.fills.specs.Buffer.{bytes_kind, groups_ahead, draws_ahead, stored_groups};
ghost use Rattle.fills.specs.Kinds.{kind_at};
ghost use Rattle.fills.specs.Numbers.{number_of};

use elements::f32s::F32Bytes;
use elements::f64s::F64Bytes;
use elements::group::{FromOne, FromTwo, Group, OfKind};
use elements::groups;
use elements::open01_f32s::Open01F32Bytes;
use elements::u32s::U32Bytes;
use elements::u64s::U64Bytes;
use fills::kinds;
use fills::kinds::Kind;
use normals::normal_f32s::NormalF32Bytes;
use normals::normal_f64s::NormalF64Bytes;

// The bytes of the elements of a kind.
#[derive(Clone, Copy)]
pub struct KindBytes(pub Kind);

impl OfKind for KindBytes {
    type Element = u8;

    ghost kind = { λ k. bytes_kind (kind_at (number_of k.0)).kind };

    ghost sound = { λ k. row_sound (number_of k.0) };

    #[tactic(auto, unfolding(fills::specs::Kinds::kind_at))]
    fn places(self) -> usize {
        match self.0 {
            Kind::NormalF64 => 128,
            Kind::U64
            | Kind::U32
            | Kind::F32
            | Kind::F64
            | Kind::NormalF32
            | Kind::Open01F32
            | Kind::Open01F64 => 64,
        }
    }

    #[tactic(auto, unfolding(fills::specs::Kinds::kind_at))]
    fn draws(self) -> usize {
        match self.0 {
            Kind::NormalF64 => 2,
            Kind::U64
            | Kind::U32
            | Kind::F32
            | Kind::F64
            | Kind::NormalF32
            | Kind::Open01F32
            | Kind::Open01F64 => 1,
        }
    }

    #[tactic(auto, unfolding(fills::specs::Kinds::kind_at))]
    fn most(self) -> usize {
        match self.0 {
            Kind::NormalF64 => 8,
            Kind::U64
            | Kind::U32
            | Kind::F32
            | Kind::F64
            | Kind::NormalF32
            | Kind::Open01F32
            | Kind::Open01F64 => 16,
        }
    }
}

impl Group for KindBytes {
    // The kind is chosen once for a buffer, not for each group.
    fn map_groups(self, out: &mut [u8], at: usize, b: &[u64; 128]) {
        match self.0 {
            Kind::U64 => U64Bytes.map_groups(out, at, b),
            Kind::U32 => U32Bytes.map_groups(out, at, b),
            Kind::F32 => F32Bytes.map_groups(out, at, b),
            Kind::F64 => F64Bytes { nonzero: false }.map_groups(out, at, b),
            Kind::NormalF32 => NormalF32Bytes.map_groups(out, at, b),
            Kind::NormalF64 => NormalF64Bytes.map_groups(out, at, b),
            Kind::Open01F32 => Open01F32Bytes.map_groups(out, at, b),
            Kind::Open01F64 => F64Bytes { nonzero: true }.map_groups(out, at, b),
        }
    }
}

// The bytes of one group, each of its draws with the words `w`, in the places from `at` on, as far as `out` has them. (Kind 1 stands for the
// numbers that are no kind's, here and below.)
pub fn put_group(kind: u64, out: &mut [u8], at: usize, w: [u64; 8])
    ensures { out.new ≡ stored out.old at ((bytes_kind (kind_at kind).kind).group (λ _. w)) }
{
    match kinds::kind_of(kind) {
        Kind::U64 => U64Bytes.put_group(out, at, w),
        Kind::U32 => U32Bytes.put_group(out, at, w),
        Kind::F32 => F32Bytes.put_group(out, at, w),
        Kind::F64 => F64Bytes { nonzero: false }.put_group(out, at, w),
        Kind::NormalF32 => NormalF32Bytes.put_group(out, at, w),
        Kind::NormalF64 => NormalF64Bytes.put_pair(out, at, w, w),
        Kind::Open01F32 => Open01F32Bytes.put_group(out, at, w),
        Kind::Open01F64 => F64Bytes { nonzero: true }.put_group(out, at, w),
    }
}

// The bytes of the groups of the buffer `b` in the places from `at` on, as far as both go.
pub fn map_bytes(kind: u64, out: &mut [u8], at: usize, b: &[u64; 128])
    ensures { out.new ≡ stored_groups (bytes_kind (kind_at kind).kind) b.now out.old at (groups_ahead (bytes_kind (kind_at kind).kind) (length out.old - at)) }
{
    KindBytes(kinds::kind_of(kind)).map_groups(out, at, b);
}

// The draws of the groups that the bytes from `at` on of a slice of length `len` begin, at most 16: each draw makes 64 bytes.
pub fn draws_ahead(kind: u64, len: usize, at: usize) -> usize
    ensures { (result ≡ draws_ahead (bytes_kind (kind_at kind).kind) (len - at)) × (result ≤ 16) × (result * 64 < len - at + 128) × (at < len → 0 < result) }
{
    let k = KindBytes(kinds::kind_of(kind));
    k.draws() * groups::groups_of(len, at, k.places(), k.most())
}
