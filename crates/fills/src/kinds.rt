// The kinds of the table, and its columns by a kind and by a kind's number. Kind 1 stands for the numbers that are no kind's.
ghost use Rattle.std.specs.Prelude.{if◌then◌else◌, ◌≡◌, ◌<◌, ◌≤◌, IfOk, length};
ghost use Rattle.base.specs.Refusal.{refusal_in};
ghost use Rattle.fills.specs.Fill.{draws_for};
ghost use Rattle.fills.specs.FillBytes.{refusal_of};
ghost use Rattle.fills.specs.Kinds.{kinds, kind_at, is_kind};
ghost use Rattle.fills.specs.Numbers.{number_of, Numbered};

use base::refusal::Refusal;

// The rows of the table.
const KINDS: u64 = 8;

#[derive(Clone, Copy, Debug, PartialEq, Eq)]
pub enum Kind {
    U64,
    U32,
    F32,
    F64,
    NormalF32,
    NormalF64,
    Open01F32,
    Open01F64,
}

impl Kind {
    // Its row in the table, counted from 1.
    pub fn number(self) -> u64
        ensures { result ≡ number_of self }
    {
        match self {
            Kind::U64 => 1,
            Kind::U32 => 2,
            Kind::F32 => 3,
            Kind::F64 => 4,
            Kind::NormalF32 => 5,
            Kind::NormalF64 => 6,
            Kind::Open01F32 => 7,
            Kind::Open01F64 => 8,
        }
    }

    // The bytes of an element.
    #[tactic(auto, unfolding(crate::specs::Kinds::kind_at))]
    pub fn width(self) -> usize
        ensures { (result ≡ (kind_at (number_of self)).kind.width) × (0 < result) × (result ≤ 8) × ((result ≡ 4 → ⊥) → result ≡ 8) }
    {
        match self {
            Kind::U32 | Kind::F32 | Kind::NormalF32 | Kind::Open01F32 => 4,
            Kind::U64 | Kind::F64 | Kind::NormalF64 | Kind::Open01F64 => 8,
        }
    }

    // The draws of a fill of `count` places.
    #[tactic(auto, unfolding(crate::specs::Kinds::kind_at))]
    pub fn draws_of(self, count: u64) -> u64
        ensures { result ≡ draws_for (kind_at (number_of self)).kind count }
    {
        match self {
            Kind::U64 | Kind::F64 | Kind::Open01F64 => count.div_ceil(8),
            Kind::U32 | Kind::F32 | Kind::NormalF32 | Kind::Open01F32 => count.div_ceil(16),
            Kind::NormalF64 => 2 * count.div_ceil(16),
        }
    }
}

impl TryFrom<u64> for Kind {
    type Error = Refusal;

    ghost try_from_gives = { Numbered };

    fn try_from(number: u64) -> Result<Kind, Refusal> {
        match number {
            1 => Ok(Kind::U64),
            2 => Ok(Kind::U32),
            3 => Ok(Kind::F32),
            4 => Ok(Kind::F64),
            5 => Ok(Kind::NormalF32),
            6 => Ok(Kind::NormalF64),
            7 => Ok(Kind::Open01F32),
            8 => Ok(Kind::Open01F64),
            _ => Err(Refusal::UnknownKind),
        }
    }
}

// The kind that stands for a number: its own, or kind 1.
pub fn kind_of(number: u64) -> Kind
    ensures { number_of result ≡ (if is_kind number then number else 1) }
{
    match Kind::try_from(number) {
        Ok(kind) => kind,
        Err(_) => Kind::U64,
    }
}

// How many kinds there are: their numbers are 1 to this.
pub fn count() -> u64
    ensures { result ≡ length kinds }
{
    KINDS
}

// Whether `kind` is the number of a kind.
pub fn is_kind(kind: u64) -> bool
    ensures { result ≡ is_kind kind }
{
    (1 <= kind) & (kind <= count())
}

// The bytes of an element.
pub fn width(kind: u64) -> usize
    ensures { (result ≡ (kind_at kind).kind.width) × (0 < result) × (result ≤ 8) × ((result ≡ 4 → ⊥) → result ≡ 8) }
{
    kind_of(kind).width()
}

// The draws of a fill of `count` places.
pub fn draws_of(kind: u64, count: u64) -> u64
    ensures { result ≡ draws_for (kind_at kind).kind count }
{
    kind_of(kind).draws_of(count)
}

// The kind of a byte fill of `len` bytes, or why it is refused.
pub fn check(kind: u64, len: usize) -> Result<Kind, Refusal>
    ensures refusal { refusal_in result ≡ refusal_of kind len }
    ensures number { IfOk result (λ k. number_of k ≡ kind) }
{
    // the bound on kinds is that of `count`
    if !is_kind(kind) {
        return Err(Refusal::UnknownKind);
    }
    let row = Kind::try_from(kind)?;
    if len % row.width() != 0 {
        return Err(Refusal::OutputLength);
    }
    Ok(row)
}

// The number of the refusal of a byte fill of `len` bytes, 0 if there is none.
pub fn refusal_of(kind: u64, len: usize) -> u64
    ensures { result ≡ refusal_of kind len }
{
    match check(kind, len) {
        Ok(_) => 0,
        Err(refusal) => refusal.number(),
    }
}
