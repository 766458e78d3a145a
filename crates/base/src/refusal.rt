// Why a call is refused: one case for each number that a caller in C is told (include/girderpeach.h).
ghost use Rattle.std.specs.Prelude.{◌≡◌};
ghost use Rattle.base.specs.Refusal.{number_of};

use std::error::Error;
use std::fmt;

#[derive(Clone, Copy, Debug, PartialEq, Eq)]
pub enum Refusal {
    // A saved form has another length than its engine's.
    FormLength,
    // The mark of a Philox form is neither 0 nor 1, or is 0 and a word that would wait or its number isn't zero.
    FormMark,
    // A state has four zero words.
    ZeroState,
    // A kind's number is no row of the table.
    UnknownKind,
    // The length of an output isn't a multiple of the kind's width.
    OutputLength,
    // A lane's number is 8 or more.
    NoSuchLane,
    // Some argument of a logarithm isn't a positive normal.
    LnDomain,
    // Some turn is a NaN or too large.
    TurnsDomain,
    // Some argument of a square root is neither a positive normal nor a zero.
    SqrtDomain,
    // Some u1 of Box-Muller isn't normal in (0, 1], or some u2 isn't in [0, 1).
    BoxMullerDomain,
    // The words that wait in a Philox form aren't the upper words of the numbered group.
    OtherWords,
}

impl Refusal {
    // The number by which the documents and callers in C know it.
    pub fn number(self) -> u64
        ensures { result ≡ number_of self }
    {
        match self {
            Refusal::FormLength => 1,
            Refusal::FormMark => 2,
            Refusal::ZeroState => 3,
            Refusal::UnknownKind => 4,
            Refusal::OutputLength => 5,
            Refusal::NoSuchLane => 6,
            Refusal::LnDomain => 7,
            Refusal::TurnsDomain => 8,
            Refusal::SqrtDomain => 9,
            Refusal::BoxMullerDomain => 10,
            Refusal::OtherWords => 14,
        }
    }
}

impl fmt::Display for Refusal {
    ghost use Rattle.std.specs.Prelude.{Some};
    ghost use Rattle.base.specs.Refusal.{reason_of};

    ghost output = { λ r. Some (reason_of r) };

    fn fmt<W: fmt::Write>(&self, f: &mut fmt::Formatter<W>) -> fmt::Result {
        match self {
            Refusal::FormLength => f.write_str("a saved form of another length"),
            Refusal::FormMark => f.write_str(
                "a saved form with no such mark, or with words that don't wait",
            ),
            Refusal::ZeroState => f.write_str("a state of four zero words"),
            Refusal::UnknownKind => f.write_str("no kind has this number"),
            Refusal::OutputLength => f.write_str(
                "a length that isn't a multiple of the kind's width",
            ),
            Refusal::NoSuchLane => f.write_str("a lane's number of 8 or more"),
            Refusal::LnDomain => f.write_str("an argument of ln that isn't a positive normal"),
            Refusal::TurnsDomain => f.write_str("a turn that is a NaN or too large"),
            Refusal::SqrtDomain => f.write_str(
                "an argument of sqrt that is neither a positive normal nor a zero",
            ),
            Refusal::BoxMullerDomain => f.write_str(
                "a u1 that isn't normal in (0, 1], or a u2 that isn't in [0, 1)",
            ),
            Refusal::OtherWords => f.write_str(
                "words that wait and aren't the upper words of their group",
            ),
        }
    }
}

impl Error for Refusal {}
