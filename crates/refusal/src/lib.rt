//! Every refusal of the catalogue: one closed list of causes, each with its number, and a place.
#![tactic(auto)]

ghost use Rattle.std.specs.Prelude.{◌≡◌, Some};
ghost use Rattle.refusal.specs.Numbers.{number, refused};
ghost use Rattle.refusal.specs.Report.{report};
ghost use Rattle.refusal.specs.declared.Cause.TheVariants.{Memory};

use std::alloc::{AllocError, AllocFailed};
use std::fmt;

/// Why a call was refused.
#[derive(Clone, Copy, PartialEq, Eq, Debug)]
pub enum Cause {
    /// A line that lacks its key, its `=` or its end, that is missing, or that is one too many.
    Line = 1,
    /// A value that is malformed, out of range or against a rule of the text.
    Value = 2,
    /// A closing line whose number is wrong.
    Totals = 3,
    /// A rank, a count or a length that a table of operations cannot have.
    TableShape = 4,
    /// An operation with a coordinate out of its limits.
    OperationCoordinate = 5,
    /// An operation whose determinant is no unit.
    OperationDeterminant = 6,
    /// An operation equal to an earlier one.
    OperationRepeated = 7,
    /// A table without the identity.
    NoIdentity = 8,
    /// A table without the product of two of its operations.
    ProductMissing = 9,
    /// An index or a norm that is not 1 to 64.
    Index = 10,
    /// A number of colours that is not allowed.
    Colours = 11,
    /// More words than the catalogue counts.
    WordCount = 12,
    /// A call that needs an open catalogue.
    NothingOpen = 13,
    /// A position outside the list.
    Position = 14,
    /// A buffer that is too short.
    ShortBuffer = 15,
    /// A heading or a mark out of its ranges.
    Heading = 16,
    /// A card that no reader would accept.
    Card = 17,
    /// A rank that is not 1 to 3.
    Rank = 18,
    /// A coordinate out of its limits.
    Coordinate = 19,
    /// A divisor that is 0, or a modulus that is 0 or not canonical.
    Modulus = 20,
    /// A matrix of determinant 0.
    Singular = 21,
    /// A number, an element, a row or a column outside its list, or an index above 64.
    Outside = 22,
    /// Want of memory: the machine's refusal, and none of the list.
    Memory = 0,
}

impl Cause {
    /// The number under which docs/refusals.md lists the cause; 0 for want of memory.
    pub fn number(self) -> u8
        ensures { result ≡ number self }
    {
        self as u8
    }
}

/// A cause with its place: a line of a text or an operation of a table, counted from 1, or 0.
#[derive(Clone, Copy, PartialEq, Eq, Debug)]
pub struct Refusal {
    pub cause: Cause,
    // 0 for none, as docs/refusals.md fixes it: an `Option` would be turned into that number by each that reports it.
    pub place: u64,
}

/// A cause that has no place.
impl From<Cause> for Refusal {
    ghost from_gives = { λ cause r. r ≡ refused cause 0 };

    fn from(cause: Cause) -> Refusal {
        Refusal { cause, place: 0 }
    }
}

impl From<AllocError> for Refusal {
    ghost from_gives = { λ _ r. r ≡ refused Memory 0 };

    fn from(_: AllocError) -> Refusal {
        Refusal::from(Cause::Memory)
    }
}

impl<T: Drop> From<AllocFailed<T>> for Refusal {
    ghost from_gives = { λ _ r. r ≡ refused Memory 0 };

    fn from(_: AllocFailed<T>) -> Refusal {
        Refusal::from(AllocError)
    }
}

/// The two lines by which a program reports the refusal, the last without its end.
impl fmt::Display for Refusal {
    ghost output = { λ e. Some (report e) };

    fn fmt<W: fmt::Write>(&self, f: &mut fmt::Formatter<W>) -> fmt::Result {
        let number = self.cause.number();
        let place = self.place;
        write!(f, "refused={number}\nat={place}")
    }
}
