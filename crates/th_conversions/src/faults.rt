//! Why a table of differences is refused: kinds of fault, the record of each, and their texts.
ghost use Rattle.std.specs.Prelude.{◌≡◌};
ghost use Rattle.th_conversions.specs.declared.faults.DifferenceKind.TheVariants.{NoMemory};
ghost use Rattle.th_conversions.specs.Texts.{kind_text};

use std::alloc::{AllocError, AllocFailed};
use std::error::Error;
use std::fmt;

/// What is wrong with a table of differences. A record has the first kind that applies, in this
/// order. `TableTooLong` comes before all others, or after them where the book is too long.
#[derive(Clone, Copy, Debug, PartialEq, Eq)]
pub enum DifferenceKind {
    /// E1: record 1 is not a header, or there is no record.
    BadHeader,
    /// E2: a record has another number of fields than the header.
    FieldCount,
    /// E3: a field gives no name.
    BadName,
    /// E4: a difference is not in metres, more than 10 km in size, or no whole number of 1/100 mm.
    BadDifference,
    /// E6: the two names of a record are one.
    ToItself,
    /// E7: the table has more than `MAX_DIFFERENCES` bytes, or its book more than `th_book::MAX_BOOK`.
    TableTooLong,
    /// Out of memory. The table is not at fault.
    NoMemory,
}

/// Why a table of differences is refused.
#[derive(Clone, Copy, Debug, PartialEq, Eq)]
pub struct DifferenceFault {
    /// The record, counted from 1, the header being record 1. It is 0 for `TableTooLong` and
    /// `NoMemory`.
    pub row: u32,
    /// The first kind of fault that applies to it.
    pub kind: DifferenceKind,
}

impl DifferenceFault {
    /// Out of memory.
    pub(crate) const NO_MEMORY: DifferenceFault = DifferenceFault {
        row: 0,
        kind: DifferenceKind::NoMemory,
    };

    /// The table has too many bytes, or its book would have.
    pub(crate) const TOO_LONG: DifferenceFault = DifferenceFault {
        row: 0,
        kind: DifferenceKind::TableTooLong,
    };

    /// Record 1 is not a header.
    pub(crate) const BAD_HEADER: DifferenceFault = DifferenceFault {
        row: 1,
        kind: DifferenceKind::BadHeader,
    };
}

impl From<AllocError> for DifferenceFault {
    ghost from_gives = { λ _ fault. fault ≡ record { row = 0; kind = NoMemory } };

    fn from(_error: AllocError) -> DifferenceFault {
        DifferenceFault::NO_MEMORY
    }
}

impl<T: Drop> From<AllocFailed<T>> for DifferenceFault {
    ghost from_gives = { λ _ fault. fault ≡ record { row = 0; kind = NoMemory } };

    fn from(_refused: AllocFailed<T>) -> DifferenceFault {
        DifferenceFault::NO_MEMORY
    }
}

impl DifferenceKind {
    /// The text of the kind.
    pub fn text(self) -> &'static str
        ensures { result.now ≡ kind_text self }
    {
        match self {
            DifferenceKind::BadHeader => "E1 bad header",
            DifferenceKind::FieldCount => "E2 field count",
            DifferenceKind::BadName => "E3 bad name",
            DifferenceKind::BadDifference => "E4 bad difference",
            DifferenceKind::ToItself => "E6 to itself",
            DifferenceKind::TableTooLong => "E7 table too long",
            DifferenceKind::NoMemory => "out of memory",
        }
    }
}

impl fmt::Display for DifferenceKind {
    ghost use Rattle.std.specs.Prelude.{Some};

    ghost output = { λ fault. Some (kind_text fault) };

    fn fmt<W: fmt::Write>(&self, f: &mut fmt::Formatter<W>) -> fmt::Result {
        f.write_str(self.text())
    }
}

impl Error for DifferenceKind {}

impl fmt::Display for DifferenceFault {
    ghost use Rattle.std.specs.Prelude.{Some};
    ghost use Rattle.th_conversions.specs.Texts.{fault_text};

    ghost output = { λ fault. Some (fault_text fault) };

    fn fmt<W: fmt::Write>(&self, f: &mut fmt::Formatter<W>) -> fmt::Result {
        let row = self.row;
        let kind = self.kind;
        write!(f, "record {row}: {kind}")
    }
}

impl Error for DifferenceFault {}
