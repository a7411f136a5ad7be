//! Why a table of changes is refused: kinds of fault, the record of each, and their texts.
ghost use Rattle.std.specs.Prelude.{◌≡◌};
ghost use Rattle.th_mend.specs.declared.change_faults.ChangeKind.TheVariants.{NoMemory};
ghost use Rattle.th_mend.specs.Texts.{kind_text};

use std::alloc::{AllocError, AllocFailed};
use std::error::Error;
use std::fmt;

/// What is wrong with a table of changes. A record has the first kind that applies, in this order.
/// `TableTooLong` comes before all others.
#[derive(Clone, Copy, Debug, PartialEq, Eq)]
pub enum ChangeKind {
    /// E1: record 1 is not the header, or there is no record.
    BadHeader,
    /// E2: a record has another number of fields than the header.
    FieldCount,
    /// E8: the number of a line is not one to nine digits, or it is 0.
    BadLine,
    /// E9: a field names no word that can be changed.
    BadWord,
    /// E4: a length is not in metres, or more than 10 km in size.
    BadLength,
    /// E10: `sign` has a value.
    GivenValue,
    /// E3: a value gives no name.
    BadName,
    /// E7: the table has more than `MAX_CHANGES` bytes.
    TableTooLong,
    /// Out of memory. The table is not at fault.
    NoMemory,
}

/// Why a table of changes is refused.
#[derive(Clone, Copy, Debug, PartialEq, Eq)]
pub struct ChangeFault {
    /// The record, counted from 1, the header being record 1. It is 0 for `TableTooLong` and
    /// `NoMemory`.
    pub row: u32,
    /// The first kind of fault that applies to it.
    pub kind: ChangeKind,
}

impl ChangeFault {
    /// Out of memory.
    pub(crate) const NO_MEMORY: ChangeFault = ChangeFault {
        row: 0,
        kind: ChangeKind::NoMemory,
    };

    /// The table has too many bytes.
    pub(crate) const TOO_LONG: ChangeFault = ChangeFault {
        row: 0,
        kind: ChangeKind::TableTooLong,
    };

    /// Record 1 is not the header.
    pub(crate) const BAD_HEADER: ChangeFault = ChangeFault {
        row: 1,
        kind: ChangeKind::BadHeader,
    };
}

impl From<AllocError> for ChangeFault {
    ghost from_gives = { λ _ fault. fault ≡ record { row = 0; kind = NoMemory } };

    fn from(_error: AllocError) -> ChangeFault {
        ChangeFault::NO_MEMORY
    }
}

impl<T: Drop> From<AllocFailed<T>> for ChangeFault {
    ghost from_gives = { λ _ fault. fault ≡ record { row = 0; kind = NoMemory } };

    fn from(_refused: AllocFailed<T>) -> ChangeFault {
        ChangeFault::NO_MEMORY
    }
}

impl ChangeKind {
    /// The text of the kind.
    pub fn text(self) -> &'static str
        ensures { result.now ≡ kind_text self }
    {
        match self {
            ChangeKind::BadHeader => "E1 bad header",
            ChangeKind::FieldCount => "E2 field count",
            ChangeKind::BadLine => "E8 bad line",
            ChangeKind::BadWord => "E9 bad word",
            ChangeKind::BadLength => "E4 bad length",
            ChangeKind::GivenValue => "E10 value not empty",
            ChangeKind::BadName => "E3 bad name",
            ChangeKind::TableTooLong => "E7 table too long",
            ChangeKind::NoMemory => "out of memory",
        }
    }
}

impl fmt::Display for ChangeKind {
    ghost use Rattle.std.specs.Prelude.{Some};

    ghost output = { λ fault. Some (kind_text fault) };

    fn fmt<W: fmt::Write>(&self, f: &mut fmt::Formatter<W>) -> fmt::Result {
        f.write_str(self.text())
    }
}

impl Error for ChangeKind {}

impl fmt::Display for ChangeFault {
    ghost use Rattle.std.specs.Prelude.{Some};
    ghost use Rattle.th_mend.specs.Texts.{fault_text};

    ghost output = { λ fault. Some (fault_text fault) };

    fn fmt<W: fmt::Write>(&self, f: &mut fmt::Formatter<W>) -> fmt::Result {
        let row = self.row;
        let kind = self.kind;
        write!(f, "record {row}: {kind}")
    }
}

impl Error for ChangeFault {}
