//! The faults of tables, in the order in which they apply, and their texts.
ghost use Rattle.std.specs.Prelude.{◌≡◌};
ghost use Rattle.th_tables.specs.declared.faults.TableKind.TheVariants.{NoMemory};
ghost use Rattle.th_tables.specs.Texts.{kind_text};

use std::alloc::{AllocError, AllocFailed};
use std::error::Error;
use std::fmt;

/// What is wrong with a table. A record has the first kind that applies, in this order.
/// `TableTooLong` comes before all others.
#[derive(Clone, Copy, Debug, PartialEq, Eq)]
pub enum TableKind {
    /// E1: record 1 is not the table's header, or there is no record.
    BadHeader,
    /// E2: a record has another number of fields than the header.
    FieldCount,
    /// E3: a field gives no name.
    BadName,
    /// E4: a height is not in metres, or more than 10 km in size.
    BadHeight,
    /// E5: a weight is not one to four digits, or not 1 to 1,000.
    BadWeight,
    /// E6: an earlier record has the same name, or the same station and target.
    Repeated,
    /// E7: the table has more than `MAX_TABLE` bytes.
    TableTooLong,
    /// Out of memory. The table is not at fault.
    NoMemory,
}

/// Why a table is refused.
#[derive(Clone, Copy, Debug, PartialEq, Eq)]
pub struct TableFault {
    /// The record, counted from 1, the header being record 1. It is 0 for `TableTooLong` and
    /// `NoMemory`.
    pub row: u32,
    /// The first kind of fault that applies to it.
    pub kind: TableKind,
}

impl TableFault {
    /// Out of memory.
    pub(crate) const NO_MEMORY: TableFault = TableFault {
        row: 0,
        kind: TableKind::NoMemory,
    };

    /// The table has too many bytes.
    pub(crate) const TOO_LONG: TableFault = TableFault {
        row: 0,
        kind: TableKind::TableTooLong,
    };

    /// Record 1 is not the header.
    pub(crate) const BAD_HEADER: TableFault = TableFault {
        row: 1,
        kind: TableKind::BadHeader,
    };
}

impl From<AllocError> for TableFault {
    ghost from_gives = { λ _ fault. fault ≡ record { row = 0; kind = NoMemory } };

    fn from(_error: AllocError) -> TableFault {
        TableFault::NO_MEMORY
    }
}

impl<T: Drop> From<AllocFailed<T>> for TableFault {
    ghost from_gives = { λ _ fault. fault ≡ record { row = 0; kind = NoMemory } };

    fn from(_refused: AllocFailed<T>) -> TableFault {
        TableFault::NO_MEMORY
    }
}

impl TableKind {
    /// The text of the kind.
    pub fn text(self) -> &'static str
        ensures { result.now ≡ kind_text self }
    {
        match self {
            TableKind::BadHeader => "E1 bad header",
            TableKind::FieldCount => "E2 field count",
            TableKind::BadName => "E3 bad name",
            TableKind::BadHeight => "E4 bad height",
            TableKind::BadWeight => "E5 bad weight",
            TableKind::Repeated => "E6 repeated",
            TableKind::TableTooLong => "E7 table too long",
            TableKind::NoMemory => "out of memory",
        }
    }
}

impl fmt::Display for TableKind {
    ghost use Rattle.std.specs.Prelude.{Some};

    ghost output = { λ fault. Some (kind_text fault) };

    fn fmt<W: fmt::Write>(&self, f: &mut fmt::Formatter<W>) -> fmt::Result {
        f.write_str(self.text())
    }
}

impl Error for TableKind {}

impl fmt::Display for TableFault {
    ghost use Rattle.std.specs.Prelude.{Some};
    ghost use Rattle.th_tables.specs.Texts.{fault_text};

    ghost output = { λ fault. Some (fault_text fault) };

    fn fmt<W: fmt::Write>(&self, f: &mut fmt::Formatter<W>) -> fmt::Result {
        let row = self.row;
        let kind = self.kind;
        write!(f, "record {row}: {kind}")
    }
}

impl Error for TableFault {}
