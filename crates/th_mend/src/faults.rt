//! Why a book is not mended: kinds of fault, the record or the line of each, and their texts.
ghost use Rattle.std.specs.Prelude.{◌≡◌};
ghost use Rattle.th_mend.specs.Faults.{kind_text};

use crate::stops::Stop;
use std::alloc::AllocError;
use std::error::Error;
use std::fmt;
use th_book::{BookFault, BookKind};

/// Why a record of a table of changes has no place in a book. A record has the first kind that
/// applies, in this order.
#[derive(Clone, Copy, Debug, PartialEq, Eq)]
pub enum MendKind {
    /// M1: the book has no line of this number.
    NoLine,
    /// M2: the line is no sight.
    NoSight,
    /// M3: the line is no setup.
    NoSetup,
    /// M4: no height of this kind is in force in the line, or the line is blank.
    NoHeight,
    /// M5: without its word 33 the line would be a setup.
    BeginsSetup,
    /// M6: an earlier record changes the same word of a line.
    Clash,
    /// M7: position 6 of the word is not the code of a unit.
    NoUnit,
    /// M8: the length is no whole number of the word's unit.
    NotWhole,
    /// M9: the number has more digits than the word's data.
    TooManyDigits,
    /// M10: the name has more bytes than the word's data.
    LongName,
}

/// The fault of a record, which is counted from 1, the header being record 1.
#[derive(Clone, Copy, Debug, PartialEq, Eq)]
pub struct RowFault {
    pub row: u32,
    pub kind: MendKind,
}

/// Why a book is not mended.
#[derive(Clone, Copy, Debug, PartialEq, Eq)]
pub enum MendFault {
    /// The book has a fault.
    Book(BookFault),
    /// A record has no place in the book.
    Row(RowFault),
    /// The mended book has a fault.
    Mended(BookFault),
    /// Out of memory. Neither the book nor the table is at fault.
    NoMemory,
}

impl MendFault {
    ghost use Rattle.th_mend.specs.Inside.Stops.{fault_of_book, fault_of_mended, fault_of_stop};

    /// A fault of the book, or an allocation failure while it was read.
    pub(crate) fn of_book(fault: BookFault) -> MendFault
        ensures { result ≡ fault_of_book fault }
    {
        match fault.kind {
            BookKind::NoMemory => MendFault::NoMemory,
            _ => MendFault::Book(fault),
        }
    }

    /// A fault of the mended book, or an allocation failure while it was read.
    pub(crate) fn of_mended(fault: BookFault) -> MendFault
        ensures { result ≡ fault_of_mended fault }
    {
        match fault.kind {
            BookKind::NoMemory => MendFault::NoMemory,
            _ => MendFault::Mended(fault),
        }
    }

    /// Why a line was not mended.
    pub(crate) fn of_stop(stop: Stop) -> MendFault
        ensures { result ≡ fault_of_stop stop }
    {
        match stop {
            Stop::Row(fault) => MendFault::Row(fault),
            Stop::NoMemory => MendFault::NoMemory,
        }
    }
}

impl From<AllocError> for MendFault {
    ghost use Rattle.std.specs.Prelude.{◌≡◌};
    ghost use Rattle.th_mend.specs.declared.faults.MendFault.TheVariants.{NoMemory};

    ghost from_gives = { λ _ fault. fault ≡ NoMemory };

    fn from(_error: AllocError) -> MendFault {
        MendFault::NoMemory
    }
}

impl MendKind {
    /// The text of the kind.
    pub fn text(self) -> &'static str
        ensures { result.now ≡ kind_text self }
    {
        match self {
            MendKind::NoLine => "M1 no such line",
            MendKind::NoSight => "M2 no sight in this line",
            MendKind::NoSetup => "M3 no setup in this line",
            MendKind::NoHeight => "M4 no such height in force",
            MendKind::BeginsSetup => "M5 the line would be a setup",
            MendKind::Clash => "M6 changed by an earlier record",
            MendKind::NoUnit => "M7 no unit",
            MendKind::NotWhole => "M8 no whole number of the unit",
            MendKind::TooManyDigits => "M9 too many digits",
            MendKind::LongName => "M10 name too long",
        }
    }
}

impl fmt::Display for MendKind {
    ghost use Rattle.std.specs.Prelude.{Some};

    ghost output = { λ kind. Some (kind_text kind) };

    fn fmt<W: fmt::Write>(&self, f: &mut fmt::Formatter<W>) -> fmt::Result {
        f.write_str(self.text())
    }
}

impl Error for MendKind {}

impl fmt::Display for RowFault {
    ghost use Rattle.std.specs.Prelude.{Some};
    ghost use Rattle.th_mend.specs.Faults.{row_text};

    ghost output = { λ fault. Some (row_text fault) };

    fn fmt<W: fmt::Write>(&self, f: &mut fmt::Formatter<W>) -> fmt::Result {
        let row = self.row;
        let kind = self.kind;
        write!(f, "record {row}: {kind}")
    }
}

impl Error for RowFault {}

impl fmt::Display for MendFault {
    ghost use Rattle.std.specs.Prelude.{Some};
    ghost use Rattle.th_mend.specs.Faults.{fault_text};

    ghost output = { λ fault. Some (fault_text fault) };

    fn fmt<W: fmt::Write>(&self, f: &mut fmt::Formatter<W>) -> fmt::Result {
        match self {
            MendFault::Book(fault) => write!(f, "{fault}"),
            MendFault::Row(fault) => write!(f, "{fault}"),
            MendFault::Mended(fault) => write!(f, "mended {fault}"),
            MendFault::NoMemory => f.write_str("out of memory"),
        }
    }
}

impl Error for MendFault {}
