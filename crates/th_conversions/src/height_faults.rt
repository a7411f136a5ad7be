//! Why a book with heights is refused: faults of its own beside those of a book, the line of each, and
//! their texts.
ghost use Rattle.std.specs.Prelude.{◌≡◌};
ghost use Rattle.th_conversions.specs.HeightFaults.{kind_beginning, of_book};

use std::error::Error;
use std::fmt;
use th_book::{BookFault, BookKind};

/// What is wrong with a book with heights, or with the book that is printed of it.
#[derive(Clone, Copy, Debug, PartialEq, Eq)]
pub enum HeightKind {
    /// A fault that a book has, too.
    Book(BookKind),
    /// B2: a block has a counting word 33, so that the book needs no conversion.
    HasDifference,
    /// B6: the word 33 of a height sight is no whole number of 1/100 mm, nor of 1/10,000 ft.
    NoUnit,
    /// B7: the word 33 of a height sight is more than `MAX_LEN` in size, or has no room in its data.
    FarTarget,
    /// B9: the setup of a height sight has no counting word 86.
    NoStationHeight,
}

/// The first fault of a book with heights, and its line from 1; a book that is too long has it at line 0.
#[derive(Clone, Copy, Debug, PartialEq, Eq)]
pub struct HeightFault {
    pub line: u32,
    pub kind: HeightKind,
}

impl HeightFault {
    /// A fault that a book has, too.
    pub(crate) fn of_book(fault: BookFault) -> HeightFault
        ensures { result ≡ of_book fault }
    {
        HeightFault {
            line: fault.line,
            kind: HeightKind::Book(fault.kind),
        }
    }
}

impl From<BookFault> for HeightFault {
    ghost use Rattle.std.specs.Prelude.{◌≡◌};
    ghost use Rattle.th_conversions.specs.HeightFaults.{of_book};

    ghost from_gives = { λ own fault. fault ≡ of_book own };

    fn from(fault: BookFault) -> HeightFault {
        HeightFault::of_book(fault)
    }
}

impl HeightKind {
    /// The text of the kind, or its beginning: the text of a block's fault follows.
    pub fn beginning(self) -> &'static str
        ensures { result.now ≡ kind_beginning self }
    {
        match self {
            HeightKind::Book(kind) => kind.beginning(),
            HeightKind::HasDifference => "B2 has a word 33",
            HeightKind::NoUnit => "B6 no unit for word 33",
            HeightKind::FarTarget => "B7 too large for word 33",
            HeightKind::NoStationHeight => "B9 no station height",
        }
    }
}

impl fmt::Display for HeightKind {
    ghost use Rattle.std.specs.Prelude.{Some};
    ghost use Rattle.th_conversions.specs.HeightFaults.{kind_text};

    ghost output = { λ kind. Some (kind_text kind) };

    fn fmt<W: fmt::Write>(&self, f: &mut fmt::Formatter<W>) -> fmt::Result {
        match self {
            HeightKind::Book(kind) => write!(f, "{kind}"),
            other => f.write_str(other.beginning()),
        }
    }
}

impl Error for HeightKind {}

impl fmt::Display for HeightFault {
    ghost use Rattle.std.specs.Prelude.{Some};
    ghost use Rattle.th_conversions.specs.HeightFaults.{fault_text};

    ghost output = { λ fault. Some (fault_text fault) };

    fn fmt<W: fmt::Write>(&self, f: &mut fmt::Formatter<W>) -> fmt::Result {
        let line = self.line;
        let kind = self.kind;
        write!(f, "line {line}: {kind}")
    }
}

impl Error for HeightFault {}
