//! The faults of a book, B1 to B12, and an allocation failure, with their texts.
ghost use Rattle.std.specs.Prelude.{◌≡◌};
ghost use Rattle.th_book.specs.Texts.{kind_beginning};

use gsi_block::BlockFault;
use std::error::Error;
use std::fmt;

/// What is wrong with a book. A line has the first kind that applies, in this order. `BookTooLong`
/// comes before all others.
#[derive(Clone, Copy, Debug, PartialEq, Eq)]
pub enum BookKind {
    /// B1: the line is neither blank nor a block.
    Block(BlockFault),
    /// B2: two counting words have one index of 33 and 84 to 88.
    RepeatedWord,
    /// B3: the first word of a sight or a setup is no point number.
    NoPointNumber,
    /// B4: the first word of a sight or a setup gives no name.
    BadName,
    /// B5: the data of a counting word 33, 87 or 88 are not all digits.
    BadNumber,
    /// B6: position 6 of a counting word 33, 87 or 88 is not the code of a unit.
    BadUnit,
    /// B7: a counting word 33, 87 or 88 is more than `MAX_LEN` in size.
    TooLarge,
    /// B8: there is no setup before the sight.
    SightBeforeSetup,
    /// B9: there is no instrument height from the setup's line to the sight's.
    NoInstrumentHeight,
    /// B10: there is no reflector height from the setup's line to the sight's.
    NoReflectorHeight,
    /// B11: the sight's station and target have the same name.
    SightToItself,
    /// B12: the book has more than `MAX_BOOK` bytes.
    BookTooLong,
    /// An observation could not be allocated. The book is not at fault.
    NoMemory,
}

/// The first fault of a book, and its line from 1; a book that is too long has it at line 0.
#[derive(Clone, Copy, Debug, PartialEq, Eq)]
pub struct BookFault {
    pub line: u32,
    pub kind: BookKind,
}

impl BookKind {
    /// The text of the kind, or its beginning: the text of a block's fault follows.
    pub fn beginning(self) -> &'static str
        ensures { result.now ≡ kind_beginning self }
    {
        match self {
            BookKind::Block(_) => "B1 ",
            BookKind::RepeatedWord => "B2 repeated word",
            BookKind::NoPointNumber => "B3 no point number",
            BookKind::BadName => "B4 bad name",
            BookKind::BadNumber => "B5 bad number",
            BookKind::BadUnit => "B6 bad unit",
            BookKind::TooLarge => "B7 too large",
            BookKind::SightBeforeSetup => "B8 sight before setup",
            BookKind::NoInstrumentHeight => "B9 no instrument height",
            BookKind::NoReflectorHeight => "B10 no reflector height",
            BookKind::SightToItself => "B11 sight to itself",
            BookKind::BookTooLong => "B12 book too long",
            BookKind::NoMemory => "out of memory",
        }
    }
}

impl fmt::Display for BookKind {
    ghost use Rattle.std.specs.Prelude.{Some};
    ghost use Rattle.th_book.specs.Texts.{kind_text};

    ghost output = { λ kind. Some (kind_text kind) };

    fn fmt<W: fmt::Write>(&self, f: &mut fmt::Formatter<W>) -> fmt::Result {
        f.write_str(self.beginning())?;
        match self {
            BookKind::Block(fault) => write!(f, "{fault}"),
            _ => Ok(()),
        }
    }
}

impl Error for BookKind {}

impl fmt::Display for BookFault {
    ghost use Rattle.std.specs.Prelude.{Some};
    ghost use Rattle.th_book.specs.Texts.{fault_text};

    ghost output = { λ fault. Some (fault_text fault) };

    fn fmt<W: fmt::Write>(&self, f: &mut fmt::Formatter<W>) -> fmt::Result {
        let line = self.line;
        let kind = self.kind;
        write!(f, "line {line}: {kind}")
    }
}

impl Error for BookFault {}
