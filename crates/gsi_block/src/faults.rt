//! Why a line is refused as a block, and the text of each fault.
ghost use Rattle.std.specs.Prelude.{◌≡◌};
ghost use Rattle.gsi_block.specs.Faults.{fault_beginning};

use gsi_word::WordFault;
use std::error::Error;
use std::fmt;

/// Why a line is neither blank nor a block. Words are numbered from 1.
#[derive(Clone, Copy, Debug, PartialEq, Eq)]
pub enum BlockFault {
    /// The bytes at the place of this word spell no word.
    BadWord(u32, WordFault),
    /// Something other than spaces follows `MAX_WORDS` words and a space.
    TooManyWords,
    /// The line has more than `MAX_LINE` bytes.
    LineTooLong,
    /// The byte after this word is not a space.
    BadSeparator(u32),
}

impl BlockFault {
    /// The text of the fault, or its beginning: the number of a word follows.
    pub fn beginning(self) -> &'static str
        ensures { result.now ≡ fault_beginning self }
    {
        match self {
            BlockFault::BadWord(_, _) => "word ",
            BlockFault::TooManyWords => "too many words",
            BlockFault::LineTooLong => "line too long",
            BlockFault::BadSeparator(_) => "no space after word ",
        }
    }
}

impl fmt::Display for BlockFault {
    ghost use Rattle.std.specs.Prelude.{Some};
    ghost use Rattle.gsi_block.specs.Faults.{fault_text};

    ghost output = { λ fault. Some (fault_text fault) };

    fn fmt<W: fmt::Write>(&self, f: &mut fmt::Formatter<W>) -> fmt::Result {
        f.write_str(self.beginning())?;
        match self {
            BlockFault::BadWord(number, fault) => write!(f, "{number}: {fault}"),
            BlockFault::BadSeparator(number) => write!(f, "{number}"),
            _ => Ok(()),
        }
    }
}

impl Error for BlockFault {}
