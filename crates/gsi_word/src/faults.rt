//! Why bytes begin with no word, with the text of each fault, or a word's data give no length.
ghost use Rattle.std.specs.Prelude.{◌≡◌};
ghost use Rattle.gsi_word.specs.Words.{fault_text};

use std::error::Error;
use std::fmt;

/// Why some bytes do not begin with a word: the first part that is wrong.
#[derive(Clone, Copy, Debug, PartialEq, Eq)]
pub enum WordFault {
    /// There are fewer bytes than a spelling has.
    Short,
    /// Positions 1 and 2 are not two digits.
    BadIndex,
    /// Positions 3 to 6 hold a byte that is neither a digit nor a dot.
    BadInfo,
    /// Position 7 is neither `+` nor `-`.
    BadSign,
    /// The data hold a byte that is not printable ASCII.
    BadData,
}

impl WordFault {
    /// The text of the fault.
    pub fn text(self) -> &'static str
        ensures { result.now ≡ fault_text self }
    {
        match self {
            WordFault::Short => "short",
            WordFault::BadIndex => "bad index",
            WordFault::BadInfo => "bad information",
            WordFault::BadSign => "bad sign",
            WordFault::BadData => "bad data",
        }
    }
}

impl fmt::Display for WordFault {
    ghost use Rattle.std.specs.Prelude.{Some};

    ghost output = { λ fault. Some (fault_text fault) };

    fn fmt<W: fmt::Write>(&self, f: &mut fmt::Formatter<W>) -> fmt::Result {
        f.write_str(self.text())
    }
}

impl Error for WordFault {}

/// Why a word's data give no length.
#[derive(Clone, Copy, Debug, PartialEq, Eq)]
pub enum LengthFault {
    /// The data are not all digits.
    BadNumber,
    /// Position 6 is not the code of a unit.
    BadUnit,
    /// The length is more than 10 km in size.
    TooLarge,
}
