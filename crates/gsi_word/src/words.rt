//! The parts of a word, with data of 8 bytes (GSI-8) or 16 bytes (GSI-16).
ghost use Rattle.std.specs.Prelude.{◌≡◌, ◌<◌, ◌==◌, ◌||◌, IsTrue, length};
ghost use Rattle.std.specs.List.{list_all};
ghost use Rattle.gsi_word.specs.Bytes.{is_info, is_sign, is_data};

use crate::bytes::{are_data, are_info};
use crate::names::{Name, name_of_data};
use std::default::Default;

/// How many bytes of data a word has: 8 in GSI-8, 16 in GSI-16 (Leica GSI Online manual, word format).
#[derive(Clone, Copy, Debug, PartialEq, Eq)]
pub enum Width {
    Eight,
    Sixteen,
}

impl Width {
    ghost use Rattle.gsi_word.specs.Words.{spelling_len};

    /// How many bytes a spelling has, without the space that closes it in its block.
    pub fn spelling_len(self) -> usize
        ensures { result ≡ spelling_len self }
    {
        match self {
            Width::Eight => 15,
            Width::Sixteen => 23,
        }
    }
}

/// A word of a block. It borrows its data from the line.
#[derive(Clone, Copy, Debug)]
pub struct Word<'a> {
    pub(crate) index: u8,
    pub(crate) info: [u8; 4],
    pub(crate) negative: bool,
    pub(crate) body: &'a [u8],
    ghost index_in_range: { index < 100 },
    ghost info_allowed: { IsTrue (list_all is_info info) },
    ghost body_long: { IsTrue ((length body.now == 8) || (length body.now == 16)) },
    ghost body_allowed: { IsTrue (list_all is_data body.now) },
}

impl<'a> Word<'a> {
    ghost use Rattle.std.specs.Prelude.{option_map};
    ghost use Rattle.std.specs.Option.{SomeIff};
    ghost use Rattle.gsi_word.specs.Names.{name_of};
    ghost use Rattle.gsi_word.specs.Words.{HasSpelling, Spells, parts, parts_of, data_len, spelling_of};

    /// The word with this index, information, sign and data, or `None` if no spelling has these
    /// parts.
    ///
    /// The index is below 100, the information digits and dots, and the data 8 or 16 printable bytes.
    pub fn new(index: u8, info: [u8; 4], negative: bool, body: &'a [u8]) -> Option<Word<'a>>
        ensures { let word = parts index info negative body.now in SomeIff (option_map parts_of result) (HasSpelling word) word }
    {
        if index >= 100 || !are_info(info) || !has_data_len(body) || !are_data(body) {
            return None;
        }
        Some(Word {
            index,
            info,
            negative,
            body,
        })
    }

    /// The word index of positions 1 and 2.
    pub fn index(&self) -> u8
        ensures { result ≡ (parts_of self.now).index }
    {
        self.index
    }

    /// The information of positions 3 to 6, each a digit or a dot.
    pub fn info(&self) -> [u8; 4]
        ensures { result ≡ (parts_of self.now).info }
    {
        self.info
    }

    /// Whether the sign of position 7 is a minus.
    pub fn negative(&self) -> bool
        ensures { result ≡ (parts_of self.now).negative }
    {
        self.negative
    }

    /// The data, 8 or 16 printable bytes.
    pub fn body(&self) -> &'a [u8]
        ensures { result.now ≡ (parts_of self.now).body }
    {
        self.body
    }

    /// The name that the data give, as of `name_of`.
    pub fn name(&self) -> Option<Name>
        ensures { result ≡ name_of (parts_of self.now).body }
    {
        name_of_data(self.body)
    }

    /// The width of the word, by the number of its data.
    pub fn width(&self) -> Width
        ensures data { data_len result ≡ length (parts_of self.now).body }
        ensures spelled { Spells (parts_of self.now) (spelling_of (parts_of self.now)) result }
    {
        if self.body.len() == 8 {
            Width::Eight
        } else {
            Width::Sixteen
        }
    }
}

/// Whether there are as many bytes as the data of a word have, in one of the two widths.
fn has_data_len(body: &[u8]) -> bool
    ensures { result ≡ ((length body.now == 8) || (length body.now == 16)) }
{
    body.len() == 8 || body.len() == 16
}

/// The word that fills an array before words are read: index 0, four dots, a plus and eight zeros.
impl Default for Word<'_> {
    ghost use Rattle.gsi_word.specs.Words.{filler, parts_of};

    ghost is_default = { λ word. parts_of word ≡ filler };

    fn default() -> Self {
        Word {
            index: 0,
            info: *b"....",
            negative: false,
            body: b"00000000",
        }
    }
}
