//! Text that grows, column by column and line by line.
ghost use Rattle.std.specs.Prelude.{◌≡◌, ◌≤◌, ◌+◌, ◌++◌, [], IfOk, OnOk, decimal, replicate};
ghost use Rattle.th_units.specs.Metres.{metres};
ghost use Rattle.th_columns.specs.Columns.{gap, left_in, line_end, right_in, widest};

use itoa::Buffer;
use std::alloc::{AllocError, Global};
use std::marker::Model;
use th_units::metre_text;

/// Spaces for the widest column.
const SPACES: [u8; 26] = [b' '; 26];

/// How many bytes a line of a table usually has.
pub const LINE: usize = 88;

/// How many spaces stand between neighbouring columns.
const GAP: usize = 2;

/// A text to which columns and line ends are added.
#[derive(Drop)]
pub struct Page {
    bytes: Vec<u8>,
}

impl Model for Page {
    ghost use Rattle.std.specs.Prelude.{List, ℕ};

    ghost Value = { List ℕ };

    ghost view = { λ page. page.bytes.items };
}

impl Page {
    /// An empty text.
    pub fn new(alloc: Global) -> Page
        ensures { result ≡ [] }
    {
        Page {
            bytes: Vec::new(alloc),
        }
    }

    /// An empty text with room for so many bytes.
    pub fn with_room(alloc: Global, bytes: usize) -> Result<Page, AllocError>
        ensures { IfOk result (λ page. page ≡ []) }
    {
        Ok(Page {
            bytes: Vec::with_capacity(alloc, bytes)?,
        })
    }

    /// The text.
    pub fn into_bytes(self) -> Vec<u8>
        ensures { result.items ≡ self }
    {
        self.bytes
    }

    /// The text so far.
    pub fn as_bytes(&self) -> &[u8]
        ensures { result.now ≡ self.now }
    {
        &self.bytes
    }

    /// Drops the text so far.
    pub fn clear(&mut self)
        ensures { self.new ≡ [] }
    {
        self.bytes.clear()
    }

    /// Adds bytes.
    pub fn add(&mut self, bytes: &[u8]) -> Result<(), AllocError>
        ensures { OnOk result (self.new ≡ self.old ++ bytes.now) }
    {
        self.bytes.extend_from_slice(bytes)
    }

    /// Adds spaces.
    fn add_spaces(&mut self, count: usize) -> Result<(), AllocError>
        requires { count ≤ widest }
        ensures { OnOk result (self.new ≡ self.old ++ replicate count 32) }
    {
        self.add(&SPACES[..count])
    }

    /// Adds a text with spaces after it, `width` bytes in all.
    #[tactic(auto, unfolding(crate::specs::Columns::left_in))]
    pub fn left(&mut self, width: usize, text: &[u8]) -> Result<(), AllocError>
        requires { width ≤ widest }
        ensures { OnOk result (self.new ≡ self.old ++ left_in width text.now) }
    {
        self.add(text)?;
        self.add_spaces(width.saturating_sub(text.len()))
    }

    /// Adds a text with spaces before it, `width` bytes in all.
    #[tactic(auto, unfolding(crate::specs::Columns::right_in))]
    pub fn right(&mut self, width: usize, text: &[u8]) -> Result<(), AllocError>
        requires { width ≤ widest }
        ensures { OnOk result (self.new ≡ self.old ++ right_in width text.now) }
    {
        self.add_spaces(width.saturating_sub(text.len()))?;
        self.add(text)
    }

    /// Adds a text as `left` does, and the spaces before the next column.
    #[tactic(auto, using(crate::proofs::ColumnLemmas::gap_after), unfolding(crate::specs::Columns::left_in))]
    pub fn left_gap(&mut self, width: usize, text: &[u8]) -> Result<(), AllocError>
        requires { width + 2 ≤ widest }
        ensures { OnOk result (self.new ≡ self.old ++ left_in width text.now ++ gap) }
    {
        self.add(text)?;
        self.add_spaces(width.saturating_sub(text.len()) + GAP)
    }

    /// Adds the spaces after the column before, and a text as `right` does.
    #[tactic(auto, using(crate::proofs::ColumnLemmas::gap_before), unfolding(crate::specs::Columns::right_in))]
    pub fn gap_right(&mut self, width: usize, text: &[u8]) -> Result<(), AllocError>
        requires { width + 2 ≤ widest }
        ensures { OnOk result (self.new ≡ self.old ++ gap ++ right_in width text.now) }
    {
        self.add_spaces(GAP + width.saturating_sub(text.len()))?;
        self.add(text)
    }

    /// Adds a number with spaces before it, `width` bytes in all.
    pub fn right_number(&mut self, width: usize, number: u64) -> Result<(), AllocError>
        requires { width ≤ widest }
        ensures { OnOk result (self.new ≡ self.old ++ right_in width (decimal number)) }
    {
        let mut digits = Buffer::new();
        self.right(width, digits.format(number).as_bytes())
    }

    /// Adds a length in metres with spaces before it, `width` bytes in all.
    pub fn right_metres(&mut self, width: usize, units: i64) -> Result<(), AllocError>
        requires { width ≤ widest }
        ensures { OnOk result (self.new ≡ self.old ++ right_in width (metres units)) }
    {
        let text = metre_text(units);
        self.right(width, text.as_bytes())
    }

    /// Adds the two spaces between neighbouring columns.
    pub fn gap(&mut self) -> Result<(), AllocError>
        ensures { OnOk result (self.new ≡ self.old ++ gap) }
    {
        self.add(b"  ")
    }

    /// Ends the line.
    pub fn end_line(&mut self) -> Result<(), AllocError>
        ensures { OnOk result (self.new ≡ self.old ++ line_end) }
    {
        self.add(b"\n")
    }
}
