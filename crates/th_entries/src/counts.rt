//! Counts of the lines, blocks, setups and sights of a book.
ghost use Rattle.std.specs.Prelude.{◌≡◌};

use th_book::Entered;

/// How many lines a book has, and how many of these are blocks, setups and sights.
#[derive(Clone, Copy, Debug, PartialEq, Eq)]
pub struct BookCount {
    pub lines: u32,
    pub blocks: u32,
    pub setups: u32,
    pub sights: u32,
}

impl BookCount {
    ghost use Rattle.th_entries.specs.Inside.Counts.{no_lines, with_block, with_line};

    /// The counts before the first line.
    pub(crate) fn new() -> BookCount
        ensures { result ≡ no_lines }
    {
        BookCount {
            lines: 0,
            blocks: 0,
            setups: 0,
            sights: 0,
        }
    }

    /// Counts one more line.
    pub(crate) fn line(&mut self)
        ensures { self.new ≡ with_line self.old }
    {
        self.lines = self.lines.saturating_add(1);
    }

    /// Counts a line that is a block, by what it enters.
    pub(crate) fn block(&mut self, entered: &Entered)
        ensures { self.new ≡ with_block entered.now self.old }
    {
        self.blocks = self.blocks.saturating_add(1);
        if entered.station.is_some() {
            self.setups = self.setups.saturating_add(1);
        }
        if entered.target.is_some() {
            self.sights = self.sights.saturating_add(1);
        }
    }
}
