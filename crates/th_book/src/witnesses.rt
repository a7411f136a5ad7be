//! Who sees the lines of a book while it is read.

ghost use Rattle.std.specs.Prelude.{ℕ, suc, List, map};
ghost use Rattle.gsi_word.specs.Words.{parts_of};
ghost use Rattle.th_book.specs.Lines.{ParsedLine};
ghost use Rattle.th_book.specs.Witnesses.{IsBlankAt, IsBlockAt};

use crate::entries::Entered;
use crate::setups::Setup;
use gsi_word::Word;

/// Sees each line of a book while it is read, in their order. `()` ignores them.
///
/// Nothing is promised of a book with a fault. A witness that runs out of memory keeps that to itself
/// until it is asked for what it saw.
pub trait Witness {
    // What was known before the book.
    ghost Start: { Type 0 };

    // The lines before a place of the book with this number and these parsed lines were seen.
    ghost has_seen: { Start → ℕ → List ParsedLine → ℕ → Self → Type 0 };

    /// Sees the next line, which is blank.
    fn blank(&mut self)
        ensures { (start : Start) (number : ℕ) (parsed : List ParsedLine) (place : ℕ) → IsBlankAt parsed place →
            has_seen start number parsed place self.old → has_seen start number parsed (suc place) self.new };

    /// Sees the next line, a block: its words, what they enter, and the setup that runs before them.
    fn block(&mut self, running: &Option<Setup>, entered: &Entered, words: &[Word<'_>])
        ensures { (start : Start) (number : ℕ) (parsed : List ParsedLine) (place : ℕ) →
            IsBlockAt parsed place running.now entered.now (map parts_of words.now) →
            has_seen start number parsed place self.old → has_seen start number parsed (suc place) self.new };
}

impl Witness for () {
    ghost use Rattle.std.specs.Prelude.{⊤};

    ghost Start = { ⊤ };

    ghost has_seen = { λ start number parsed place witness. ⊤ };

    #[inline(always)]
    fn blank(&mut self) {}

    #[inline(always)]
    fn block(&mut self, _: &Option<Setup>, _: &Entered, _: &[Word<'_>]) {}
}
