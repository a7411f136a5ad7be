//! Books without sights: how many blocks they have, and which words in place of sights.
ghost use Rattle.std.specs.Prelude.{◌≡◌, ◌≤◌, ℕ, List, length, map};
ghost use Rattle.th_book.specs.Lines.{ParsedLine};
ghost use Rattle.gsi_word.specs.Words.{parts_of};
ghost use Rattle.th_entries.specs.Inside.Watches.{with_unsighted};
ghost use Rattle.th_entries.specs.Sights.{no_sight_in, numbers_in};
ghost use Rattle.th_entries.specs.Watched.{HasWatched};
ghost use Rattle.th_entries.specs.Words.{measured};

use crate::words::{MEASURED, MEASURED_WORDS, see_measured};
use arrayvec::ArrayVec;
use gsi_word::Word;
use th_book::laws::faultless_book_is_sound;
use th_book::{Entered, Setup, Witness};

/// A book has blocks and no sight, as those of most recording masks as they leave the factory.
#[derive(Clone, Copy, Debug, PartialEq, Eq)]
pub struct NoSight {
    /// The book's number, from 1.
    pub book: u32,
    /// How many blocks it has.
    pub blocks: u32,
    /// Which of the words `MEASURED` it has, in their order.
    pub words: [bool; MEASURED_WORDS],
}

impl NoSight {
    /// The numbers of the words that the book has in place of sights, in ascending order.
    pub fn numbers(&self) -> ArrayVec<u16, MEASURED_WORDS>
        ensures numbers { result.items ≡ numbers_in self.now.words measured }
        ensures few { length result.items ≤ 14 }
    {
        let mut numbers = ArrayVec::new();
        for (place, has) in self.words.iter().enumerate() {
            if *has {
                numbers.push(MEASURED[place]);
            }
        }
        numbers
    }
}

/// What a book has in place of sights, as long as it has none: a witness of its reading. After the first
/// sight it looks at nothing.
#[derive(Drop)]
pub struct SightWatch {
    sighted: bool,
    blocks: u32,
    words: [bool; MEASURED_WORDS],
}

impl SightWatch {
    /// What is known of a book before its first line.
    pub fn new() -> SightWatch
        ensures { (parsed : List ParsedLine) → HasWatched parsed 0 result }
    {
        SightWatch {
            sighted: false,
            blocks: 0,
            words: [false; MEASURED_WORDS],
        }
    }

    /// The note of a book with its number, from 1, whose lines were all seen, if it has blocks and no
    /// sight.
    pub fn note(&self, book: u32) -> Option<NoSight>
        ensures { (parsed : List ParsedLine) → HasWatched parsed (length parsed) self.now
            → result ≡ no_sight_in book parsed }
    {
        if self.sighted || self.blocks == 0 {
            return None;
        }
        Some(NoSight {
            book,
            blocks: self.blocks,
            words: self.words,
        })
    }

    /// Sees a block that is no sight, before the first sight.
    fn unsighted(&mut self, words: &[Word<'_>])
        ensures { self.new ≡ with_unsighted (map parts_of words.now) self.old }
    {
        self.blocks = self.blocks.saturating_add(1);
        see_measured(&mut self.words, words);
    }
}

impl Witness for SightWatch {
    ghost use Rattle.std.specs.Prelude.{⊤};
    ghost use Rattle.th_entries.specs.Watched.{HasWatched};

    ghost Start = { ⊤ };

    ghost has_seen = { λ start number parsed place watch. HasWatched parsed place watch };

    #[inline(always)]
    fn blank(&mut self) {}

    #[inline(always)]
    fn block(&mut self, _: &Option<Setup>, entered: &Entered, words: &[Word<'_>]) {
        faultless_book_is_sound();
        if self.sighted {
            return;
        }
        if entered.target.is_some() {
            self.sighted = true;
        } else {
            self.unsighted(words);
        }
    }
}
