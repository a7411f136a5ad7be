//! Which words of a block count for an index.
ghost use Rattle.std.specs.Prelude.{◌≡◌, map};
ghost use Rattle.gsi_word.specs.Words.{parts_of};
ghost use Rattle.th_book.specs.Lines.{counts_for, holds};

use gsi_word::{Word, two_digit};

/// Whether a word counts for an index.
pub fn counts_for(index: u8, word: &Word<'_>) -> bool
    ensures { result ≡ counts_for index (parts_of word.now) }
{
    match two_digit(word) {
        Some(own) => own == index,
        None => false,
    }
}

/// Whether some word counts for an index.
pub fn holds(index: u8, words: &[Word<'_>]) -> bool
    ensures { result ≡ holds index (map parts_of words.now) }
{
    let Some((word, later)) = words.split_first() else {
        return false;
    };
    counts_for(index, word) || holds(index, later)
}
