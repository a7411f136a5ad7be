//! The words of a line as a block: 1 to `MAX_WORDS` of them, all of one width.
ghost use Rattle.std.specs.Prelude.{◌≡◌, ◌↔◌, ◌<◌, ◌≤◌, IsTrue, IsNone, IfSome, length, map};
ghost use Rattle.gsi_word.specs.Words.{parts_of};
ghost use Rattle.gsi_block.specs.Limits.{max_words};
ghost use Rattle.gsi_block.specs.Spelled.{AreSpelled, AreSpelled-prop};

use crate::limits::MAX_WORDS;
use arrayvec::ArrayVec;
use gsi_word::laws::spelling_of_is_the_spelling;
use gsi_word::{Width, Word};

/// The words of a line, all of one width. They borrow their data from the line.
#[derive(Debug, Drop)]
pub struct Block<'a> {
    pub(crate) width: Width,
    pub(crate) words: ArrayVec<Word<'a>, MAX_WORDS>,
    ghost some: { 0 < length words.items },
    ghost few: { length words.items ≤ max_words },
    ghost spelled: { AreSpelled width (map parts_of words.items) } by { AreSpelled-prop width (map parts_of words.items) },
}

impl<'a> Block<'a> {
    ghost use Rattle.gsi_block.specs.Blocks.{BlockParts, IsBlockOf, block_parts};

    /// The block of these words, or `None` if no line has it: no words, more than `MAX_WORDS`, or
    /// words of two widths.
    pub fn of(words: &[Word<'a>]) -> Option<Block<'a>>
        ensures some { IfSome result (λ block. IsBlockOf (map parts_of words.now) (block_parts block)) }
        ensures none { IsNone result → (block : BlockParts) → ¬ IsBlockOf (map parts_of words.now) block }
    {
        spelling_of_is_the_spelling();
        let width = words.first()?.width();
        if words.len() > MAX_WORDS {
            return None;
        }
        if !are_spelled(words, width) {
            return None;
        }
        let mut kept = ArrayVec::new();
        let _ = kept.try_extend_from_slice(words);
        Some(Block { width, words: kept })
    }

    /// The width of the block's words.
    pub fn width(&self) -> Width
        ensures { result ≡ (block_parts self.now).width }
    {
        self.width
    }

    /// The words from left to right, 1 to `MAX_WORDS` of them, each spelled in the block's width.
    pub fn words(&self) -> &[Word<'a>]
        ensures words { map parts_of result.now ≡ (block_parts self.now).words }
        ensures some { 0 < length result.now }
        ensures few { length result.now ≤ max_words }
        ensures spelled { AreSpelled (block_parts self.now).width (block_parts self.now).words }
    {
        self.words.as_slice()
    }
}

/// Whether each word has a spelling in the width.
fn are_spelled(words: &[Word], width: Width) -> bool
    ensures { IsTrue result ↔ AreSpelled width (map parts_of words.now) }
{
    for word in words {
        if word.width() != width {
            return false;
        }
    }
    true
}
