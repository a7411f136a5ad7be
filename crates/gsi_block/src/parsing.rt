//! How a line is read: as the words of a block, as blank, or as a fault.
ghost use Rattle.std.specs.Prelude.{◌≡◌, [], option_map};
ghost use Rattle.gsi_word.specs.Words.{result_map};
ghost use Rattle.gsi_block.specs.Blocks.{block_with, block_parts, is_blank, block_at, block_of};

use crate::blocks::Block;
use crate::faults::BlockFault;
use crate::limits::{MAX_LINE, MAX_WORDS};
use arrayvec::ArrayVec;
use gsi_word::laws::{spelling_of_is_the_spelling, word_at_reads_spellings};
use gsi_word::{Width, Word, WordFault, read_word};

/// The block of a line without its end, or `None` for a blank line.
///
/// `LineTooLong` comes before all other faults, then the first fault from the left. Nothing is
/// copied: the words borrow their data from the line (Leica GSI Online manual, word format).
pub fn read_block(line: &[u8]) -> Result<Option<Block<'_>>, BlockFault>
    ensures { result_map (option_map block_parts) result ≡ block_at line.now }
{
    word_at_reads_spellings();
    spelling_of_is_the_spelling();
    let mut words = ArrayVec::new();
    match read_words(line, &mut words) {
        Ok(Some(width)) => Ok(Some(Block { width, words })),
        Ok(None) => Ok(None),
        Err(fault) => Err(fault),
    }
}

/// Reads the words of a line's block into an array, in place of what it held: the width of the
/// words, or `None` for a blank line. Faults are those of `read_block`.
///
/// The array is borrowed and nothing is moved, so this is faster than `read_block`. After `None` or
/// a fault the array may hold anything.
#[inline(always)]
pub fn read_words<'a>(
    line: &'a [u8],
    words: &mut ArrayVec<Word<'a>, MAX_WORDS>,
) -> Result<Option<Width>, BlockFault>
    ensures { result_map (option_map (block_with words.new.items)) result ≡ block_at line.now }
{
    words.clear();
    if line.len() > MAX_LINE {
        return Err(BlockFault::LineTooLong);
    }
    if is_blank(line) {
        return Ok(None);
    }
    if line[0] != b'*' {
        return words_of(Width::Eight, line, words);
    }
    let bytes = &line[1..];
    if is_blank(bytes) {
        return Err(BlockFault::BadWord(1, WordFault::Short));
    }
    words_of(Width::Sixteen, bytes, words)
}

/// Whether there are only spaces, or nothing at all.
fn is_blank(bytes: &[u8]) -> bool
    ensures { result ≡ is_blank bytes.now }
{
    bytes.iter().all(|byte| *byte == b' ')
}

/// Adds the words of a width, the first of which begins where the bytes begin, to an empty array.
fn words_of<'a>(
    width: Width,
    bytes: &'a [u8],
    words: &mut ArrayVec<Word<'a>, MAX_WORDS>,
) -> Result<Option<Width>, BlockFault>
    requires { words.old.items ≡ [] }
    ensures { result_map (option_map (block_with words.new.items)) result ≡ block_of width bytes.now }
{
    let mut rest = bytes;
    for before in 0..MAX_WORDS as u32 {
        let number = before + 1;
        let word = match read_word(rest, width) {
            Ok(word) => word,
            Err(fault) => return Err(BlockFault::BadWord(number, fault)),
        };
        words.push(word);
        let (_, after) = rest.split_at(width.spelling_len());
        if is_blank(after) {
            return Ok(Some(width));
        }
        if after[0] != b' ' {
            return Err(BlockFault::BadSeparator(number));
        }
        (_, rest) = after.split_at(1);
    }
    Err(BlockFault::TooManyWords)
}
