//! Laws that relate the definitions to one another. They call nothing of the code. A law that
//! depends on one of `gsi_word` calls that.

ghost use Rattle.std.specs.Prelude.{◌≡◌, ◌↔◌, ℕ, List, Some, None, Ok};
ghost use Rattle.gsi_block.specs.Blocks.{BlockParts, block_at, IsBlock, IsBlankLine};
ghost use Rattle.gsi_block.specs.Lines.{lines_of, AreLines};
ghost use Rattle.gsi_block.specs.Pieces.{cut_line};
ghost use Rattle.gsi_block.specs.Writing.{block_line};

use gsi_word::laws::{spelling_of_is_the_spelling, word_at_reads_spellings};

/// The lines of a text are the one list of pieces that it consists of, each with its end.
pub fn lines_of_is_the_list_of_lines()
    ensures { (text : List ℕ) (lines : List (List ℕ)) → (lines ≡ lines_of text) ↔ AreLines lines text }
{}

/// A line is read as a block exactly where it spells the block's words, so it has at most one list
/// of words.
pub fn block_at_reads_blocks()
    ensures { (line : List ℕ) (block : BlockParts) → (block_at line ≡ Ok (Some block)) ↔ IsBlock line block }
{
    word_at_reads_spellings();
}

/// A line is blank exactly where it is at most `MAX_LINE` spaces and nothing else.
pub fn block_at_passes_spaces()
    ensures { (line : List ℕ) → (block_at line ≡ Ok None) ↔ IsBlankLine line }
{}

/// The part that `Lines` keeps of a line is read as the line itself: a line that is longer is too
/// long either way.
pub fn cut_line_is_read_as_its_line()
    ensures { (line : List ℕ) → block_at (cut_line line) ≡ block_at line }
{}

/// A line is a block of at most one list of words, in one width.
pub fn a_line_is_one_block()
    ensures { (line : List ℕ) (one other : BlockParts) → IsBlock line one → IsBlock line other → one ≡ other }
{
    word_at_reads_spellings();
}

/// The line that a block is written as is read as that block.
pub fn block_line_is_read()
    ensures { (line : List ℕ) (block : BlockParts) → IsBlock line block → block_at (block_line block) ≡ Ok (Some block) }
{
    word_at_reads_spellings();
    spelling_of_is_the_spelling();
}
