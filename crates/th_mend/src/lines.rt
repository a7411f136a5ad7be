//! A line as it is mended.
ghost use Rattle.std.specs.Prelude.{◌≡◌, ◌++◌, [], IfErr, Ok, OnOk, drop};
ghost use Rattle.gsi_block.specs.Blocks.{block_parts, mark};
ghost use Rattle.gsi_word.specs.Words.{result_map};
ghost use Rattle.th_mend.specs.Inside.Stops.{IsRowOf, IsStopOf};
ghost use Rattle.th_mend.specs.MendedLines.{line_with, mended_line, mended_words, row_len, without_last};

use crate::edits::{Edit, is_named};
use crate::stops::Stop;
use crate::words::{append_added, append_own};
use gsi_block::{Block, read_block};
use gsi_word::Width;
use std::alloc::AllocError;

/// Mends the line at a place, without its end: `text` holds the mended line instead of what it held.
/// Places count lines from 0.
///
/// `Row` if a length or a name has no place in a word of the line. After an error `text` may hold
/// anything.
pub fn mend_line(edits: &[Edit], place: u32, line: &[u8], text: &mut Vec<u8>) -> Result<(), Stop>
    ensures mended { OnOk result (mended_line edits.now place line.now ≡ Ok text.new.items) }
    ensures fault { IfErr result (IsStopOf (mended_line edits.now place line.now)) }
{
    text.clear();
    if !is_named(edits, place) {
        return Ok(text.extend_from_slice(line)?);
    }
    match read_block(line) {
        Ok(Some(block)) => mend_block(edits, place, line, &block, text),
        _ => Ok(text.extend_from_slice(line)?),
    }
}

/// Mends a line that is a block, into an empty text.
fn mend_block(
    edits: &[Edit],
    place: u32,
    line: &[u8],
    block: &Block<'_>,
    text: &mut Vec<u8>,
) -> Result<(), Stop>
    requires { text.old.items ≡ [] }
    ensures mended { OnOk result
        (result_map (line_with (block_parts block.now) line.now) (mended_words edits.now place (block_parts block.now))
        ≡ Ok text.new.items) }
    ensures fault { IfErr result
        (IsStopOf (result_map (line_with (block_parts block.now) line.now) (mended_words edits.now place (block_parts block.now)))) }
{
    append_row(edits, place, block, text)?;
    drop_last(text);
    text.extend_from_slice(behind(line, row_len(block)))?;
    Ok(())
}

/// Appends the mark of a mended block and its words, each closed by a space, to an empty text.
fn append_row(edits: &[Edit], place: u32, block: &Block<'_>, text: &mut Vec<u8>) -> Result<(), Stop>
    requires { text.old.items ≡ [] }
    ensures row { OnOk result (IsRowOf (block_parts block.now) (mended_words edits.now place (block_parts block.now)) text.new.items) }
    ensures fault { IfErr result (IsStopOf (mended_words edits.now place (block_parts block.now))) }
{
    append_mark(block.width(), text)?;
    append_own(edits, place, block.words(), text)?;
    append_added(edits, place, block, text)
}

/// Appends the mark of a width.
fn append_mark(width: Width, text: &mut Vec<u8>) -> Result<(), AllocError>
    ensures { OnOk result (text.new.items ≡ text.old.items ++ mark width) }
{
    match width {
        Width::Eight => Ok(()),
        Width::Sixteen => text.extend_from_slice(b"*"),
    }
}

/// Drops the last byte of a text, if it has one.
fn drop_last(text: &mut Vec<u8>)
    ensures { text.new.items ≡ without_last text.old.items }
{
    let kept = text.len().saturating_sub(1);
    text.truncate(kept);
}

/// How many bytes the words of a block take in their line.
fn row_len(block: &Block<'_>) -> usize
    ensures { result ≡ row_len (block_parts block.now) }
{
    let closed = block.words().len() * (block.width().spelling_len() + 1);
    match block.width() {
        Width::Eight => closed - 1,
        Width::Sixteen => closed,
    }
}

/// The bytes behind the first ones, none if there are no more.
fn behind(bytes: &[u8], count: usize) -> &[u8]
    ensures { result.now ≡ drop count bytes.now }
{
    if count < bytes.len() {
        &bytes[count..]
    } else {
        &[]
    }
}
