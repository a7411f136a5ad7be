//! How a block is written as a line, appended to a vector whole or not at all.
ghost use Rattle.std.specs.Prelude.{◌≡◌, ◌+◌, ◌*◌, ◌≤◌, ◌++◌, IsOk, OnErr, OnOk, length, map, vec_capacity, vec_len};
ghost use Rattle.std.specs.List.{flat_map};
ghost use Rattle.gsi_word.specs.Limits.{max_word};
ghost use Rattle.arrayvec.specs.ArrayVec.{array_vec_len};
ghost use Rattle.gsi_word.specs.Words.{closed, parts_of};
ghost use Rattle.gsi_block.specs.Blocks.{block_parts};
ghost use Rattle.gsi_block.specs.Spelled.{AreSpelled};
ghost use Rattle.gsi_block.specs.Writing.{block_text};

use crate::blocks::Block;
use crate::limits::MAX_WRITTEN;
use arrayvec::ArrayVec;
use gsi_word::{Width, Word, write_word};
use std::alloc::AllocError;

/// Appends a block as a line: `*` if its words are GSI-16, each word with the space that closes it,
/// CR and LF.
///
/// After an allocation failure the vector's bytes are as before. None occurs if there is room.
pub fn write_block(block: &Block, out: &mut Vec<u8>) -> Result<(), AllocError>
    ensures ok { OnOk result (out.new.items ≡ out.old.items ++ block_text (block_parts block.now)) }
    ensures err { OnErr result (out.new.items ≡ out.old.items) }
    ensures room { vec_len out.old + length (block_text (block_parts block.now)) ≤ vec_capacity out.old → IsOk result }
{
    let mut line = ArrayVec::new();
    if block.width() == Width::Sixteen {
        line.push(b'*');
    }
    append_words(block.words(), block.width(), &mut line);
    line.push(b'\r');
    line.push(b'\n');
    out.extend_from_slice(line.as_slice())
}

/// Appends words to a line, each with the space that closes it.
fn append_words(words: &[Word], width: Width, line: &mut ArrayVec<u8, MAX_WRITTEN>)
    requires spelled { AreSpelled width (map parts_of words.now) }
    requires room { array_vec_len line.old + max_word * length words.now ≤ MAX_WRITTEN }
    ensures items { line.new.items ≡ line.old.items ++ flat_map closed (map parts_of words.now) }
    ensures len { array_vec_len line.new ≤ array_vec_len line.old + max_word * length words.now }
{
    for word in words {
        let mut closed = ArrayVec::new();
        write_word(word, &mut closed);
        let _ = line.try_extend_from_slice(closed.as_slice());
    }
}
