//! How a word is written: its spelling and a space behind it, or nothing where there is no room.
ghost use Rattle.std.specs.Prelude.{◌≡◌, ◌↔◌, ◌+◌, ◌≤◌, ◌++◌, IsTrue, length};
ghost use Rattle.std.specs.Bool.{OnTrue, OnFalse};
ghost use Rattle.arrayvec.specs.ArrayVec.{array_vec_len};
ghost use Rattle.gsi_word.specs.Words.{closed, parts_of};

use crate::limits::MAX_WORD;
use crate::words::Word;
use arrayvec::ArrayVec;

/// Appends a word's spelling, and the space that closes it in a block.
///
/// Returns false, and appends nothing, only if there is no room for both.
pub fn write_word(word: &Word, out: &mut ArrayVec<u8, MAX_WORD>) -> bool
    ensures room { IsTrue result ↔ (array_vec_len out.old + length (closed (parts_of word.now)) ≤ 24) }
    ensures written { OnTrue result (out.new.items ≡ out.old.items ++ closed (parts_of word.now)) }
    ensures unchanged { OnFalse result (out.new ≡ out.old) }
{
    if out.remaining_capacity() < word.width().spelling_len() + 1 {
        return false;
    }
    let [first, second, third, fourth] = word.info();
    let sign = if word.negative() { b'-' } else { b'+' };
    let [tens, ones] = [b'0' + word.index() / 10, b'0' + word.index() % 10];
    append(out, &[tens, ones, first, second, third, fourth, sign]);
    append(out, word.body());
    out.push(b' ');
    true
}

/// Appends bytes for which there is room.
fn append(out: &mut ArrayVec<u8, MAX_WORD>, bytes: &[u8])
    requires { array_vec_len out.old + length bytes.now ≤ MAX_WORD }
    ensures { out.new.items ≡ out.old.items ++ bytes.now }
{
    for byte in bytes {
        out.push(*byte);
    }
}
