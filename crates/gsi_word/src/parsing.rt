//! How a word is read from the front of bytes: index, information, sign and data, in this order.
ghost use Rattle.std.specs.Prelude.{◌≡◌};
ghost use Rattle.gsi_word.specs.Words.{parts_of, result_map, word_at};

use crate::bytes::{are_data, are_info, is_sign};
use crate::faults::WordFault;
use crate::words::{Width, Word};
use th_units::is_digit;

/// Reads a word from the front of the bytes. Bytes after the word do not matter.
///
/// The parts are tested in the order index, information, sign, data, after the number of bytes
/// (Leica GSI Online manual, word format).
pub fn read_word(bytes: &[u8], width: Width) -> Result<Word<'_>, WordFault>
    ensures { result_map parts_of result ≡ word_at width bytes.now }
{
    let end = width.spelling_len();
    if bytes.len() < end {
        return Err(WordFault::Short);
    }
    let [tens, ones] = [bytes[0], bytes[1]];
    if !is_digit(tens) || !is_digit(ones) {
        return Err(WordFault::BadIndex);
    }
    let info = [bytes[2], bytes[3], bytes[4], bytes[5]];
    if !are_info(info) {
        return Err(WordFault::BadInfo);
    }
    let sign = bytes[6];
    if !is_sign(sign) {
        return Err(WordFault::BadSign);
    }
    let body = &bytes[7..end];
    if !are_data(body) {
        return Err(WordFault::BadData);
    }
    Ok(Word {
        index: 10 * (tens - b'0') + (ones - b'0'),
        info,
        negative: sign == b'-',
        body,
    })
}
