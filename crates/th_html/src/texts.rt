//! Texts from outside, and numbers.
ghost use Rattle.std.specs.Prelude.{◌≡◌, ◌++◌, OnOk, decimal, slice_index_or};
ghost use Rattle.th_html.specs.Texts.{escaped, escaped_byte, hidden_len, next_escaped};

use itoa::Buffer;
use std::alloc::AllocError;
use th_columns::Page;

/// Writes a text from outside, a name or a note, so that it makes no markup, and with `?` for
/// characters that a page may not have.
pub fn write_escaped(page: &mut Page, text: &[u8]) -> Result<(), AllocError>
    ensures { OnOk result (page.new ≡ page.old ++ escaped text.now) }
{
    let mut left = text;
    let mut skipped = 0;
    while let Some((byte, rest)) = left.split_first() {
        if skipped > 0 {
            skipped -= 1;
        } else {
            let hidden = hidden_len(left);
            write_next(page, *byte, hidden)?;
            skipped = hidden.saturating_sub(1);
        }
        left = rest;
    }
    Ok(())
}

/// How many bytes the character at the front of a text has, if a page may not have it, else 0. Those are
/// the control characters U+0080 to U+009F, and U+FFFE and U+FFFF, which are no characters.
fn hidden_len(text: &[u8]) -> usize
    ensures { result ≡ hidden_len text.now }
{
    let second = byte_at(text, 1);
    if byte_at(text, 0) == 194 && (128 <= second && second < 160) {
        return 2;
    }
    if byte_at(text, 0) == 239 && (second == 191 && byte_at(text, 2) >= 190) {
        return 3;
    }
    0
}

/// The byte of a text at a place, 0 behind it.
fn byte_at(text: &[u8], place: usize) -> u8
    ensures { result ≡ slice_index_or text.now place 0 }
{
    match text.get(place) {
        Some(byte) => *byte,
        None => 0,
    }
}

/// Writes the next byte of a text, or `?` for a hidden character of so many bytes.
fn write_next(page: &mut Page, byte: u8, hidden: usize) -> Result<(), AllocError>
    ensures { OnOk result (page.new ≡ page.old ++ next_escaped byte hidden) }
{
    if hidden == 0 {
        write_byte(page, byte)
    } else {
        page.add(b"?")
    }
}

/// Writes a byte of such a text.
fn write_byte(page: &mut Page, byte: u8) -> Result<(), AllocError>
    ensures { OnOk result (page.new ≡ page.old ++ escaped_byte byte) }
{
    if byte == b'&' {
        page.add(b"&amp;")
    } else if byte == b'<' {
        page.add(b"&lt;")
    } else if byte == b'>' {
        page.add(b"&gt;")
    } else if byte == b'"' {
        page.add(b"&quot;")
    } else if byte == b'\'' {
        page.add(b"&#39;")
    } else if byte < 32 || byte == 127 {
        page.add(b"?")
    } else {
        page.add(&[byte])
    }
}

/// Writes a number in decimal.
pub fn write_number(page: &mut Page, number: u64) -> Result<(), AllocError>
    ensures { OnOk result (page.new ≡ page.old ++ decimal number) }
{
    let mut digits = Buffer::new();
    page.add(digits.format(number).as_bytes())
}
