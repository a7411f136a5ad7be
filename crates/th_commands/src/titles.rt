//! Titles of pages.
ghost use Rattle.std.specs.Prelude.{◌≡◌};
ghost use Rattle.std.specs.List.{list_all};
ghost use Rattle.th_commands.specs.Titles.{begins_character, characters, is_in_line, is_title};

use crate::limits::MAX_TITLE;

/// Whether a text is a title: one line of 1 to `MAX_TITLE` characters, with no control character of ASCII.
pub(crate) fn is_title(text: &str) -> bool
    ensures { result ≡ is_title text.now }
{
    let bytes = text.as_bytes();
    !bytes.is_empty() && characters(bytes) <= MAX_TITLE && are_in_line(bytes)
}

/// Whether no byte is a control character of ASCII.
fn are_in_line(bytes: &[u8]) -> bool
    ensures { result ≡ list_all is_in_line bytes.now }
{
    bytes.iter().all(|byte| 32 <= *byte && *byte != 127)
}

/// How many characters a text has, given its bytes in UTF-8.
fn characters(bytes: &[u8]) -> usize
    ensures { result ≡ characters bytes.now }
{
    let mut count = 0;
    for byte in bytes {
        if begins_character(*byte) {
            count += 1;
        }
    }
    count
}

/// Whether a byte begins a character of UTF-8.
fn begins_character(byte: u8) -> bool
    ensures { result ≡ begins_character byte }
{
    byte < 128 || byte >= 192
}
