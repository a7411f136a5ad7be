//! The lines of a text with their ends.
ghost use Rattle.std.specs.Prelude.{◌≡◌, ◌<◌, ◌≤◌, ◌∷◌, length};
ghost use Rattle.std.specs.List.{prefix_len};
ghost use Rattle.gsi_block.specs.Lines.{is_in_line};
ghost use Rattle.th_mend.specs.Ends.{ended_lines};
ghost use Rattle.th_mend.specs.Inside.Ends.{end_len};

use memchr::memchr2;

/// The first line of a text, its end, and the text behind it.
pub(crate) fn split_line(text: &[u8]) -> (&[u8], &[u8], &[u8])
    requires { 0 < length text.now }
    ensures first { ended_lines text.now ≡ (result.0.now, result.1.now) ∷ ended_lines result.2.now }
    ensures fewer { length result.2.now < length text.now }
{
    let (line, after) = text.split_at(line_len(text));
    let (end, rest) = after.split_at(end_len(after));
    (line, end, rest)
}

/// How many bytes stand before the first one of an end.
fn line_len(text: &[u8]) -> usize
    ensures place { result ≡ prefix_len is_in_line text.now }
    ensures within { result ≤ length text.now }
{
    memchr2(b'\n', b'\r', text).unwrap_or(text.len())
}

/// How many bytes the end has that stands at the front, none where nothing stands there.
fn end_len(bytes: &[u8]) -> usize
    ensures value { result ≡ end_len bytes.now }
    ensures within { result ≤ length bytes.now }
{
    match bytes {
        [] => 0,
        [b'\r', b'\n', ..] => 2,
        _ => 1,
    }
}
