//! Where a line ends, and which bytes belong to its end: CR LF, CR or LF.
ghost use Rattle.std.specs.Prelude.{◌≡◌, ◌≤◌, length};
ghost use Rattle.std.specs.List.{prefix_len};
ghost use Rattle.gsi_block.specs.Lines.{is_in_line};
ghost use Rattle.gsi_block.specs.Inside.Ends.{end_len, is_lone_return, feed_len};

use memchr::memchr2;

/// How many bytes are searched at once. The search goes over 32 bytes at a time, and takes slower
/// steps of 64 where there are so many; most lines are short.
const WINDOW: usize = 63;

/// How many bytes stand before the first one of an end. Where an end stands at the front, as behind
/// an empty line, nothing is searched.
#[inline(always)]
pub(crate) fn line_len(text: &[u8]) -> usize
    ensures place { result ≡ prefix_len is_in_line text.now }
    ensures within { result ≤ length text.now }
{
    if let [b'\n' | b'\r', ..] = text {
        return 0;
    }
    let mut rest = text;
    while !rest.is_empty() {
        let (window, behind) = rest.split_at(rest.len().min(WINDOW));
        let found = line_len_within(window);
        if found < window.len() {
            return text.len() - rest.len() + found;
        }
        rest = behind;
    }
    text.len()
}

/// The same of a few bytes.
#[inline(always)]
fn line_len_within(window: &[u8]) -> usize
    ensures place { result ≡ prefix_len is_in_line window.now }
    ensures within { result ≤ length window.now }
{
    memchr2(b'\n', b'\r', window).unwrap_or(window.len())
}

/// How many bytes the end has that stands at the front, none where nothing stands there.
#[inline(always)]
pub(crate) fn end_len(bytes: &[u8]) -> usize
    ensures { result ≡ end_len bytes.now }
{
    match bytes {
        [] => 0,
        [b'\r', b'\n', ..] => 2,
        _ => 1,
    }
}

/// Whether the end that stands at the front is a CR without an LF.
#[inline(always)]
pub(crate) fn is_lone_return(bytes: &[u8]) -> bool
    ensures { result ≡ is_lone_return bytes.now }
{
    match bytes {
        [b'\r', b'\n', ..] => false,
        [b'\r', ..] => true,
        _ => false,
    }
}

/// How many bytes at the front belong to an end before them: an LF where that end was a CR.
#[inline(always)]
pub(crate) fn feed_len(after_return: bool, bytes: &[u8]) -> usize
    ensures { result ≡ feed_len after_return bytes.now }
{
    match bytes {
        [b'\n', ..] if after_return => 1,
        _ => 0,
    }
}
