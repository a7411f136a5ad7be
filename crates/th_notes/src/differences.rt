//! Texts that differ in one character.
ghost use Rattle.std.specs.Prelude.{◌≡◌, ◌<◌, length};
ghost use Rattle.th_notes.specs.Twins.{are_exchanged, differ_first, differ_once};

/// Whether two texts differ in one character: one is changed, added or dropped, or two neighbours are
/// exchanged.
pub(crate) fn differ_once(text: &[u8], other: &[u8]) -> bool
    ensures { result ≡ differ_once text.now other.now }
{
    for (k, byte) in text.iter().enumerate() {
        if k == other.len() {
            return text.len() == k + 1;
        }
        if *byte != other[k] {
            return differ_first(&text[k..], &other[k..]);
        }
    }
    other.len() == text.len() + 1
}

/// Whether two texts are one but for a first character that is changed, or that one of them alone has, or
/// for the order of the first two.
fn differ_first(text: &[u8], other: &[u8]) -> bool
    requires text { 0 < length text.now }
    requires other { 0 < length other.now }
    ensures { result ≡ differ_first text.now other.now }
{
    let rest = &text[1..];
    let others = &other[1..];
    rest == others || rest == other || text == others || are_exchanged(text, other)
}

/// Whether two texts are one but for the order of their first two characters.
fn are_exchanged(text: &[u8], other: &[u8]) -> bool
    ensures { result ≡ are_exchanged text.now other.now }
{
    match (text, other) {
        ([one, two, rest @ ..], [first, second, others @ ..]) => {
            one == second && two == first && rest == others
        }
        _ => false,
    }
}
