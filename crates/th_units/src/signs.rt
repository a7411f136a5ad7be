//! The plus or minus sign that a text may begin with.
ghost use Rattle.std.specs.Prelude.{◌≡◌};
ghost use Rattle.th_units.specs.Metres.{has_minus, without_sign};

/// Whether a text begins with a minus sign.
pub fn has_minus(text: &[u8]) -> bool
    ensures { result ≡ has_minus text.now }
{
    matches!(text, [b'-', ..])
}

/// A text without the plus or minus sign that it begins with, if any. A second sign is kept.
pub fn without_sign(text: &[u8]) -> &[u8]
    ensures { result.now ≡ without_sign text.now }
{
    match text {
        [b'+' | b'-', rest @ ..] => rest,
        _ => text,
    }
}
