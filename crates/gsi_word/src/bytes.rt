//! Which bytes may stand where in a word: in its information, as its sign and in its data.
ghost use Rattle.std.specs.Prelude.{◌≡◌};
ghost use Rattle.std.specs.List.{list_all};
ghost use Rattle.gsi_word.specs.Bytes.{is_info, is_sign, is_data};

use th_units::is_digit;

/// Whether each byte is a digit or a dot.
pub(crate) fn are_info(bytes: [u8; 4]) -> bool
    ensures { result ≡ list_all is_info bytes }
{
    let [first, second, third, fourth] = bytes;
    is_info(first) && is_info(second) && is_info(third) && is_info(fourth)
}

/// Whether a byte is a digit or a dot.
fn is_info(byte: u8) -> bool
    ensures { result ≡ is_info byte }
{
    byte == b'.' || is_digit(byte)
}

/// Whether a byte is a plus or a minus.
pub(crate) fn is_sign(byte: u8) -> bool
    ensures { result ≡ is_sign byte }
{
    byte == b'+' || byte == b'-'
}

/// Whether each byte is printable ASCII.
pub(crate) fn are_data(bytes: &[u8]) -> bool
    ensures { result ≡ list_all is_data bytes.now }
{
    let mut all = true;
    for byte in bytes {
        all &= b' ' <= *byte && *byte <= b'~';
    }
    all
}
