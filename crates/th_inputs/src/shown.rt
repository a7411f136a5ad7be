//! Bytes as they are shown.
ghost use Rattle.std.specs.Prelude.{◌≡◌, ◌<◌, ◌≤◌, IfOk, length, string_bytes};
ghost use Rattle.th_inputs.specs.Shown.{hex_digit, shown, shown_byte};

use std::alloc::{AllocError, Global};
use std::marker::Model;

/// How many bytes a byte is shown as, at most.
const CAPACITY: usize = 4;

/// A byte as it is shown.
#[derive(Drop)]
pub struct ShownByte {
    bytes: [u8; CAPACITY],
    len: usize,
}

impl Model for ShownByte {
    ghost use Rattle.std.specs.Prelude.{List, ℕ, ◌≤◌, take};
    ghost use Rattle.th_inputs.specs.declared.shown.TheConstants.{CAPACITY};

    ghost Value = { List ℕ };

    ghost view = { λ shown. take shown.len shown.bytes };

    ghost invariant = { λ shown. shown.len ≤ CAPACITY };
}

impl ShownByte {
    /// The bytes that are shown: printable ASCII.
    pub fn as_bytes(&self) -> &[u8]
        ensures { result.now ≡ self.now }
    {
        &self.bytes[..self.len]
    }
}

/// How a byte is shown: as it is where it is printable ASCII, else as `\xNN`. So nothing that was typed
/// sends anything else to a terminal.
pub fn shown_byte(byte: u8) -> ShownByte
    ensures shown { result ≡ shown_byte byte }
    ensures short { length result ≤ 4 }
{
    if b' ' <= byte && byte <= b'~' {
        return ShownByte {
            bytes: [byte, 0, 0, 0],
            len: 1,
        };
    }
    ShownByte {
        bytes: [b'\\', b'x', hex_digit(byte / 16), hex_digit(byte % 16)],
        len: CAPACITY,
    }
}

/// A text as its bytes are shown.
pub fn shown_text(alloc: Global, text: &str) -> Result<String, AllocError>
    ensures { IfOk result (λ own. string_bytes own ≡ shown text.now) }
{
    let mut bytes = Vec::new(alloc);
    for byte in text.as_bytes() {
        bytes.extend_from_slice(shown_byte(*byte).as_bytes())?;
    }
    String::from_utf8_lossy(alloc, bytes.as_slice())
}

/// A digit of base 16: 0 to 9, A to F.
fn hex_digit(digit: u8) -> u8
    requires { digit < 16 }
    ensures { result ≡ hex_digit digit }
{
    if digit < 10 {
        b'0' + digit
    } else {
        b'A' - 10 + digit
    }
}
