//! Lengths in metres as text: written with eight decimals, and read as units of 10 nm.
ghost use Rattle.std.specs.Prelude.{◌≡◌, ◌+◌, ◌<◌, ◌≤◌, IfOk, true, [], ◌∷◌, ◌++◌, length, decimal};
ghost use Rattle.std.specs.List.{list_all};
ghost use Rattle.std.specs.Option.{option_copied};
ghost use Rattle.th_units.specs.Lengths.{is_digit, number};
ghost use Rattle.th_units.specs.Limits.{size_limit};
ghost use Rattle.th_units.specs.Metres.{metres, last_digits, are_decimals, decimals, size_value, units_of, value, whole};

use crate::faults::LenFault;
use crate::limits::{MAX_DECIMALS, MAX_WHOLE_DIGITS};
use crate::numbers::{are_digits, number};
use crate::signs::{has_minus, without_sign};
use std::marker::Model;

/// How many units of 10 nm a metre has.
const UNITS_PER_METRE: u64 = 100_000_000;

/// Room in bytes for the text of any length.
const CAPACITY: usize = 24;

/// A length in metres as text: a minus sign below zero, the whole metres, a dot and eight decimals.
#[derive(Drop)]
pub struct MetreText {
    bytes: [u8; CAPACITY],
    start: usize,
}

impl Model for MetreText {
    ghost use Rattle.std.specs.Prelude.{List, ℕ, ◌≤◌, drop};
    ghost use Rattle.th_units.specs.declared.metres.TheConstants.{CAPACITY};

    ghost Value = { List ℕ };

    ghost view = { λ text. drop text.start text.bytes };

    ghost invariant = { λ text. text.start ≤ CAPACITY };
}

impl MetreText {
    fn empty() -> MetreText
        ensures { result ≡ [] }
    {
        MetreText {
            bytes: [0; CAPACITY],
            start: CAPACITY,
        }
    }

    /// The text, at most 24 bytes.
    pub fn as_bytes(&self) -> &[u8]
        ensures bytes { result.now ≡ self.now }
        ensures short { length result.now ≤ 24 }
    {
        &self.bytes[self.start..]
    }
}

impl MetreText {
    /// Puts a byte before the text.
    fn prepend(&mut self, byte: u8)
        requires { length self.old < CAPACITY }
        ensures { self.new ≡ byte ∷ self.old }
    {
        self.start -= 1;
        self.bytes[self.start] = byte;
    }

    /// Puts the last `count` digits of a number before the text.
    fn prepend_last_digits(&mut self, count: u32, number: u64)
        requires { length self.old + count ≤ CAPACITY }
        ensures { self.new ≡ last_digits count number ++ self.old }
    {
        let mut rest = number;
        for _place in 0..count {
            self.prepend(b'0' + (rest % 10) as u8);
            rest /= 10;
        }
    }

    /// Puts the digits of a number, without leading zeros, before the text.
    fn prepend_decimal(&mut self, number: u64)
        requires { length self.old + length (decimal number) ≤ CAPACITY }
        ensures { self.new ≡ decimal number ++ self.old }
    {
        let mut rest = number;
        while rest >= 10 {
            self.prepend(b'0' + (rest % 10) as u8);
            rest /= 10;
        }
        self.prepend(b'0' + rest as u8);
    }
}

/// The text in metres of a length in units of 10 nm.
pub fn metre_text(units: i64) -> MetreText
    ensures { result ≡ metres units }
{
    let size = units.unsigned_abs();
    let mut text = MetreText::empty();
    text.prepend_last_digits(8, size % UNITS_PER_METRE);
    text.prepend(b'.');
    text.prepend_decimal(size / UNITS_PER_METRE);
    if units < 0 {
        text.prepend(b'-');
    }
    text
}

/// Reads a text in metres as a length in units of 10 nm.
///
/// The form is an optional `+` or `-`, one or more digits, and optionally a dot and one to eight
/// digits. `NotDigits` for a text of another form; `TooLarge` for more than nine digits before the
/// dot, leading zeros included.
pub fn parse_metres(text: &[u8]) -> Result<i64, LenFault>
    ensures { result ≡ value text.now }
{
    let size = parse_size(without_sign(text))? as i64;
    Ok(if has_minus(text) { -size } else { size })
}

/// Reads a text in metres without a sign as a size in units of 10 nm.
fn parse_size(text: &[u8]) -> Result<u64, LenFault>
    ensures value { result ≡ size_value text.now }
    ensures bound { IfOk result (λ size. size < size_limit) }
{
    let (whole, decimals) = split_at_dot(text);
    if !are_digits(whole) || !decimals.is_none_or(are_decimals) {
        return Err(LenFault::NotDigits);
    }
    if whole.len() > MAX_WHOLE_DIGITS {
        return Err(LenFault::TooLarge);
    }
    Ok(units_of(whole, decimals.unwrap_or(&[])))
}

/// The bytes before the first dot, and the bytes after it if there is one.
fn split_at_dot(text: &[u8]) -> (&[u8], Option<&[u8]>)
    ensures whole { result.0.now ≡ whole text.now }
    ensures decimals { option_copied result.1 ≡ decimals text.now }
{
    match text.iter().position(|byte| *byte == b'.') {
        Some(dot) => (&text[..dot], Some(&text[dot + 1..])),
        None => (text, None),
    }
}

/// Whether there are one to eight bytes, and each is a digit.
fn are_decimals(bytes: &[u8]) -> bool
    ensures { result ≡ are_decimals bytes.now }
{
    are_digits(bytes) && bytes.len() <= MAX_DECIMALS
}

/// The size in units of 10 nm of whole metres and decimals. No decimals are 0.
fn units_of(whole: &[u8], decimals: &[u8]) -> u64
    requires whole_digits { list_all is_digit whole.now ≡ true }
    requires whole_short { length whole.now ≤ MAX_WHOLE_DIGITS }
    requires decimal_digits { list_all is_digit decimals.now ≡ true }
    requires decimals_short { length decimals.now ≤ MAX_DECIMALS }
    ensures value { result ≡ units_of whole.now decimals.now }
    ensures bound { result < size_limit }
{
    let tens = 10_u64.pow((MAX_DECIMALS - decimals.len()) as u32);
    number(whole) * UNITS_PER_METRE + number(decimals) * tens
}
