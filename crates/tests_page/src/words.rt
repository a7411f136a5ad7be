//! Words of a line of rows.
use anyhow::{Context, Result};
use gsi_word::{Name, name_of};
use std::alloc::Global;
use th_units::{Len, Unit, to_len, unit_of};

/// The bytes of a word with two hexadecimal digits for each.
pub fn bytes_of(alloc: Global, word: &str) -> Result<Vec<u8>> {
    let mut bytes = Vec::new(alloc);
    let mut high = None;
    for digit in word.bytes() {
        let value = digit_of(digit).context("no hexadecimal digit")?;
        match high.take() {
            None => high = Some(value),
            Some(first) => {
                let both = 16 * u16::from(first) + u16::from(value);
                bytes.push(u8::try_from(both).ok().context("no byte")?)?
            }
        }
    }
    Ok(bytes)
}

/// The value of a hexadecimal digit.
fn digit_of(digit: u8) -> Option<u8> {
    match digit {
        b'0'..=b'9' => Some(digit - b'0'),
        b'a'..=b'f' => Some(digit - b'a' + 10),
        _ => None,
    }
}

/// A number.
pub fn number(word: &str) -> Result<u32> {
    word.parse::<u32>().context("no number")
}

/// A number that may be missing.
pub fn optional(word: &str) -> Result<Option<u32>> {
    if word == "-" {
        Ok(None)
    } else {
        Ok(Some(number(word)?))
    }
}

/// A place.
pub fn place(word: &str) -> Result<u64> {
    word.parse::<u64>().context("no place")
}

/// A length in units of 10 nm.
pub fn length(word: &str) -> Result<i64> {
    word.parse::<i64>().context("no length")
}

/// A cost.
pub fn cost(word: &str) -> Result<u128> {
    word.parse::<u128>().context("no cost")
}

/// A name, in hexadecimal digits.
pub fn name(alloc: Global, word: &str) -> Result<Name> {
    name_of(&bytes_of(alloc, word)?).context("no name")
}

/// A name that may be missing.
pub fn optional_name(alloc: Global, word: &str) -> Result<Option<Name>> {
    if word == "-" {
        Ok(None)
    } else {
        Ok(Some(name(alloc, word)?))
    }
}

/// The unit of a code.
pub fn unit(word: &str) -> Result<Unit> {
    let code = word.bytes().next().context("no unit")?;
    unit_of(code).context("no unit")
}

/// A length of a book: a sign, its digits, and their unit.
pub fn keyed_in(sign: &str, digits: &str, unit: Unit) -> Result<Len> {
    to_len(sign == "-", digits.as_bytes(), unit)
        .ok()
        .context("no length")
}
