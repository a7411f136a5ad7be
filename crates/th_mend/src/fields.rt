//! The fields of a record as a change, or the kind of their fault.
ghost use Rattle.std.specs.Prelude.{◌≡◌};
ghost use Rattle.th_mend.specs.Fields.{change_in, height_named, is_header, length_in, line_in, name_in, other_in, sighted_in, sign_in, what_in};

use crate::change_faults::ChangeKind;
use crate::changes::{Change, Reach, What};
use gsi_word::{Name, name_of};
use th_csv::Record;
use th_entries::HeightKind;
use th_units::{MAX_LEN, parse_metres, short_number};

/// Whether a record is the header.
pub(crate) fn is_header(fields: &Record) -> bool
    ensures { result ≡ is_header fields.now }
{
    match fields.three() {
        Some((line, word, value)) => line == b"line".as_slice()
            && word == b"word".as_slice()
            && value == b"value".as_slice(),
        None => false,
    }
}

/// The change of a record under the header, or the first kind of its fault.
pub(crate) fn change_in(fields: &Record) -> Result<Change, ChangeKind>
    ensures { result ≡ change_in fields.now }
{
    let (line, word, value) = fields.three().ok_or(ChangeKind::FieldCount)?;
    let line = line_in(line)?;
    let what = what_in(word, value)?;
    Ok(Change { line, what })
}

/// The number of a line, from 1.
fn line_in(field: &[u8]) -> Result<u32, ChangeKind>
    ensures { result ≡ line_in field.now }
{
    match short_number(field) {
        Some(line) if line > 0 => Ok(line),
        _ => Err(ChangeKind::BadLine),
    }
}

/// What a word and its value change.
fn what_in(word: &[u8], value: &[u8]) -> Result<What, ChangeKind>
    ensures { result ≡ what_in word.now value.now }
{
    match height_named(word) {
        Some((kind, reach)) => {
            let length = length_in(value)?;
            Ok(What::Height(kind, reach, length))
        }
        None => other_in(word, value),
    }
}

/// The keyed-in height that a word names.
fn height_named(word: &[u8]) -> Option<(HeightKind, Reach)>
    ensures { result ≡ height_named word.now }
{
    if word == b"88".as_slice() {
        return Some((HeightKind::Instrument, Reach::Whole));
    }
    if word == b"87".as_slice() {
        return Some((HeightKind::Reflector, Reach::Whole));
    }
    if word == b"88 since".as_slice() {
        return Some((HeightKind::Instrument, Reach::Since));
    }
    if word == b"87 since".as_slice() {
        return Some((HeightKind::Reflector, Reach::Since));
    }
    None
}

/// What a word other than a height and its value change.
fn other_in(word: &[u8], value: &[u8]) -> Result<What, ChangeKind>
    ensures { result ≡ other_in word.now value.now }
{
    if word == b"33".as_slice() {
        return sighted_in(value);
    }
    if word == b"sign".as_slice() {
        return sign_in(value);
    }
    if word == b"to".as_slice() {
        let name = name_in(value)?;
        return Ok(What::Target(name));
    }
    if word == b"from".as_slice() {
        let name = name_in(value)?;
        return Ok(What::Station(name));
    }
    Err(ChangeKind::BadWord)
}

/// What a value changes in the word 33 of a sight. An empty one leaves the sight out.
fn sighted_in(value: &[u8]) -> Result<What, ChangeKind>
    ensures { result ≡ sighted_in value.now }
{
    if value.is_empty() {
        return Ok(What::LeftOut);
    }
    let length = length_in(value)?;
    Ok(What::Sighted(length))
}

/// The change of a sign, which has no value.
fn sign_in(value: &[u8]) -> Result<What, ChangeKind>
    ensures { result ≡ sign_in value.now }
{
    if value.is_empty() {
        Ok(What::OtherSign)
    } else {
        Err(ChangeKind::GivenValue)
    }
}

/// The length that a field has in metres, at most 10 km in size.
fn length_in(field: &[u8]) -> Result<i64, ChangeKind>
    ensures { result ≡ length_in field.now }
{
    match parse_metres(field) {
        Ok(length) if length.unsigned_abs() <= MAX_LEN => Ok(length),
        _ => Err(ChangeKind::BadLength),
    }
}

/// The name of a field.
fn name_in(field: &[u8]) -> Result<Name, ChangeKind>
    ensures { result ≡ name_in field.now }
{
    name_of(field).ok_or(ChangeKind::BadName)
}
