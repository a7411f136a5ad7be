//! Fields of a certificate that are read as numbers: heights, a count, flows and a cost.
ghost use Rattle.std.specs.Prelude.{◌≡◌, ◌<◌, ◌≤◌, ◌^◌, true, length, min};
ghost use Rattle.std.specs.List.{list_all};
ghost use Rattle.th_units.specs.Lengths.{is_digit, number};
ghost use Rattle.th_certificate.specs.Certified.{cost_limit};
ghost use Rattle.th_certificate.specs.Numbers.{cost_in, count_in, flow_in, height_in, writes};

use crate::faults::CertKind;
use crate::limits::{MAX_COST_DIGITS, MAX_DIGITS, MAX_FLOWS};
use th_units::{LenFault, are_digits, has_minus, parse_metres, short_number, without_sign};

/// Reads a field in metres as a height in units of 10 nm.
pub(crate) fn height_in(field: &[u8]) -> Result<i64, CertKind>
    ensures { result ≡ height_in field.now }
{
    match parse_metres(field) {
        Ok(height) => Ok(height),
        Err(LenFault::NotDigits) => Err(CertKind::BadNumber),
        Err(LenFault::TooLarge) => Err(CertKind::TooLarge),
    }
}

/// Reads a field as a count of observations.
pub(crate) fn count_in(field: &[u8]) -> Result<u32, CertKind>
    ensures { result ≡ count_in field.now }
{
    if !are_digits(field) {
        return Err(CertKind::BadNumber);
    }
    match short_number(field) {
        Some(count) if count <= MAX_FLOWS => Ok(count),
        _ => Err(CertKind::TooLarge),
    }
}

/// Reads a field as the flow at a place, counted from 1. The key beside it must write the place.
pub(crate) fn flow_in(place: u32, key: &[u8], field: &[u8]) -> Result<i64, CertKind>
    ensures { result ≡ flow_in place key.now field.now }
{
    let digits = without_sign(field);
    if !writes(key, place) || !are_digits(digits) {
        return Err(CertKind::BadNumber);
    }
    match short_number(digits) {
        Some(size) if key.len() <= MAX_DIGITS => {
            let flow = i64::from(size);
            Ok(if has_minus(field) { -flow } else { flow })
        }
        _ => Err(CertKind::TooLarge),
    }
}

/// Reads a field as a cost.
pub(crate) fn cost_in(field: &[u8]) -> Result<u128, CertKind>
    ensures { result ≡ cost_in field.now }
{
    if !are_digits(field) {
        return Err(CertKind::BadNumber);
    }
    if field.len() > MAX_COST_DIGITS {
        return Err(CertKind::TooLarge);
    }
    Ok(capped_number(field))
}

/// Whether a field writes this number, with any number of leading zeros.
fn writes(field: &[u8], number: u32) -> bool
    ensures { result ≡ writes field.now number }
{
    match short_number(field) {
        Some(small) => small == number,
        None => are_digits(field) && capped_number(field) == u128::from(number),
    }
}

/// The number that digits write, but at most the least number that has more digits than a cost may
/// have.
fn capped_number(digits: &[u8]) -> u128
    requires { list_all is_digit digits.now ≡ true }
    ensures { result ≡ min (number digits.now) cost_limit }
{
    let limit = 10u128.pow(MAX_COST_DIGITS as u32);
    let mut number = 0;
    for digit in digits {
        let more = 10 * number + u128::from(*digit - b'0');
        number = more.min(limit);
    }
    number
}
