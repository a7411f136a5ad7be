//! Fields of a record as names, heights and weights, or the kind of their fault.
ghost use Rattle.std.specs.Prelude.{◌≡◌, ◌≤◌, IfOk, unsigned_abs};
ghost use Rattle.th_units.specs.Limits.{max_len};
ghost use Rattle.th_tables.specs.Fields.{height_in, name_in, weight_in};
ghost use Rattle.th_tables.specs.Rows.{IsWeight};

use crate::faults::TableKind;
use crate::limits::MAX_WEIGHT_DIGITS;
use gsi_word::{Name, name_of};
use th_limits::MAX_WEIGHT;
use th_units::{MAX_LEN, parse_metres, short_number};

/// The name of a field.
pub(crate) fn name_in(field: &[u8]) -> Result<Name, TableKind>
    ensures { result ≡ name_in field.now }
{
    name_of(field).ok_or(TableKind::BadName)
}

/// The height that a field has in metres, at most `MAX_LEN` in size.
pub(crate) fn height_in(field: &[u8]) -> Result<i64, TableKind>
    ensures value { result ≡ height_in field.now }
    ensures range { IfOk result (λ height. unsigned_abs height ≤ max_len) }
{
    match parse_metres(field) {
        Ok(height) if height.unsigned_abs() <= MAX_LEN => Ok(height),
        _ => Err(TableKind::BadHeight),
    }
}

/// The weight that a field has in at most `MAX_WEIGHT_DIGITS` digits, 1 to `MAX_WEIGHT`.
pub(crate) fn weight_in(field: &[u8]) -> Result<u32, TableKind>
    ensures value { result ≡ weight_in field.now }
    ensures range { IfOk result IsWeight }
{
    match short_number(field) {
        Some(weight) if field.len() <= MAX_WEIGHT_DIGITS && 1 <= weight && weight <= MAX_WEIGHT => {
            Ok(weight)
        }
        _ => Err(TableKind::BadWeight),
    }
}
