//! The rows of a table of differences.
ghost use Rattle.std.specs.Prelude.{◌≡◌, ◌≤◌, ◌%◌, IfOk, unsigned_abs};
ghost use Rattle.th_conversions.specs.Limits.{hundredth, max_len};
ghost use Rattle.th_conversions.specs.Rows.{IsRow, difference_in, name_in, row_in};

use crate::columns::Columns;
use crate::faults::DifferenceKind;
use crate::limits::HUNDREDTH;
use gsi_word::{Name, name_of};
use th_csv::Record;
use th_units::{MAX_LEN, parse_metres};

/// A row of a table: the height of one point above another, in units of 10 nm.
#[derive(Clone, Copy, Debug)]
pub(crate) struct Row {
    pub(crate) from: Name,
    pub(crate) to: Name,
    pub(crate) difference: i64,
}

/// The row in a record under the header, or the first kind of fault that the record has.
pub(crate) fn row_in(columns: Columns, fields: &Record) -> Result<Row, DifferenceKind>
    ensures row { result ≡ row_in columns fields.now }
    ensures allowed { IfOk result IsRow }
{
    let (from, to, difference) = columns.fields(fields).ok_or(DifferenceKind::FieldCount)?;
    let from = name_in(from)?;
    let to = name_in(to)?;
    let difference = difference_in(difference)?;
    if from == to {
        return Err(DifferenceKind::ToItself);
    }
    Ok(Row {
        from,
        to,
        difference,
    })
}

/// The name in a field.
fn name_in(field: &[u8]) -> Result<Name, DifferenceKind>
    ensures { result ≡ name_in field.now }
{
    name_of(field).ok_or(DifferenceKind::BadName)
}

/// The difference that a field has in metres: at most 10 km in size, and a whole number of 1/100 mm.
fn difference_in(field: &[u8]) -> Result<i64, DifferenceKind>
    ensures value { result ≡ difference_in field.now }
    ensures range { IfOk result (λ difference. unsigned_abs difference ≤ max_len) }
    ensures whole { IfOk result (λ difference. unsigned_abs difference % hundredth ≡ 0) }
{
    match parse_metres(field) {
        Ok(difference)
            if difference.unsigned_abs() <= MAX_LEN && difference.unsigned_abs() % HUNDREDTH == 0 =>
            { Ok(difference) }
        _ => Err(DifferenceKind::BadDifference),
    }
}
