//! The rows of a table of differences, or its first fault.
ghost use Rattle.std.specs.Prelude.{◌≡◌, ◌⊎◌, ◌<◌, ◌≤◌, ◌^◌, ◌+◌, All, Ok, Err, IfErr, IfOk, length, vec_len};
ghost use Rattle.th_csv.specs.Records.{records_of};
ghost use Rattle.th_conversions.specs.Limits.{max_differences};
ghost use Rattle.th_conversions.specs.Rows.{IsRow};
ghost use Rattle.th_conversions.specs.Tables.{no_memory, rows_from, rows_of, too_long};

use crate::columns::Columns;
use crate::faults::DifferenceFault;
use crate::limits::MAX_DIFFERENCES;
use crate::rows::{Row, row_in};
use std::alloc::Global;
use th_csv::{Record, RecordReader};

/// The rows of a table, or its first fault.
pub(crate) fn read_rows(alloc: Global, bytes: &[u8]) -> Result<Vec<Row>, DifferenceFault>
    ensures rows { IfOk result (λ rows. rows_of bytes.now ≡ Ok rows.items) }
    ensures allowed { IfOk result (λ rows. All IsRow rows.items) }
    ensures few { IfOk result (λ rows. vec_len rows ≤ max_differences) }
    ensures fault { IfErr result (λ fault. (fault ≡ no_memory) ⊎ (rows_of bytes.now ≡ Err fault)) }
    ensures too_long { max_differences < length bytes.now → result ≡ Err too_long }
{
    if bytes.len() > MAX_DIFFERENCES {
        return Err(DifferenceFault::TOO_LONG);
    }
    let mut reader = RecordReader::open(alloc, bytes);
    let mut record = Record::new(alloc);
    if !reader.next(&mut record)? {
        return Err(DifferenceFault::BAD_HEADER);
    }
    let Some(columns) = Columns::of(&record) else {
        return Err(DifferenceFault::BAD_HEADER);
    };
    rows_under(alloc, columns, &mut reader, &mut record)
}

/// The rows of the records that a reader has left, the first of which is record 2.
fn rows_under(
    alloc: Global,
    columns: Columns,
    reader: &mut RecordReader<'_>,
    record: &mut Record,
) -> Result<Vec<Row>, DifferenceFault>
    requires { length reader.old.records + 2 < 2 ^ 32 }
    ensures rows { IfOk result (λ rows. rows_from columns 2 reader.old.records ≡ Ok rows.items) }
    ensures allowed { IfOk result (λ rows. All IsRow rows.items) }
    ensures few { IfOk result (λ rows. vec_len rows ≤ length reader.old.records) }
    ensures fault { IfErr result (λ fault. (fault ≡ no_memory)
        ⊎ (rows_from columns 2 reader.old.records ≡ Err fault)) }
{
    let mut rows = Vec::new(alloc);
    let mut number = 1;
    'records: while reader.next(record)? {
        number += 1;
        match row_in(columns, record) {
            Ok(row) => rows.push(row)?,
            Err(kind) => return Err(DifferenceFault { row: number, kind }),
        }
    }
    Ok(rows)
}
