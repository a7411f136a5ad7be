//! What all tables have in common: how a header and the rows under it are read.
ghost use Rattle.std.specs.Prelude.{◌≡◌, ◌⊎◌, ◌<◌, ◌^◌, ◌+◌, [], All, Ok, Err, IfErr, IfOk, length};
ghost use Rattle.indexmap.specs.IndexMap.{IsUnique};
ghost use Rattle.th_csv.specs.Records.{records_of};
ghost use Rattle.th_tables.specs.Limits.{max_table};
ghost use Rattle.th_tables.specs.Tables.{if_short, no_memory, rows_after, rows_under, too_long};

use crate::faults::{TableFault, TableKind};
use crate::limits::MAX_TABLE;
use std::alloc::Global;
use std::hash::Hash;
use th_csv::{Record, RecordReader};
use th_hash::{HashSeed, NameMap, insert_stated};

/// How many bytes a row has as a rule.
const ROW: usize = 16;

/// A table: its header, and rows under it, each with a key that no other row has.
pub(crate) trait Table {
    ghost use Rattle.std.specs.Prelude.{◌≡◌, Bool, IfOk, Result};
    ghost use Rattle.th_csv.specs.Records.{Fields};
    ghost use Rattle.th_tables.specs.declared.faults.TableKind.{TableKind};

    type Key: Eq + Hash + Drop;

    type Value: Drop;

    // Whether a record is the header, the row of a record under it, and the values of rows.
    ghost is_header: { Fields → Bool };

    ghost row_in: { Fields → Result (Self.Key × Self.Value) TableKind };

    ghost IsAllowed: { Self.Value → Type 0 };

    /// The most keys that are hashed without a seed.
    const FEW: usize;

    /// Whether a record is the header.
    fn is_header(fields: &Record) -> bool
        ensures { result ≡ is_header fields.now };

    /// The row of a record under the header, or the first kind of its fault.
    fn row_in(fields: &Record) -> Result<(Self::Key, Self::Value), TableKind>
        ensures row { result ≡ row_in fields.now }
        ensures allowed { IfOk result (λ row. IsAllowed row.1) };
}

/// The rows of a table with these bytes, or its first fault.
pub(crate) fn read_table<T: Table>(
    alloc: Global,
    bytes: &[u8],
) -> Result<NameMap<T::Key, T::Value>, TableFault>
    ensures rows { IfOk result (λ rows.
        if_short bytes.now (rows_under T.Key.eq T.row_in T.is_header (records_of bytes.now)) ≡ Ok rows.entries) }
    ensures unique { IfOk result (IsUnique T.Key.eq) }
    ensures allowed { IfOk result (λ rows. All (λ row. T.IsAllowed row.1) rows.entries) }
    ensures fault { IfErr result (λ fault. (fault ≡ no_memory)
        ⊎ (if_short bytes.now (rows_under T.Key.eq T.row_in T.is_header (records_of bytes.now)) ≡ Err fault)) }
    ensures too_long { max_table < length bytes.now → result ≡ Err too_long }
{
    if bytes.len() > MAX_TABLE {
        return Err(TableFault::TOO_LONG);
    }
    let mut reader = RecordReader::open(alloc, bytes);
    let mut record = Record::new(alloc);
    if !reader.next(&mut record)? || !T::is_header(&record) {
        return Err(TableFault::BAD_HEADER);
    }
    read_rows::<T>(alloc, bytes, &mut reader, &mut record)
}

/// The rows of the records that a reader has left of a table with these bytes, the first of which is
/// record 2.
fn read_rows<T: Table>(
    alloc: Global,
    bytes: &[u8],
    reader: &mut RecordReader<'_>,
    record: &mut Record,
) -> Result<NameMap<T::Key, T::Value>, TableFault>
    requires { length reader.old.records + 2 < 2 ^ 32 }
    ensures rows { IfOk result (λ rows. rows_after T.Key.eq T.row_in [] reader.old.records ≡ Ok rows.entries) }
    ensures unique { IfOk result (IsUnique T.Key.eq) }
    ensures allowed { IfOk result (λ rows. All (λ row. T.IsAllowed row.1) rows.entries) }
    ensures fault { IfErr result (λ fault. (fault ≡ no_memory)
        ⊎ (rows_after T.Key.eq T.row_in [] reader.old.records ≡ Err fault)) }
{
    let room = bytes.len() / ROW;
    let mut rows = NameMap::with_capacity_and_hasher(alloc, room, HashSeed::none())?;
    let mut number = 1;
    'records: while reader.next(record)? {
        number += 1;
        let (key, value) = match T::row_in(record) {
            Ok(row) => row,
            Err(kind) => return Err(TableFault { row: number, kind }),
        };
        if insert_stated(alloc, bytes, T::FEW, &mut rows, key, value)?.is_some() {
            return Err(TableFault {
                row: number,
                kind: TableKind::Repeated,
            });
        }
    }
    Ok(rows)
}
