//! The changes of a table, or its first fault.
ghost use Rattle.std.specs.Prelude.{◌≡◌, ◌⊎◌, ◌<◌, ◌≤◌, ◌^◌, ◌+◌, Ok, Err, IfErr, IfOk, OnOk, length, vec_len};
ghost use Rattle.th_mend.specs.Limits.{max_changes};
ghost use Rattle.th_mend.specs.Inside.Appended.{IsAppended, IsFaulty};
ghost use Rattle.th_mend.specs.Tables.{changes_from, changes_of, no_memory, too_long};

use crate::change_faults::ChangeFault;
use crate::changes::Change;
use crate::fields::{change_in, is_header};
use crate::limits::MAX_CHANGES;
use std::alloc::Global;
use th_csv::{Record, RecordReader};

/// Reads a table of changes with the header `line,word,value`, or returns its first fault. The change
/// at place `k` is that of record `k + 2`.
///
/// `NoMemory` may occur for any table that is not too long.
pub fn read_changes(alloc: Global, bytes: &[u8]) -> Result<Vec<Change>, ChangeFault>
    ensures table { IfOk result (λ changes. changes_of bytes.now ≡ Ok changes.items) }
    ensures few { IfOk result (λ changes. vec_len changes ≤ max_changes) }
    ensures fault { IfErr result (λ fault. (fault ≡ no_memory) ⊎ (changes_of bytes.now ≡ Err fault)) }
    ensures too_long { max_changes < length bytes.now → result ≡ Err too_long }
{
    if bytes.len() > MAX_CHANGES {
        return Err(ChangeFault::TOO_LONG);
    }
    let mut reader = RecordReader::open(alloc, bytes);
    let mut record = Record::new(alloc);
    if !reader.next(&mut record)? || !is_header(&record) {
        return Err(ChangeFault::BAD_HEADER);
    }
    changes_under(alloc, &mut reader, &mut record)
}

/// The changes of the records that a reader has left, the first of which is record 2.
fn changes_under(
    alloc: Global,
    reader: &mut RecordReader<'_>,
    record: &mut Record,
) -> Result<Vec<Change>, ChangeFault>
    requires { length reader.old.records + 2 < 2 ^ 32 }
    ensures changes { IfOk result (λ changes. changes_from 2 reader.old.records ≡ Ok changes.items) }
    ensures few { IfOk result (λ changes. vec_len changes ≤ length reader.old.records) }
    ensures fault { IfErr result (λ fault. (fault ≡ no_memory)
        ⊎ (changes_from 2 reader.old.records ≡ Err fault)) }
{
    let mut changes = Vec::new(alloc);
    let mut number = 1;
    'records: while reader.next(record)? {
        number += 1;
        append_change(number, record, &mut changes)?;
    }
    Ok(changes)
}

/// Appends the change of a record with this number.
fn append_change(number: u32, fields: &Record, changes: &mut Vec<Change>) -> Result<(), ChangeFault>
    ensures change { OnOk result (IsAppended fields.now changes.old.items changes.new.items) }
    ensures len { OnOk result (vec_len changes.new ≡ vec_len changes.old + 1) }
    ensures fault { IfErr result (λ fault. (fault ≡ no_memory) ⊎ IsFaulty number fields.now fault) }
{
    match change_in(fields) {
        // Taken apart, since the prover has to see the type of each part.
        Ok(Change { line, what }) => changes.push(Change { line, what })?,
        Err(kind) => return Err(ChangeFault { row: number, kind }),
    }
    Ok(())
}
