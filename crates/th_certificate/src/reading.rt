//! A certificate from its bytes, record by record, or its first fault.
ghost use Rattle.std.specs.Prelude.{◌≡◌, ◌⊎◌, ◌<◌, ◌^◌, ◌+◌, Ok, Err, IfErr, IfOk, length};
ghost use Rattle.th_certificate.specs.Faults.{no_memory, too_long};
ghost use Rattle.th_certificate.specs.Inside.Reads.{IsReadOf};
ghost use Rattle.th_certificate.specs.Reading.{certificate_after, certificate_in, certificate_of, ended, in_version_2, is_header};
ghost use Rattle.th_certificate.specs.Limits.{max_certificate};

use crate::certificates::Certificate;
use crate::drafts::Draft;
use crate::faults::{CertFault, CertKind};
use crate::heights::StatedHeights;
use crate::limits::MAX_CERTIFICATE;
use std::alloc::Global;
use th_csv::{Record, RecordReader};

/// Reads a certificate of version 1 or 2, or returns its first fault.
///
/// A record has three fields. The kinds of records come in this order: the version, heights, lowest
/// and highest best heights (in version 2), flows numbered from 1, and the cost, which is the last.
/// It allocates memory in proportion to the bytes. `NoMemory` may occur for a certificate that is
/// not too long.
pub fn read_certificate(alloc: Global, bytes: &[u8]) -> Result<Certificate, CertFault>
    ensures certificate { IfOk result (λ certificate. certificate_of bytes.now ≡ Ok certificate) }
    ensures fault { IfErr result (λ fault. (fault ≡ no_memory) ⊎ (certificate_of bytes.now ≡ Err fault)) }
    ensures too_long { max_certificate < length bytes.now → result ≡ Err too_long }
{
    if bytes.len() > MAX_CERTIFICATE {
        return Err(CertFault::TOO_LONG);
    }
    read_records(
        alloc,
        bytes,
        &mut RecordReader::open(alloc, bytes),
        &mut Record::new(alloc),
    )
}

/// Reads the certificate in `content` from its records, the first of which is the header.
fn read_records(
    alloc: Global,
    content: &[u8],
    reader: &mut RecordReader,
    record: &mut Record,
) -> Result<Certificate, CertFault>
    requires few { length reader.old.records + 2 < 2 ^ 32 }
    ensures { IsReadOf (certificate_in reader.old.records) result }
{
    if !reader.next(record)? || !is_header(record) {
        return Err(CertFault::BAD_HEADER);
    }
    if !reader.next(record)? {
        return Err(CertFault {
            row: 2,
            kind: CertKind::Truncated,
        });
    }
    match Draft::begin(alloc, record) {
        Ok(draft) => read_rows(alloc, content, reader, record, draft),
        Err(kind) => Err(CertFault { row: 2, kind }),
    }
}

/// Whether a record is the header of a certificate.
fn is_header(fields: &Record) -> bool
    ensures { result ≡ is_header fields.now }
{
    match fields.three() {
        Some((kind, key, number)) => kind == b"kind".as_slice()
            && key == b"key".as_slice()
            && number == b"value".as_slice(),
        None => false,
    }
}

/// Completes a draft with the records of `content` that a reader has left. The first of them is
/// record 3.
fn read_rows(
    alloc: Global,
    content: &[u8],
    reader: &mut RecordReader,
    record: &mut Record,
    mut draft: Draft,
) -> Result<Certificate, CertFault>
    requires few { length reader.old.records + 4 < 2 ^ 32 }
    ensures { IsReadOf (certificate_after reader.old.records 3 draft) result }
{
    let row = add_rows(alloc, content, reader, record, &mut draft)?;
    certificate_of_draft(row, draft)
}

/// Adds to a draft the records of `content` that a reader has left. The first of them is record 3.
/// Returns the number that a record after the last one would have.
fn add_rows(
    alloc: Global,
    content: &[u8],
    reader: &mut RecordReader,
    record: &mut Record,
    draft: &mut Draft,
) -> Result<u32, CertFault>
    requires few { length reader.old.records + 4 < 2 ^ 32 }
    ensures ended { IfOk result (λ row.
        certificate_after reader.old.records 3 draft.old ≡ ended row draft.new draft.new.cost) }
    ensures fault { IfErr result (λ fault.
        (fault ≡ no_memory) ⊎ (certificate_after reader.old.records 3 draft.old ≡ Err fault)) }
{
    let mut row = 3;
    'records: while reader.next(record)? {
        let statement = match draft.statement_of(record) {
            Ok(statement) => statement,
            Err(kind) => return Err(CertFault { row, kind }),
        };
        draft.add(alloc, content, statement)?;
        row += 1;
    }
    Ok(row)
}

/// The certificate of a draft at the end of the records. Without a cost it is truncated at this row.
#[tactic(auto, using(crate::proofs::VersionLemmas::of_version))]
fn certificate_of_draft(row: u32, draft: Draft) -> Result<Certificate, CertFault>
    ensures { result ≡ ended row draft draft.cost }
{
    let Draft {
        version,
        count: _,
        heights,
        low,
        high,
        flows,
        cost,
    } = draft;
    match cost {
        None => Err(CertFault {
            row,
            kind: CertKind::Truncated,
        }),
        Some(cost) => Ok(Certificate {
            version,
            heights,
            low: in_version_2(version, low),
            high: in_version_2(version, high),
            flows,
            cost,
        }),
    }
}

/// The lowest or the highest best heights; `None` in version 1.
fn in_version_2(version: u32, rows: StatedHeights) -> Option<StatedHeights>
    ensures { result ≡ in_version_2 version rows }
{
    if version == 2 { Some(rows) } else { None }
}
