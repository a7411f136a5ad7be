//! Records read from worked texts, the texts of rows, and a long text that is written and read.
use std::alloc::{AllocError, Global};
use std::process::Abort;
use std::test::Fail;
use th_csv::{Record, RecordReader, RowWriter};

/// A text, and the fields of its records.
type TextRow = (&'static [u8], &'static [&'static [&'static [u8]]]);

const TEXT_ROWS: [TextRow; 9] = [
    (b"", &[]),
    (b"\xef\xbb\xbf", &[]),
    (b"a,b\n", &[&[b"a", b"b"]]),
    (b"a,b\r\nc,d,e", &[&[b"a", b"b"], &[b"c", b"d", b"e"]]),
    (b"\xef\xbb\xbfa,b\rc,d\n", &[&[b"a", b"b"], &[b"c", b"d"]]),
    (b"\n\na,b\n\n", &[&[b"a", b"b"]]),
    (b"\"a,\"\"1\",\"\n\"", &[&[b"a,\"1", b"\n"]]),
    (b" a , b ", &[&[b" a ", b" b "]]),
    (b",\n\"\",,\n", &[&[b"", b""], &[b"", b"", b""]]),
];

/// Compares the fields of a record that has two or three.
fn check_fields(rt: &impl Abort, record: &Record, fields: &[&[u8]]) {
    match fields {
        [first, second] => {
            assert!(rt; record.two() == Some((*first, *second)));
            assert!(rt; record.three().is_none());
        }
        [first, second, third] => {
            assert!(rt; record.two().is_none());
            assert!(rt; record.three() == Some((*first, *second, *third)));
        }
        _ => assert!(rt; record.two().is_none() && record.three().is_none()),
    }
}

#[test]
fn a_text_has_these_records(rt: HostRuntime) -> Result<(), Fail> {
    for (text, records) in &TEXT_ROWS {
        let mut reader = RecordReader::open(rt.alloc(), text);
        let mut record = Record::new(rt.alloc());
        for fields in *records {
            assert!(rt; reader.next(&mut record)?, "a record of {text:?}");
            check_fields(&rt, &record, fields);
        }
        assert!(rt; !reader.next(&mut record)?, "the end of {text:?}");
        assert!(rt; !reader.next(&mut record)?, "the end of {text:?}, again");
    }
    Ok(())
}

/// The fields of a row, and its text.
type FieldsRow = (&'static [&'static [u8]], &'static [u8]);

const FIELDS_ROWS: [FieldsRow; 7] = [
    (&[b"a", b"b"], b"a,b\n"),
    (&[b"a", b"b", b"c"], b"a,b,c\n"),
    (&[b"a"], b"a\n"),
    (&[b""], b"\"\"\n"),
    (&[b"", b""], b",\n"),
    (
        &[b"a,", b"\"1\"", b" ", b"\n"],
        b"\"a,\",\"\"\"1\"\"\", ,\"\n\"\n",
    ),
    (&[b"\xff"], b"\xff\n"),
];

/// The text of one row.
fn row_text(alloc: Global, fields: &[&[u8]]) -> Result<Vec<u8>, AllocError> {
    let mut row = RowWriter::new(alloc);
    row.write(fields)?;
    row.into_text()
}

#[test]
fn rows_have_these_texts(rt: HostRuntime) -> Result<(), Fail> {
    let mut rows = RowWriter::new(rt.alloc());
    let mut whole = Vec::new(rt.alloc());
    for (fields, text) in &FIELDS_ROWS {
        assert!(rt; row_text(rt.alloc(), fields)?.as_slice() == *text);
        rows.write(fields)?;
        whole.extend_from_slice(text)?;
    }
    assert!(rt; rows.into_text()?.as_slice() == whole.as_slice());
    let none = RowWriter::new(rt.alloc());
    assert!(rt; none.into_text()?.is_empty());
    Ok(())
}

/// The text of 64 rows of a field and 1, and of 100,000 short rows.
fn many_rows(alloc: Global, field: &[u8]) -> Result<Vec<u8>, AllocError> {
    let mut rows = RowWriter::new(alloc);
    for _ in 0..64 {
        rows.write(&[field, b"1"])?;
    }
    for _ in 0..100_000 {
        rows.write(&[b"A", b"100.00000000", b"1"])?;
    }
    rows.into_text()
}

#[test]
fn a_long_text_is_written_and_read(rt: HostRuntime) -> Result<(), Fail> {
    let long = [b'x'; 65_536];
    let text = many_rows(rt.alloc(), &long)?;
    let mut reader = RecordReader::open(rt.alloc(), text.as_slice());
    let mut record = Record::new(rt.alloc());
    for _ in 0..64 {
        assert!(rt; reader.next(&mut record)?);
        assert!(rt; record.two() == Some((long.as_slice(), b"1".as_slice())));
    }
    for _ in 0..100_000 {
        assert!(rt; reader.next(&mut record)?);
        assert!(rt; record.three().is_some());
    }
    assert!(rt; !reader.next(&mut record)?);
    Ok(())
}
