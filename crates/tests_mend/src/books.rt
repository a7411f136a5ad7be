//! Mended books and refusals, row by row.
use std::process::Abort;
use th_book::BookFault;
use th_book::BookKind::SightToItself;
use th_mend::ChangeKind::{BadLength, BadLine, BadName, BadWord, FieldCount, GivenValue};
use th_mend::MendFault::{Book, Mended, Row};
use th_mend::MendKind::{
    BeginsSetup, Clash, LongName, NoHeight, NoLine, NoSetup, NoSight, NotWhole, TooManyDigits,
};
use th_mend::{ChangeFault, MendFault, RowFault, mended, read_changes};

/// A table of changes, a book, and the mended book.
const MENDED: [(&[u8], &[u8], &[u8]); 6] = [
    (
        b"line,word,value\n1,88,1.5\n2,33,-0.2\n2,to,C1\n2,87 since,1.30001\n",
        b"110001+0000000A 84..10+00000000 87..10+00000000 88..10+00001545 \r\n110002+0000000B 33..10-00000100 \r\n",
        b"110001+0000000A 84..10+00000000 87..10+00000000 88..10+00001500 \r\n110002+000000C1 33..10-00000200 87..48+00130001 \r\n",
    ),
    (
        b"line,word,value\n",
        b"110001+0000000A 84..10+00000000 87..10+00000000 88..10+00001545 \r\n110002+0000000B 33..10-00000100 \r\n",
        b"110001+0000000A 84..10+00000000 87..10+00000000 88..10+00001545 \r\n110002+0000000B 33..10-00000100 \r\n",
    ),
    (
        b"line,word,value\n1,88,1.6\n5,88,1.7\n3,sign,\n5,from,X\n",
        b"110001+0000000A 84..10+00000000 87..10+00000000 88..10+00001545 \r\n110002+0000000B 33..10-00000100 87..10+00000000 88..10+00001545\n110003+0000000C 33..10+00000200 87..10+00001500 88..10+00001545 \r\n\r\n110004+0000000D 84..10+00000000 87..16+00000000 88..16+00015450\r110005+0000000A 33..10+00000100\n",
        b"110001+0000000A 84..10+00000000 87..10+00000000 88..10+00001600 \r\n110002+0000000B 33..10-00000100 87..10+00000000 88..10+00001600\n110003+0000000C 33..10-00000200 87..10+00001500 88..10+00001600 \r\n\r\n110004+0000000X 84..10+00000000 87..16+00000000 88..16+00017000\r110005+0000000A 33..10+00000100\n",
    ),
    (
        b"line,word,value\n3,88 since,1.6\n2,33,\n",
        b"110001+0000000A 84..10+00000000 87..10+00000000 88..10+00001545 \r\n110002+0000000B 33..10-00000100 87..10+00000000 88..10+00001545\n110003+0000000C 33..10+00000200 87..10+00001500 88..10+00001545 \r\n\r\n110004+0000000D 84..10+00000000 87..16+00000000 88..16+00015450\r110005+0000000A 33..10+00000100\n",
        b"110001+0000000A 84..10+00000000 87..10+00000000 88..10+00001545 \r\n110002+0000000B 87..10+00000000 88..10+00001545\n110003+0000000C 33..10+00000200 87..10+00001500 88..10+00001600 \r\n\r\n110004+0000000D 84..10+00000000 87..16+00000000 88..16+00015450\r110005+0000000A 33..10+00000100\n",
    ),
    (
        b"line,word,value\n1,88,1.54501\n2,to,SIXTEEN-BYTES-16\n",
        b"*110001+000000000000000A 84..10+0000000000000000 87..18+0000000000000000 88..18+0000000000154500\n*110002+000000000000000B 33..18-0000000000010000 ",
        b"*110001+000000000000000A 84..10+0000000000000000 87..18+0000000000000000 88..18+0000000000154501\n*110002+SIXTEEN-BYTES-16 33..18-0000000000010000 ",
    ),
    (
        b"line,word,value\n2,33,0.00003048\n",
        b"110001+0000000A 84..10+00000000 87..10+00000000 88..10+00001545 \r\n110002+0000000B 33..17-00000100 \r\n",
        b"110001+0000000A 84..10+00000000 87..10+00000000 88..10+00001545 \r\n110002+0000000B 33..17+00000001 \r\n",
    ),
];

/// A table of changes and a book that it does not fit, and the fault.
const REFUSED: [(&[u8], &[u8], MendFault); 13] = [
    (
        b"line,word,value\n9,33,1\n",
        b"110001+0000000A 84..10+00000000 87..10+00000000 88..10+00001545 \r\n110002+0000000B 33..10-00000100 \r\n",
        Row(RowFault {
            row: 2,
            kind: NoLine,
        }),
    ),
    (
        b"line,word,value\n1,33,1\n",
        b"110001+0000000A 84..10+00000000 87..10+00000000 88..10+00001545 \r\n110002+0000000B 33..10-00000100 \r\n",
        Row(RowFault {
            row: 2,
            kind: NoSight,
        }),
    ),
    (
        b"line,word,value\n2,from,X\n",
        b"110001+0000000A 84..10+00000000 87..10+00000000 88..10+00001545 \r\n110002+0000000B 33..10-00000100 \r\n",
        Row(RowFault {
            row: 2,
            kind: NoSetup,
        }),
    ),
    (
        b"line,word,value\n2,88,1.5\n4,88,2\n",
        b"110001+0000000A 84..10+00000000 87..10+00000000 88..10+00001545 \r\n110002+0000000B 33..10-00000100 87..10+00000000 88..10+00001545\n110003+0000000C 33..10+00000200 87..10+00001500 88..10+00001545 \r\n\r\n110004+0000000D 84..10+00000000 87..16+00000000 88..16+00015450\r110005+0000000A 33..10+00000100\n",
        Row(RowFault {
            row: 3,
            kind: NoHeight,
        }),
    ),
    (
        b"line,word,value\n2,33,\n",
        b"110001+0000000A 84..10+00000000 87..10+00000000 88..10+00001545 \r\n110002+0000000B 33..10-00000100 84..10+00000000 \r\n",
        Row(RowFault {
            row: 2,
            kind: BeginsSetup,
        }),
    ),
    (
        b"line,word,value\n1,88,1.5\n2,88,1.6\n",
        b"110001+0000000A 84..10+00000000 87..10+00000000 88..10+00001545 \r\n110002+0000000B 33..10-00000100 \r\n",
        Row(RowFault {
            row: 3,
            kind: Clash,
        }),
    ),
    (
        b"line,word,value\n2,33,0.00001\n",
        b"110001+0000000A 84..10+00000000 87..10+00000000 88..10+00001545 \r\n110002+0000000B 33..10-00000100 \r\n",
        Row(RowFault {
            row: 2,
            kind: NotWhole,
        }),
    ),
    (
        b"line,word,value\n2,33,0.00000001\n",
        b"110001+0000000A 84..10+00000000 87..10+00000000 88..10+00001545 \r\n110002+0000000B 33..10-00000100 \r\n",
        Row(RowFault {
            row: 2,
            kind: NotWhole,
        }),
    ),
    (
        b"line,word,value\n2,33,1000\n",
        b"110001+0000000A 84..10+00000000 87..10+00000000 88..10+00001545 \r\n110002+0000000B 33..18-00000100 \r\n",
        Row(RowFault {
            row: 2,
            kind: TooManyDigits,
        }),
    ),
    (
        b"line,word,value\n2,to,NINECHARS\n",
        b"110001+0000000A 84..10+00000000 87..10+00000000 88..10+00001545 \r\n110002+0000000B 33..10-00000100 \r\n",
        Row(RowFault {
            row: 2,
            kind: LongName,
        }),
    ),
    (
        b"line,word,value\n2,to,A\n",
        b"110001+0000000A 84..10+00000000 87..10+00000000 88..10+00001545 \r\n110002+0000000B 33..10-00000100 \r\n",
        Mended(BookFault {
            line: 2,
            kind: SightToItself,
        }),
    ),
    (
        b"line,word,value\n2,33,1\n",
        b"110001+0000000A 84..10+00000000 87..10+00000000 88..10+00001545 \r\n110002+0000000A 33..10-00000100 \r\n",
        Book(BookFault {
            line: 2,
            kind: SightToItself,
        }),
    ),
    (
        b"line,word,value\n2,88 since,1.54500001\n",
        b"110001+0000000A 84..10+00000000 87..10+00000000 88..10+00001545 \r\n110002+0000000B 33..10-00000100 \r\n",
        Row(RowFault {
            row: 2,
            kind: NotWhole,
        }),
    ),
];

/// A table of changes with a fault.
const TABLES: [(&[u8], ChangeFault); 6] = [
    (
        b"line,word,value\n0,88,1\n",
        ChangeFault {
            row: 2,
            kind: BadLine,
        },
    ),
    (
        b"line,word,value\n1,89,1\n",
        ChangeFault {
            row: 2,
            kind: BadWord,
        },
    ),
    (
        b"line,word,value\n1,88,x\n",
        ChangeFault {
            row: 2,
            kind: BadLength,
        },
    ),
    (
        b"line,word,value\n1,sign,1\n",
        ChangeFault {
            row: 2,
            kind: GivenValue,
        },
    ),
    (
        b"line,word,value\n1,to,\n",
        ChangeFault {
            row: 2,
            kind: BadName,
        },
    ),
    (
        b"line,word,value\n1,88\n",
        ChangeFault {
            row: 2,
            kind: FieldCount,
        },
    ),
];

#[test]
fn a_book_is_mended(rt: HostRuntime) {
    for (table, book, wanted) in MENDED {
        is_mended(&rt, table, book, wanted);
    }
}

/// The book becomes this book by the table.
fn is_mended(rt: &(impl AllocGlobal + Abort), table: &[u8], book: &[u8], wanted: &[u8]) {
    let changes = read_changes(rt.alloc(), table).ok().expect(rt, "changes");
    let text = mended(rt.alloc(), changes.as_slice(), book)
        .ok()
        .expect(rt, "a book");
    let shown = String::from_utf8_lossy(rt.alloc(), text.as_slice()).expect(rt, "memory");
    assert!(rt; text.as_slice() == wanted, "{shown}");
}

#[test]
fn a_table_that_does_not_fit_is_refused(rt: HostRuntime) {
    for (table, book, fault) in REFUSED {
        is_refused(&rt, table, book, fault);
    }
}

/// The book is not mended by the table, for this fault.
fn is_refused(rt: &(impl AllocGlobal + Abort), table: &[u8], book: &[u8], fault: MendFault) {
    let changes = read_changes(rt.alloc(), table).ok().expect(rt, "changes");
    let found = mended(rt.alloc(), changes.as_slice(), book)
        .err()
        .expect(rt, "a fault");
    assert!(rt; found == fault, "{found}");
}

#[test]
fn a_table_with_a_fault_is_refused(rt: HostRuntime) {
    for (table, fault) in TABLES {
        let found = read_changes(rt.alloc(), table).err().expect(&rt, "a fault");
        assert!(&rt; found == fault, "{found}");
    }
}
