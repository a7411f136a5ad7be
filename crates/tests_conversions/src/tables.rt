//! Tables of differences, the books of them, and the lists of these books.
use std::alloc::Global;
use std::process::Abort;
use th_book::read_book;
use th_conversions::DifferenceKind::{
    BadDifference, BadHeader, BadName, FieldCount, TableTooLong, ToItself,
};
use th_conversions::{DifferenceFault, DifferenceKind, MAX_DIFFERENCES, book_of_table};
use th_report::list_text;

/// A table, its book, and the list of the book.
type Row = (&'static [u8], &'static [u8], &'static [u8]);

const TABLES: [Row; 4] = [
    (
        b"from,to,difference\nA,B,1.5\nA,C,-0.00001\nB,A,-1.5\n",
        b"*110001+000000000000000A 84..40+0000000000000000 87..48+0000000000000000 88..48+0000000000000000 \r
*110002+000000000000000B 33..48+0000000000150000 \r
*110003+000000000000000C 33..48-0000000000000001 \r
*110004+000000000000000B 84..40+0000000000000000 87..48+0000000000000000 88..48+0000000000000000 \r
*110005+000000000000000A 33..48-0000000000150000 \r
",
        b"number,from,to,difference\n1,A,B,1.50000000\n2,A,C,-0.00001000\n3,B,A,-1.50000000\n",
    ),
    (
        b"number,from,to,difference\nx,007,A B,+10000\n,7,\"0,5\",-0\n",
        b"*110001+0000000000000007 84..40+0000000000000000 87..48+0000000000000000 88..48+0000000000000000 \r
*110002+0000000000000A B 33..48+0000001000000000 \r
*110003+00000000000000,5 33..48+0000000000000000 \r
",
        b"number,from,to,difference\n1,7,A B,10000.00000000\n2,7,\",5\",0.00000000\n",
    ),
    (
        b"from,to,difference\nA,B,1\nA,B,1\n",
        b"*110001+000000000000000A 84..40+0000000000000000 87..48+0000000000000000 88..48+0000000000000000 \r
*110002+000000000000000B 33..48+0000000000100000 \r
*110003+000000000000000B 33..48+0000000000100000 \r
",
        b"number,from,to,difference\n1,A,B,1.00000000\n2,A,B,1.00000000\n",
    ),
    (b"from,to,difference", b"", b"number,from,to,difference\n"),
];

/// A table that is refused, the record and the kind of its fault.
const REFUSED: [(&[u8], u32, DifferenceKind); 17] = [
    (b"", 1, BadHeader),
    (b"from,to\n", 1, BadHeader),
    (b"from,to,Difference\n", 1, BadHeader),
    (b"no,from,to,difference\n", 1, BadHeader),
    (b"A,B,1\n", 1, BadHeader),
    (b"from,to,difference\nA,B\n", 2, FieldCount),
    (b"from,to,difference\n1,A,B,2\n", 2, FieldCount),
    (b"number,from,to,difference\nA,B,2\n", 2, FieldCount),
    (b"from,to,difference\nA,B,1\n ,B,1\n", 3, BadName),
    (b"from,to,difference\nA,12345678901234567,1\n", 2, BadName),
    (b"from,to,difference\n,A,x\n", 2, BadName),
    (b"from,to,difference\nA,B,1.000005\n", 2, BadDifference),
    (b"from,to,difference\nA,B,10000.00001\n", 2, BadDifference),
    (b"from,to,difference\nA,B,1 m\n", 2, BadDifference),
    (b"from,to,difference\nA,A,x\n", 2, BadDifference),
    (b"from,to,difference\nA,A,1\n", 2, ToItself),
    (b"from,to,difference\n7,007,1\nA,B\n", 2, ToItself),
];

/// The list of a book that has no fault.
fn list_of(rt: &impl Abort, alloc: Global, book: &[u8]) -> Vec<u8> {
    let observations = read_book(alloc, 1, book).expect(rt, "a book that is read");
    list_text(alloc, &observations).expect(rt, "memory")
}

#[test]
fn books(rt: HostRuntime) {
    for (table, book, list) in &TABLES {
        let printed = book_of_table(rt.alloc(), table).expect(&rt, "a table that is read");
        assert_eq!(rt; printed.as_slice(), *book);
        assert_eq!(rt; list_of(&rt, rt.alloc(), &printed).as_slice(), *list);
    }
}

/// The book of a list is the book again.
#[test]
fn lists(rt: HostRuntime) {
    for (_, book, list) in &TABLES {
        let printed = book_of_table(rt.alloc(), list).expect(&rt, "a list that is read");
        assert_eq!(rt; printed.as_slice(), *book);
    }
}

#[test]
fn refused(rt: HostRuntime) {
    for (table, row, kind) in &REFUSED {
        let fault = DifferenceFault {
            row: *row,
            kind: *kind,
        };
        let refused = book_of_table(rt.alloc(), table).expect_err(&rt, "a table with a fault");
        assert_eq!(rt; refused, fault);
    }
}

/// A table of 4 MiB is read, and with one byte more it is not, whatever it holds.
#[test]
fn largest(rt: HostRuntime) {
    let head = b"from,to,difference\nA,B,1\n";
    let mut table = vec![in rt.alloc(); b'\n'; MAX_DIFFERENCES].expect(&rt, "memory");
    for (place, byte) in head.iter().enumerate() {
        assert!(rt; place < table.len());
        table[place] = *byte;
    }
    assert!(rt; book_of_table(rt.alloc(), &table).is_ok());
    table.push(b'\n').expect(&rt, "memory");
    let refused = book_of_table(rt.alloc(), &table).expect_err(&rt, "a table that is too long");
    assert_eq!(rt;
        refused,
        DifferenceFault {
            row: 0,
            kind: TableTooLong
        }
    );
}
