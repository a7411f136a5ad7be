//! Books listed from memory to memory: their lists, the lines of their faults, and the state after a
//! device fails.
use crate::helpers::{HELD_BEFORE, add, sink};
use std::process::Abort;
use th_book::MAX_BOOK;
use th_devices::{TextSink, TextSource};
use th_runs::{Input, Output, Refusal, run_list};

/// A setup on A.
const SETUP: &[u8] =
    b"110001+0000000A 84..10+00000000 85..10+00000000 86..10+00100000 88..10+00001500 ";

/// A sight to B.
const SIGHT: &[u8] = b"110002+0000000B 33..00+00002345 87..10+00001300 ";

/// The list of a book with this setup and this sight.
const LIST: &[u8] = b"number,from,to,difference\n1,A,B,2.54500000\n";

/// The list of a book without a sight.
const HEADER: &[u8] = b"number,from,to,difference\n";

/// The most bytes that a device gives or takes a call where the number of its calls matters.
const PIECE: usize = 20;

/// The call of a device that fails, counted from 1.
#[derive(Clone, Copy)]
enum Failing {
    Nothing,
    Read(u8),
    Write(u8),
}

/// Lists a book that comes in pieces, with a call that may fail. Returns the answer and the sink.
fn list<R: AllocGlobal + Abort>(
    rt: &R,
    book: &[u8],
    piece: usize,
    failing: Failing,
) -> (Result<(), Refusal>, TextSink) {
    let (read, write) = match failing {
        Failing::Nothing => (None, None),
        Failing::Read(call) => (Some(u128::from(call)), None),
        Failing::Write(call) => (None, Some(call)),
    };
    assert!(rt; piece >= 1);
    let mut source = TextSource::new(book, piece, read);
    let mut outs = [sink(rt, write)];
    let answer = run_list(rt.alloc(), &mut source, &mut outs);
    let [sink] = outs;
    (answer, sink)
}

/// Lists a book that comes in pieces, which has to give this list.
fn is_listed<R: AllocGlobal + Abort>(rt: &R, book: &[u8], piece: usize, list_wanted: &[u8]) {
    let (answer, sink) = list(rt, book, piece, Failing::Nothing);
    assert_eq!(rt; answer, Ok(()), "piece {piece}");
    assert!(rt; sink.bytes() == list_wanted, "piece {piece}");
}

/// Lists a book that comes in pieces, which has to be refused by this line, after which the sink holds what it held.
fn is_refused<R: AllocGlobal + Abort>(rt: &R, book: &[u8], piece: usize, line: &str) {
    let (answer, sink) = list(rt, book, piece, Failing::Nothing);
    let refusal = answer.err().expect(rt, "a refusal");
    let said = format!(in rt.alloc(); "{refusal}").expect(rt, "memory");
    assert!(rt; said.as_str() == line, "{refusal}");
    assert!(rt; sink.bytes() == HELD_BEFORE, "{refusal}");
}

/// A book of two parts, each ended by these bytes.
fn book_of<R: AllocGlobal + Abort>(rt: &R, first: &[u8], second: &[u8], end: &[u8]) -> Vec<u8> {
    let mut book = Vec::new(rt.alloc());
    for part in [first, end, second, end] {
        book.extend_from_slice(part).expect(rt, "memory");
    }
    book
}

/// The two parts of a book, and its list.
const LISTS: [(&[u8], &[u8], &[u8]); 7] = [
    (SETUP, SIGHT, LIST),
    (b"", b"", HEADER),
    (
        SETUP,
        b"*110002+000000000000000B 33..07+0000000000076940 87..08+0000000000130000 ",
        b"number,from,to,difference\n1,A,B,2.54513120\n",
    ),
    (
        b"110001+00000007 331.08+00012345 \n110001+0000000A 84..10+00000000 88..10+00001500 ",
        SIGHT,
        LIST,
    ),
    (
        SETUP,
        b"110002+0000000B 33..00+10000000 87..10+00001300 ",
        b"number,from,to,difference\n1,A,B,10000.20000000\n",
    ),
    (
        SETUP,
        b"110002+0000000B 33..00+00002345 87..10+00001300",
        LIST,
    ),
    (
        SETUP,
        b"110002+00000000 33..00-00002345 87..10+00001300 \n110003+0000A0 0 33..00+00000000 \n110004+00 0A B  33..00-00000200 \n110005+00000A,B 33..00-00000201 \n110006+0000A\"B  33..00+00002345 ",
        b"number,from,to,difference\n1,A,0,-2.14500000\n2,A,A0 0,0.20000000\n3,A,A B,0.00000000\n4,A,\"A,B\",-0.00100000\n5,A,\"A\"\"B\",2.54500000\n",
    ),
];

#[test]
fn lists_books(rt: HostRuntime) {
    for (first, second, list) in LISTS {
        let book = book_of(&rt, first, second, b"\n");
        is_listed(&rt, &book, 65_536, list);
        is_listed(&rt, &book, 1, list);
    }
}

#[test]
fn line_ends_are_cr_lf_cr_and_lf(rt: HostRuntime) {
    let mut book = Vec::new(rt.alloc());
    for part in [SETUP, b"\r\r\n", SIGHT, b"\r\n"] {
        add(&rt, &mut book, part, 1);
    }
    is_listed(&rt, &book, 65_536, LIST);
    for piece in 1..133_usize {
        is_listed(&rt, &book, piece, LIST);
    }
    // The setup is line 1, an empty line 2, and the sight line 3.
    add(&rt, &mut book, b"*", 1);
    is_refused(&rt, &book, 1, "book 1 line 4: B1 word 1: short");
}

/// A line that has a fault, the lines before it, and the line of the refusal.
const FAULTS: [(&[u8], &[u8], &str); 18] = [
    (b"", b"*", "book 1 line 2: B1 word 1: short"),
    (
        SETUP,
        b"110002+0000000B 33..00+00002345 87..10+000013",
        "book 1 line 2: B1 word 3: short",
    ),
    (
        b"",
        b" 110001+0000000A",
        "book 1 line 2: B1 word 1: bad index",
    ),
    (
        b"",
        b"11x001+0000000A",
        "book 1 line 2: B1 word 1: bad information",
    ),
    (
        b"",
        b"110001 0000000A",
        "book 1 line 2: B1 word 1: bad sign",
    ),
    (
        b"",
        b"110001+000000\x00A",
        "book 1 line 2: B1 word 1: bad data",
    ),
    (
        b"",
        b"110001+0000000AX",
        "book 1 line 2: B1 no space after word 1",
    ),
    (
        SETUP,
        b"110002+0000000B 33..00+00002345 87..10+00001300 87..10+00001300 ",
        "book 1 line 2: B2 repeated word",
    ),
    (
        SETUP,
        b"33..00+00002345 87..10+00001300 ",
        "book 1 line 2: B3 no point number",
    ),
    (
        SETUP,
        b"110002+         33..00+00002345 87..10+00001300 ",
        "book 1 line 2: B4 bad name",
    ),
    (
        SETUP,
        b"110002+0000000B 33..00+0000 345 87..10+00001300 ",
        "book 1 line 2: B5 bad number",
    ),
    (
        SETUP,
        b"110002+0000000B 33..02+00002345 87..10+00001300 ",
        "book 1 line 2: B6 bad unit",
    ),
    (
        SETUP,
        b"110002+0000000B 33..00+10000001 87..10+00001300 ",
        "book 1 line 2: B7 too large",
    ),
    (b"", SIGHT, "book 1 line 2: B8 sight before setup"),
    (SIGHT, SETUP, "book 1 line 1: B8 sight before setup"),
    (
        b"110001+0000000A 84..10+00000000 85..10+00000000 86..10+00100000 ",
        SIGHT,
        "book 1 line 2: B9 no instrument height",
    ),
    (
        SETUP,
        b"110002+0000000B 33..00+00002345 87..10+00001300 \n110003+0000000B 84..10+00000000 88..10+00001400 \n110004+0000000C 33..00+00001000 ",
        "book 1 line 4: B10 no reflector height",
    ),
    (
        SETUP,
        b"110002+0000000A 33..00+00002345 87..10+00001300 ",
        "book 1 line 2: B11 sight to itself",
    ),
];

#[test]
fn shows_each_fault_of_a_line(rt: HostRuntime) {
    for (before, line, refusal) in FAULTS {
        let book = book_of(&rt, before, line, b"\n");
        is_refused(&rt, &book, 65_536, refusal);
    }
}

#[test]
fn a_line_has_at_most_1600_bytes_and_64_words(rt: HostRuntime) {
    let mut line = Vec::new(rt.alloc());
    add(&rt, &mut line, b" ", 1_600);
    is_listed(&rt, &line, 100, HEADER);
    add(&rt, &mut line, b" ", 1);
    is_refused(&rt, &line, 100, "book 1 line 1: B1 line too long");

    line.clear();
    add(&rt, &mut line, b"110001+0000000A ", 64);
    is_listed(&rt, &line, 100, HEADER);
    add(&rt, &mut line, b"110001+0000000A ", 1);
    is_refused(&rt, &line, 100, "book 1 line 1: B1 too many words");
}

#[test]
fn a_fault_of_a_late_line_is_shown(rt: HostRuntime) {
    let mut book = Vec::new(rt.alloc());
    add(&rt, &mut book, b"\n", 100_000);
    add(&rt, &mut book, b"*", 1);
    is_refused(&rt, &book, 65_536, "book 1 line 100001: B1 word 1: short");
}

#[test]
fn a_book_has_at_most_64_mib(rt: HostRuntime) {
    // Blank lines of a KiB each.
    let mut line = [b' '; 1_024];
    line[1_023] = b'\n';
    let mut book = Vec::new(rt.alloc());
    add(&rt, &mut book, &line, 65_536);
    assert_eq!(rt; book.len(), MAX_BOOK);
    is_listed(&rt, &book, 1_000_000, HEADER);
    add(&rt, &mut book, b"\n", 1);
    is_refused(&rt, &book, 1_000_000, "book 1 line 0: B12 book too long");
}

#[test]
fn a_read_that_fails_leaves_the_output(rt: HostRuntime) {
    // Each book comes in seven reads, and an eighth finds its end. Its last or its first line has a
    // fault, and it is read to its end before that is reported.
    let line: &[u8] = b"*a line that is no block, beside the setup's";
    for book in [
        book_of(&rt, SETUP, line, b"\n"),
        book_of(&rt, line, SETUP, b"\n"),
    ] {
        for call in 1..9_u8 {
            let (answer, sink) = list(&rt, &book, PIECE, Failing::Read(call));
            assert_eq!(rt; answer, Err(Refusal::Read(Input::Book(1))), "read {call}");
            assert!(rt; sink.bytes() == HELD_BEFORE, "read {call}");
        }
    }
}

/// The call that fails, the answer, and what is held then: `begin`, three writes and `finish`, and
/// no further call.
const BROKEN: [(u8, Result<(), Refusal>, &[u8]); 6] = [
    (1, Err(Refusal::Write(Output::List)), HELD_BEFORE),
    (2, Err(Refusal::Write(Output::List)), b""),
    (
        3,
        Err(Refusal::Write(Output::List)),
        b"number,from,to,diffe",
    ),
    (
        4,
        Err(Refusal::Write(Output::List)),
        b"number,from,to,difference\n1,A,B,2.545000",
    ),
    (5, Err(Refusal::Write(Output::List)), LIST),
    (6, Ok(()), LIST),
];

#[test]
fn a_write_that_fails_leaves_a_beginning(rt: HostRuntime) {
    let book = book_of(&rt, SETUP, SIGHT, b"\n");
    for (call, wanted, held) in BROKEN {
        let (answer, sink) = list(&rt, &book, PIECE, Failing::Write(call));
        assert_eq!(rt; answer, wanted, "call {call}");
        assert!(rt; sink.bytes() == held, "call {call}");
    }
}

/// Lists a book into a sink that takes a byte a write.
fn is_long<R: AllocGlobal + Abort>(rt: &R, book: &[u8], piece: usize, list: &[u8]) {
    assert!(rt; piece >= 1);
    let mut source = TextSource::new(book, piece, None);
    let mut outs = [TextSink::new(rt.alloc(), 3_000_000, 1, None).expect(rt, "memory")];
    assert_eq!(rt; run_list(rt.alloc(), &mut source, &mut outs), Ok(()));
    assert!(rt; outs[0].bytes() == list, "piece {piece}");
}

#[test]
fn a_long_book_comes_in_very_many_reads(rt: HostRuntime) {
    let mut book = Vec::new(rt.alloc());
    let mut list = Vec::new(rt.alloc());
    add(&rt, &mut book, SETUP, 1);
    add(&rt, &mut list, HEADER, 1);
    for number in 1..100_001_u32 {
        add(&rt, &mut book, b"\n", 1);
        add(&rt, &mut book, SIGHT, 1);
        let row = format!(in rt.alloc(); "{number},A,B,2.54500000\n").expect(&rt, "memory");
        add(&rt, &mut list, row.as_bytes(), 1);
    }
    for piece in [1, 4_095, 4_096, 4_097] {
        is_long(&rt, &book, piece, &list);
    }
}

#[test]
fn a_book_is_listed_however_it_is_cut(rt: HostRuntime) {
    let book = book_of(&rt, SETUP, SIGHT, b"\r\n");
    for piece in 1..133_usize {
        is_listed(&rt, &book, piece, LIST);
    }
}
