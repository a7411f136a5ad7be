//! Books given line by line, whole and in pieces: worked rows, faults, and the state after a fault or
//! an allocation failure.
use gsi_block::{BlockFault, LineCursor};
use gsi_word::WordFault;
use std::alloc::Global;
use std::process::Abort;
use th_book::{Book, BookFault, BookFeed, BookKind, MAX_BOOK, read_book};
use th_observations::Observation;

/// A setup at A with an instrument height of 1.500 m.
pub const S: &[u8] =
    b"110001+0000000A 84..10+00000000 85..10+00000000 86..10+00100000 88..10+00001500 ";

/// The same without its instrument height.
const S_WITHOUT_HEIGHT: &[u8] = b"110001+0000000A 84..10+00000000 85..10+00000000 86..10+00100000 ";

/// A sight to B with a reflector height of 1.300 m.
pub const P: &[u8] = b"110002+0000000B 33..00+00002345 87..10+00001300 ";

/// An observation's ends and difference, and its line.
pub type Seen = (&'static [u8], &'static [u8], i64, u32);

/// The lines of a book, and its observations or the line and kind of its fault.
type Row = (
    &'static [&'static [u8]],
    Result<&'static [Seen], (u32, BookKind)>,
);

/// What S and P give.
pub const SEEN: Seen = (b"A", b"B", 254_500_000, 2);

const DIFFERENCES: [Row; 15] = [
    (&[], Ok(&[])),
    (&[S, P], Ok(&[SEEN])),
    (
        &[
            S,
            b"*110002+000000000000000B 33..07+0000000000076940 87..08+0000000000130000 ",
        ],
        Ok(&[(b"A", b"B", 254_513_120, 2)]),
    ),
    (
        &[
            S,
            P,
            b"110003+0000000B 33..00+00002346 ",
            b"110004+0000000B 33..00+00003345 ",
        ],
        Ok(&[
            SEEN,
            (b"A", b"B", 254_600_000, 3),
            (b"A", b"B", 354_500_000, 4),
        ]),
    ),
    (
        &[
            b"110001+0000000A 84..10+00000000 88..10+00001500 ",
            b"110002+0000000B 33..00+00001000 87..10+00001500 ",
            b"110003+0000000B 84..10+00000000 88..10+00001500 ",
            b"110004+0000000C 33..00+00001000 87..10+00001500 ",
            b"110005+0000000C 84..10+00000000 88..10+00001500 ",
            b"110006+0000000A 33..00-00002000 87..10+00001500 ",
            b"110007+0000000A 84..10+00000000 88..10+00001500 ",
            b"110008+0000000C 33..00+00002500 87..10+00001500 ",
        ],
        Ok(&[
            (b"A", b"B", 100_000_000, 2),
            (b"B", b"C", 100_000_000, 4),
            (b"C", b"A", -200_000_000, 6),
            (b"A", b"C", 250_000_000, 8),
        ]),
    ),
    (
        &[
            S,
            P,
            b"110003+0000000B 84..10+00000000 88..10+00001450 ",
            b"110004+0000000A 33..00-00002705 87..10+00001300 ",
        ],
        Ok(&[SEEN, (b"B", b"A", -255_500_000, 4)]),
    ),
    // a word 33 with a third digit is no height difference
    (
        &[b"110001+00000007 331.08+00012345 ", S, P],
        Ok(&[(b"A", b"B", 254_500_000, 3)]),
    ),
    // the greatest lengths
    (
        &[S, b"110002+0000000B 33..00+10000000 87..10+00001300 "],
        Ok(&[(b"A", b"B", 1_000_020_000_000, 2)]),
    ),
    (
        &[
            b"110001+0000000A 84..10+00000000 88..10+10000000 ",
            b"110002+0000000B 33..00+10000000 87..10-10000000 ",
        ],
        Ok(&[(b"A", b"B", 3_000_000_000_000, 2)]),
    ),
    // without its closing space
    (
        &[S, b"110002+0000000B 33..00+00002345 87..10+00001300"],
        Ok(&[SEEN]),
    ),
    // heights in a block between, and a later one in the sight itself
    (
        &[
            S_WITHOUT_HEIGHT,
            b"88..10+00001500 87..10+00001300 ",
            b"110002+0000000B 33..00+00002345 ",
            b"110002+0000000B 33..00+00002345 88..10+00001600 ",
            b"110002+0000000B 33..00+00002345 ",
        ],
        Ok(&[
            (b"A", b"B", 254_500_000, 3),
            (b"A", b"B", 264_500_000, 4),
            (b"A", b"B", 264_500_000, 5),
        ]),
    ),
    // a block with a coordinate and a height difference is a sight
    (
        &[
            S,
            b"110002+0000000B 33..00+00002345 84..10+00000000 87..10+00001300 ",
            b"110003+0000000C 33..00+00002345 ",
        ],
        Ok(&[SEEN, (b"A", b"C", 254_500_000, 3)]),
    ),
    // data of coordinates are not read
    (
        &[b"110001+0000000A 86..1X+NOTHING. 88..10+00001500 ", P],
        Err((
            1,
            BookKind::Block(BlockFault::BadWord(2, WordFault::BadInfo)),
        )),
    ),
    (
        &[b"110001+0000000A 86..19+NOTHING. 88..10+00001500 ", P],
        Ok(&[SEEN]),
    ),
    // blank lines and blocks without a meaning, in another order of words
    (
        &[
            b"",
            b"410001+0000000? 42....+REMARK.. ",
            S,
            b"    ",
            b"110002+0000000B 87..10+00001300 21.102+12345678 33..00+00002345 11....+NOTHING. ",
        ],
        Ok(&[(b"A", b"B", 254_500_000, 5)]),
    ),
];

const NAMES: [Row; 4] = [
    (
        &[S, b"110002+00000000 33..00+00002345 87..10+00001300 "],
        Ok(&[(b"A", b"0", 254_500_000, 2)]),
    ),
    (
        &[S, b"110002+0000A0 0 33..00+00002345 87..10+00001300 "],
        Ok(&[(b"A", b"A0 0", 254_500_000, 2)]),
    ),
    (
        &[S, b"110002+00 0A B  33..00+00002345 87..10+00001300 "],
        Ok(&[(b"A", b"A B", 254_500_000, 2)]),
    ),
    (
        &[S, b"110002+         33..00+00002345 87..10+00001300 "],
        Err((2, BookKind::BadName)),
    ),
];

/// What a line that is no block gives as the second of a book, and where the fault is.
const LINES: [(&[u8], BlockFault); 5] = [
    (
        b"110002+0000000B 33..00+00002345 87..10+000013",
        BlockFault::BadWord(3, WordFault::Short),
    ),
    (b"*", BlockFault::BadWord(1, WordFault::Short)),
    (b"110001+0000000AX", BlockFault::BadSeparator(1)),
    (
        b" 110001+0000000A",
        BlockFault::BadWord(1, WordFault::BadIndex),
    ),
    (
        b"110001 0000000A",
        BlockFault::BadWord(1, WordFault::BadSign),
    ),
];

const FAULTS: [Row; 24] = [
    (
        &[S, P, b"87..10+00001300 87..10+00001300 "],
        Err((3, BookKind::RepeatedWord)),
    ),
    (
        &[
            S,
            b"110002+0000000B 33..00+00002345 87..10+00001300 87..10+00001300 ",
        ],
        Err((2, BookKind::RepeatedWord)),
    ),
    (
        &[b"110001+0000000A 84..10+00000000 84..10+00000000 "],
        Err((1, BookKind::RepeatedWord)),
    ),
    (
        &[S, b"33..00+00002345 110002+0000000B 87..10+00001300 "],
        Err((2, BookKind::NoPointNumber)),
    ),
    (&[b"85..10+00000000 "], Err((1, BookKind::NoPointNumber))),
    (
        &[b"110001+         86..10+00000000 "],
        Err((1, BookKind::BadName)),
    ),
    (
        &[S, b"110002+0000000B 33..00+0000 345 87..10+00001300 "],
        Err((2, BookKind::BadNumber)),
    ),
    (&[b"88..10+0000000X "], Err((1, BookKind::BadNumber))),
    (
        &[S, b"110002+0000000B 33..02+00002345 87..10+00001300 "],
        Err((2, BookKind::BadUnit)),
    ),
    (
        &[S, b"110002+0000000B 33..00+10000001 87..10+00001300 "],
        Err((2, BookKind::TooLarge)),
    ),
    (&[P], Err((1, BookKind::SightBeforeSetup))),
    (
        &[S_WITHOUT_HEIGHT, P],
        Err((2, BookKind::NoInstrumentHeight)),
    ),
    // heights from before the setup
    (
        &[b"88..10+00001500 ", S_WITHOUT_HEIGHT, P],
        Err((3, BookKind::NoInstrumentHeight)),
    ),
    (
        &[
            S,
            P,
            b"110003+0000000B 84..10+00000000 88..10+00001400 ",
            b"110004+0000000C 33..00+00001000 ",
        ],
        Err((4, BookKind::NoReflectorHeight)),
    ),
    (
        &[S, b"110002+0000000A 33..00+00002345 87..10+00001300 "],
        Err((2, BookKind::SightToItself)),
    ),
    // of several kinds in one line the first counts
    (
        &[b"33..02+00002345 33..00+0000000X "],
        Err((1, BookKind::RepeatedWord)),
    ),
    (&[b"33..02+0000000X "], Err((1, BookKind::NoPointNumber))),
    (
        &[b"110002+         33..02+0000000X "],
        Err((1, BookKind::BadName)),
    ),
    (
        &[b"110002+0000000B 33..02+00002345 87..10+0000000X "],
        Err((1, BookKind::BadNumber)),
    ),
    (
        &[b"110002+0000000B 33..00+99999999 87..12+00001300 "],
        Err((1, BookKind::BadUnit)),
    ),
    (
        &[b"110002+0000000B 33..00+99999999 "],
        Err((1, BookKind::TooLarge)),
    ),
    (
        &[S_WITHOUT_HEIGHT, b"110002+0000000A 33..00+00002345 "],
        Err((2, BookKind::NoInstrumentHeight)),
    ),
    (
        &[S, b"110002+0000000A 33..00+00002345 "],
        Err((2, BookKind::NoReflectorHeight)),
    ),
    // of several lines too
    (
        &[P, S, b"*", b"33..00+00002345 "],
        Err((1, BookKind::SightBeforeSetup)),
    ),
];

/// A fault of a line.
pub fn fault_at(line: u32, kind: BookKind) -> BookFault {
    BookFault { line, kind }
}

/// The observation is the one seen, of book 7.
fn is_seen(observation: &Observation, seen: &Seen) -> bool {
    let (station, target) = observation.ends();
    station.as_bytes() == seen.0
        && target.as_bytes() == seen.1
        && observation.difference() == seen.2
        && observation.line == seen.3
        && observation.book == 7
}

/// The observations are those seen, of book 7.
fn are_seen(observations: &[Observation], wanted: &[Seen]) -> bool {
    for (observation, seen) in observations.iter().zip(wanted) {
        if !is_seen(observation, seen) {
            return false;
        }
    }
    observations.len() == wanted.len()
}

/// What a book gives.
pub type Answer = Result<Vec<Observation>, BookFault>;

/// The answer is the one wanted: observations of book 7, or a fault of a line.
pub fn is_answer(answer: &Answer, wanted: &Result<&[Seen], (u32, BookKind)>) -> bool {
    match (answer, wanted) {
        (Ok(observations), Ok(seen)) => are_seen(observations, seen),
        (Err(fault), Err((line, kind))) => *fault == fault_at(*line, *kind),
        _ => false,
    }
}

/// The answer is as many observations.
pub fn has_observations(answer: &Answer, count: usize) -> bool {
    match answer {
        Ok(observations) => observations.len() == count,
        Err(_) => false,
    }
}

/// Takes a line, and once more after an allocation failure: the book is then as before the line.
fn take(rt: &impl Abort, book: &mut Book, line: &[u8]) -> Result<(), BookFault> {
    let before = book.lines();
    assert!(rt; (before as usize) < MAX_BOOK);
    let first = book.line(line);
    if first != Err(fault_at(before + 1, BookKind::NoMemory)) {
        return first;
    }
    assert_eq!(rt; book.lines(), before);
    book.line(line)
}

fn line_by_line(rt: &impl Abort, alloc: Global, lines: &[&[u8]]) -> Answer {
    let mut book = Book::new(alloc, 7);
    for line in lines {
        let _ = take(rt, &mut book, line);
    }
    book.finish()
}

/// The bytes of some lines, each ended by a line feed.
fn joined(rt: &impl Abort, alloc: Global, lines: &[&[u8]]) -> Vec<u8> {
    let mut bytes = Vec::new(alloc);
    for line in lines {
        bytes.extend_from_slice(line).expect(rt, "memory");
        bytes.push(b'\n').expect(rt, "memory");
    }
    bytes
}

/// Feeds a book in pieces of this size.
pub fn fed(rt: &impl Abort, alloc: Global, bytes: &[u8], piece: usize) -> Answer {
    assert!(rt; piece >= 1);
    let mut feed = BookFeed::new(alloc, 7);
    for bytes in bytes.chunks(piece) {
        let _ = feed.feed(bytes);
    }
    feed.finish()
}

/// A book gives what is wanted, line by line, whole and in pieces of 7 bytes.
fn gives(rt: &impl Abort, alloc: Global, row: &Row) -> bool {
    let (lines, wanted) = row;
    let bytes = joined(rt, alloc, lines);
    is_answer(&line_by_line(rt, alloc, lines), wanted)
        && is_answer(&read_book(alloc, 7, &bytes), wanted)
        && is_answer(&fed(rt, alloc, &bytes, 7), wanted)
}

#[test]
fn books_and_their_differences(rt: HostRuntime) {
    for (row, book) in DIFFERENCES.iter().enumerate() {
        assert!(rt; gives(&rt, rt.alloc(), book), "in row {row}");
    }
}

#[test]
fn names_in_sights(rt: HostRuntime) {
    for (row, book) in NAMES.iter().enumerate() {
        assert!(rt; gives(&rt, rt.alloc(), book), "in row {row}");
    }
}

#[test]
fn books_and_their_faults(rt: HostRuntime) {
    for (row, book) in FAULTS.iter().enumerate() {
        assert!(rt; gives(&rt, rt.alloc(), book), "in row {row}");
    }
}

#[test]
fn lines_that_are_no_blocks(rt: HostRuntime) {
    for (line, fault) in &LINES {
        let answer = line_by_line(&rt, rt.alloc(), &[S, line, P]);
        let wanted = Err((2, BookKind::Block(*fault)));
        assert!(rt; is_answer(&answer, &wanted), "{line:?}");
    }
}

#[test]
fn lines_of_spaces(rt: HostRuntime) {
    let spaces = [b' '; 1_601];
    assert!(rt;
        is_answer(
            &line_by_line(&rt, rt.alloc(), &[S, &spaces[..1_600], P]),
            &Ok(&[(b"A", b"B", 254_500_000, 3)])
        )
    );
    assert!(rt;
        is_answer(
            &line_by_line(&rt, rt.alloc(), &[S, &spaces, P]),
            &Err((2, BookKind::Block(BlockFault::LineTooLong)))
        )
    );
}

#[test]
fn longest_book(rt: HostRuntime) {
    let mut bytes = vec![in rt.alloc(); b'\n'; 67_108_864].expect(&rt, "memory");
    assert!(rt; is_answer(&read_book(rt.alloc(), 7, &bytes), &Ok(&[])));
    bytes.push(b'\n').expect(&rt, "memory");
    let too_long = Err((0, BookKind::BookTooLong));
    assert!(rt; is_answer(&read_book(rt.alloc(), 7, &bytes), &too_long));
}

#[test]
fn fault_is_kept(rt: HostRuntime) {
    let mut book = Book::new(rt.alloc(), 7);
    let fault = fault_at(
        2,
        BookKind::Block(BlockFault::BadWord(1, WordFault::BadIndex)),
    );
    let taken = [
        (take(&rt, &mut book, S), book.lines()),
        (take(&rt, &mut book, b" 110001+0000000A"), book.lines()),
        (take(&rt, &mut book, P), book.lines()),
    ];
    assert_eq!(rt; taken, [(Ok(()), 1), (Err(fault), 2), (Err(fault), 2)]);
    assert!(rt; is_answer(&book.finish(), &Err((2, fault.kind))));
}

/// A setup and five sights.
pub const SIX_LINES: &[u8] = b"110001+0000000A 84..10+00000000 88..10+00001500
110002+0000000B 33..00+00002345 87..10+00001300
110003+0000000B 33..00+00002345
110004+0000000B 33..00+00002345
110005+0000000B 33..00+00002345
110006+0000000B 33..00+00002345
";

/// Takes the setup and the five sights, line by line.
fn take_six_lines(rt: &impl Abort, book: &mut Book) {
    let mut lines = LineCursor::new(SIX_LINES);
    for _ in 0..6 {
        let line = lines.next().expect(rt, "six lines");
        assert_eq!(rt; take(rt, book, line), Ok(()));
    }
    assert_eq!(rt; book.lines(), 6);
}

/// The answer is five observations, or an allocation failure at a sight.
pub fn is_five_or_wanting(answer: &Answer) -> bool {
    match answer {
        Ok(observations) => observations.len() == 5,
        Err(fault) => fault.kind == BookKind::NoMemory && 2 <= fault.line && fault.line <= 6,
    }
}

// With ample memory, and with each allocation refused in turn.
#[test]
fn want_of_memory_is_not_kept(rt: HostRuntime) {
    let mut book = Book::new(rt.alloc(), 7);
    take_six_lines(&rt, &mut book);
    assert!(rt; has_observations(&book.finish(), 5));
    assert!(rt; is_five_or_wanting(&read_book(rt.alloc(), 7, SIX_LINES)));
}
