//! Books, whole and in pieces, with the names that they spell in more than one way.
use std::alloc::Global;
use std::process::Abort;
use th_book::BookFeed;
use th_entries::{Listed, MAX_LISTED, MAX_MENTIONS, SeenNames, Spelling, Tally};

/// The lines of books, and the book, the line and the name of each spelling that is found.
type Row = (
    &'static [&'static [&'static [u8]]],
    &'static [(u32, u32, &'static [u8])],
);

/// Setups at A and at B, and sights of A and of B: with zeros in front in blocks of both widths, and in
/// other spellings.
const SETUP_A: &[u8] = b"110001+0000000A 84..10+00000000 87..10+00001300 88..10+00001500 ";

const WIDE_SETUP_A: &[u8] =
    b"*110001+000000000000000A 84..10+0000000000000000 87..10+0000000000001300 88..10+0000000000001500 ";

const SPACED_SETUP_A: &[u8] = b"110001+       A 84..10+00000000 87..10+00001300 88..10+00001500 ";

const SETUP_B: &[u8] = b"110001+0000000B 84..10+00000000 87..10+00001300 88..10+00001500 ";

const SIGHT_A: &[u8] = b"110002+0000000A 33..00+00002345 ";

const WIDE_SIGHT_A: &[u8] = b"*110002+000000000000000A 33..00+0000000000002345 ";

const SPACED_SIGHT_A: &[u8] = b"110002+       A 33..00+00002345 ";

const SIGHT_B: &[u8] = b"110002+0000000B 33..00+00002345 ";

const SPACED_SIGHT_B: &[u8] = b"110002+       B 33..00+00002345 ";

const LEFT_SIGHT_B: &[u8] = b"110002+B        33..00+00002345 ";

const ROWS: [Row; 15] = [
    (&[], &[]),
    (&[&[], &[b"", b"410001+00000007 42....+000SITE3 "]], &[]),
    // one spelling each, in two books
    (&[&[SETUP_A, SIGHT_B], &[SETUP_B, SIGHT_A], &[SETUP_A]], &[]),
    // zeros in front are no other spelling
    (
        &[
            &[SETUP_A, WIDE_SETUP_A, SETUP_B, WIDE_SIGHT_A],
            &[SETUP_B, SIGHT_A, WIDE_SETUP_A],
        ],
        &[],
    ),
    // a station
    (&[&[SETUP_A, SPACED_SETUP_A]], &[(1, 2, b"A")]),
    (&[&[SPACED_SETUP_A, WIDE_SETUP_A]], &[(1, 2, b"A")]),
    // a target
    (&[&[SETUP_A, SIGHT_B, SPACED_SIGHT_B]], &[(1, 3, b"B")]),
    // a name that is the station of one block and the target of another
    (
        &[&[
            SETUP_A,
            SPACED_SIGHT_B,
            b"",
            SETUP_B,
            SIGHT_A,
            SPACED_SIGHT_A,
        ]],
        &[(1, 4, b"B"), (1, 6, b"A")],
    ),
    // each name once: a third spelling, and the first one again
    (
        &[&[
            SETUP_A,
            SIGHT_B,
            SPACED_SIGHT_B,
            SIGHT_B,
            LEFT_SIGHT_B,
            SPACED_SIGHT_B,
        ]],
        &[(1, 3, b"B")],
    ),
    // in the order of lines, whichever name was seen first
    (
        &[&[SETUP_A, SIGHT_B, LEFT_SIGHT_B, SPACED_SETUP_A]],
        &[(1, 3, b"B"), (1, 4, b"A")],
    ),
    // across books, each name once in all of them
    (
        &[&[SETUP_A, SIGHT_B], &[SPACED_SETUP_A, SIGHT_B]],
        &[(2, 1, b"A")],
    ),
    (
        &[
            &[SETUP_A, SIGHT_B],
            &[b"", SETUP_A, SPACED_SIGHT_B],
            &[SPACED_SETUP_A, LEFT_SIGHT_B],
        ],
        &[(2, 3, b"B"), (3, 1, b"A")],
    ),
    // a block that is no setup and no sight mentions no name, and only the first word of a block does
    (
        &[&[
            b"110001+       A 88..10+00001500 ",
            SETUP_A,
            b"110002+       A 87..10+00001300 ",
            b"110003+0000000B 33..00+00002345 110004+       A ",
            SIGHT_B,
        ]],
        &[],
    ),
    // a block with a height difference and a coordinate is a sight
    (
        &[&[
            SETUP_A,
            b"110002+B        33..00+00002345 84..10+00000000 ",
            SIGHT_B,
        ]],
        &[(1, 3, b"B")],
    ),
    // names that differ, whose data look alike, and the name of zeros alone
    (
        &[&[
            SETUP_A,
            b"110002+000000A0 33..00+00002345 ",
            b"110003+0000000a 33..00+00002345 ",
            b"110004+00000000 33..00+00002345 ",
            b"*110005+0000000000000000 33..00+0000000000002345 ",
            b"110006+       0 33..00+00002345 ",
        ]],
        &[(1, 6, b"0")],
    ),
];

/// The lines joined, each with its end.
fn joined(rt: &impl Abort, alloc: Global, lines: &[&[u8]]) -> Vec<u8> {
    let mut text = Vec::new(alloc);
    for line in lines {
        text.extend_from_slice(line).expect(rt, "memory");
        text.extend_from_slice(b"\r\n").expect(rt, "memory");
    }
    text
}

/// How many sights the largest network has.
const MOST_SIGHTS: u32 = 40_000;

/// The next number in so many digits.
fn count_up(digits: &mut [u8; 8]) {
    for digit in digits.iter_mut().rev() {
        if *digit < b'9' {
            *digit += 1;
            return;
        }
        *digit = b'0';
    }
}

/// The names after one more book, which comes in pieces of so many bytes.
fn seen(
    rt: &impl Abort,
    alloc: Global,
    names: SeenNames,
    book: u32,
    text: &[u8],
    piece: usize,
) -> SeenNames {
    assert!(rt; piece >= 1);
    let mut feed = BookFeed::new(alloc, book);
    let mut tally = Tally::new(alloc, book, names);
    for bytes in text.chunks(piece) {
        feed.feed_to(bytes, &mut tally).expect(rt, "memory");
    }
    feed.finish_to(&mut tally).expect(rt, "no fault");
    let (_, names) = tally.review().expect(rt, "memory");
    names
}

/// The spellings that were found are those that are wanted.
fn are_found(rt: &impl Abort, found: &Listed<Spelling>, wanted: &[(u32, u32, &'static [u8])]) {
    assert_eq!(rt; found.count as usize, wanted.len());
    assert_eq!(rt; found.first.len(), wanted.len());
    for (spelling, (book, line, name)) in found.first.iter().zip(wanted) {
        assert_eq!(rt; spelling.book, *book);
        assert_eq!(rt; spelling.line, *line);
        assert!(rt; spelling.name.as_bytes() == *name, "at {book} {line}");
    }
}

#[test]
fn spellings(rt: HostRuntime) {
    for (books, wanted) in &ROWS {
        for piece in [1, 7, 4_096] {
            let mut names = SeenNames::new(rt.alloc());
            for (number, lines) in (1..=16).zip(books.iter()) {
                let text = joined(&rt, rt.alloc(), lines);
                names = seen(&rt, rt.alloc(), names, number, &text, piece);
            }
            are_found(&rt, names.found(), wanted);
        }
    }
}

// As many names as a network may have sights, the last of them in another spelling.
#[test]
fn most_names(rt: HostRuntime) {
    let mut feed = BookFeed::new(rt.alloc(), 1);
    let mut tally = Tally::new(rt.alloc(), 1, SeenNames::new(rt.alloc()));
    let mut digits = *b"00000000";
    feed.feed_to(SETUP_A, &mut tally).expect(&rt, "memory");
    for _ in 0..MOST_SIGHTS {
        count_up(&mut digits);
        for part in [b"\r\n110002+", &digits as &[u8], b" 33..00+00002345 "] {
            feed.feed_to(part, &mut tally).expect(&rt, "memory");
        }
    }
    feed.feed_to(b"\r\n110002+   40000 33..00+00002345 ", &mut tally)
        .expect(&rt, "memory");
    feed.finish_to(&mut tally).expect(&rt, "no fault");
    let (review, names) = tally.review().expect(&rt, "memory");
    assert_eq!(&rt; review.counts.sights, MOST_SIGHTS + 1);
    are_found(
        &rt,
        names.found(),
        &[(1, MOST_SIGHTS + 2, b"40000" as &[u8])],
    );
}

// Names in two spellings each, three more than are listed.
#[test]
fn most_spellings(rt: HostRuntime) {
    let many = MAX_LISTED as u32 + 3;
    let mut feed = BookFeed::new(rt.alloc(), 1);
    let mut tally = Tally::new(rt.alloc(), 1, SeenNames::new(rt.alloc()));
    let mut digits = *b"00000000";
    for _ in 0..many {
        count_up(&mut digits);
        let wide: &[u8] = b" 84..10+0000000000000000 \n";
        for part in [
            b"110001+",
            &digits as &[u8],
            b" 84..10+00000000 \n*110001+        ",
            &digits,
            wide,
        ] {
            feed.feed_to(part, &mut tally).expect(&rt, "memory");
        }
    }
    feed.finish_to(&mut tally).expect(&rt, "no fault");
    let (_, names) = tally.review().expect(&rt, "memory");
    let found = names.found();
    assert_eq!(&rt; found.count, many);
    assert_eq!(&rt; found.first.len(), MAX_LISTED);
    assert_eq!(&rt; found.first[0].line, 2);
    assert_eq!(&rt; found.first[MAX_LISTED - 1].line, 2 * MAX_LISTED as u32);
}

/// How many spellings are found where the last of so many mentions spells a name in another way.
fn found_at(rt: &impl Abort, alloc: Global, mentions: u32) -> u32 {
    assert!(rt; mentions >= 2);
    let mut feed = BookFeed::new(alloc, 1);
    let mut tally = Tally::new(alloc, 1, SeenNames::new(alloc));
    for _ in 1..mentions {
        feed.feed_to(b"110001+0000000A 84..10+00000000 \n", &mut tally)
            .expect(rt, "memory");
    }
    feed.feed_to(b"110001+       A 84..10+00000000 \n", &mut tally)
        .expect(rt, "memory");
    feed.finish_to(&mut tally).expect(rt, "no fault");
    let (_, names) = tally.review().expect(rt, "memory");
    names.found().count
}

// The last mention that is compared, and the first one that is not.
#[test]
fn most_mentions(rt: HostRuntime) {
    assert_eq!(&rt; found_at(&rt, rt.alloc(), MAX_MENTIONS), 1);
    assert_eq!(&rt; found_at(&rt, rt.alloc(), MAX_MENTIONS + 1), 0);
}
