//! Books that come in pieces: pieces of each size, books of the most bytes and of many sights, and want
//! of memory.
use crate::books::{
    Answer, P, S, SEEN, SIX_LINES, Seen, fed, has_observations, is_answer, is_five_or_wanting,
};
use std::alloc::Global;
use std::process::Abort;
use th_book::{BookFeed, BookKind, read_book};

/// S, CR, CR LF, P, CR LF: the second line is empty.
fn two_lines_apart(rt: &impl Abort, alloc: Global) -> Vec<u8> {
    let mut bytes = Vec::new(alloc);
    for part in &[S, b"\r\r\n", P, b"\r\n"] {
        bytes.extend_from_slice(part).expect(rt, "memory");
    }
    bytes
}

// Pieces of each size, up to the whole.
#[test]
fn ends_of_lines(rt: HostRuntime) {
    let bytes = two_lines_apart(&rt, rt.alloc());
    let wanted: Result<&[Seen], (u32, BookKind)> = Ok(&[(b"A", b"B", 254_500_000, 3)]);
    assert!(rt; is_answer(&read_book(rt.alloc(), 7, &bytes), &wanted));
    for piece in 1..=132 {
        let answer = fed(&rt, rt.alloc(), &bytes, piece);
        assert!(rt; is_answer(&answer, &wanted), "in pieces of {piece}");
    }
}

/// Feeds a book of 16,384 pieces of 4,096 line ends, between two other pieces.
fn fed_line_ends(rt: &impl Abort, alloc: Global, first: &[u8], last: &[u8]) -> Answer {
    let piece = [b'\n'; 4_096];
    let mut feed = BookFeed::new(alloc, 7);
    feed.feed(first).expect(rt, "memory");
    for _ in 0..16_384 {
        feed.feed(&piece).expect(rt, "memory");
    }
    feed.feed(last).expect(rt, "memory");
    feed.finish()
}

// The most line ends, one line end more, and as many behind a fault.
#[test]
fn longest_book_in_pieces(rt: HostRuntime) {
    let too_long = Err((0, BookKind::BookTooLong));
    let answer = fed_line_ends(&rt, rt.alloc(), b"", b"");
    assert!(rt; is_answer(&answer, &Ok(&[])));
    let longer = fed_line_ends(&rt, rt.alloc(), b"", b"\n");
    assert!(rt; is_answer(&longer, &too_long));
    let faulty = fed_line_ends(&rt, rt.alloc(), b"*", b"");
    assert!(rt; is_answer(&faulty, &too_long));
}

/// A setup and as many sights.
fn book_of_sights(rt: &impl Abort, alloc: Global, count: u32) -> Vec<u8> {
    let mut bytes = Vec::from_slice(alloc, S).expect(rt, "memory");
    for _ in 0..count {
        bytes.push(b'\n').expect(rt, "memory");
        bytes.extend_from_slice(P).expect(rt, "memory");
    }
    bytes
}

#[test]
fn many_sights(rt: HostRuntime) {
    let bytes = book_of_sights(&rt, rt.alloc(), 100_000);
    assert!(rt; has_observations(&read_book(rt.alloc(), 7, &bytes), 100_000));
    let answer = fed(&rt, rt.alloc(), &bytes, 4_096);
    assert!(rt; has_observations(&answer, 100_000));
}

/// Feeds the lines one after the other as pieces, and says whether an allocation failed. From then on
/// each call fails.
fn fed_until_wanting(rt: &impl Abort, feed: &mut BookFeed) -> bool {
    let mut wanting = false;
    for piece in SIX_LINES.chunks(48) {
        let refused = feed.feed(piece).is_err();
        assert!(rt; refused || !wanting);
        wanting = refused;
    }
    wanting
}

// With ample memory, and with each allocation refused in turn.
#[test]
fn want_of_memory_is_kept_by_a_feed(rt: HostRuntime) {
    let mut feed = BookFeed::new(rt.alloc(), 7);
    let wanting = fed_until_wanting(&rt, &mut feed);
    assert_eq!(rt; feed.feed(b"").is_err(), wanting);
    let answer = feed.finish();
    assert_eq!(rt; answer.is_err(), wanting);
    assert!(rt; is_five_or_wanting(&answer));
}

// The last line has no end, so that its observation is made by `finish`.
#[test]
fn last_line_without_an_end(rt: HostRuntime) {
    let mut feed = BookFeed::new(rt.alloc(), 7);
    for piece in &[S, b"\n", P] {
        feed.feed(piece).expect(&rt, "memory");
    }
    let answer = feed.finish();
    let wanting = Err((2, BookKind::NoMemory));
    assert!(rt; is_answer(&answer, &Ok(&[SEEN])) || is_answer(&answer, &wanting));
}
