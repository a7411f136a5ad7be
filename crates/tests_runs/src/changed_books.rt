//! Books that are cut short or changed in one byte, read in each of the three ways.
use crate::helpers::put;
use crate::projects::ONE_SIGHT;
use gsi_block::{BlockFault, LineCursor};
use gsi_word::WordFault;
use std::alloc::Global;
use std::process::Abort;
use th_book::{Book, BookFault, BookFeed, BookKind, read_book};
use th_observations::Observation;

/// More lines than the book has, however its bytes are changed.
const MANY_LINES: u32 = 1_000;

/// What a book gives by its lines. A fault of a line is kept, and `finish` answers it.
fn read_by_lines(alloc: Global, bytes: &[u8]) -> Result<Vec<Observation>, BookFault> {
    let mut book = Book::new(alloc, 1);
    let mut lines = LineCursor::new(bytes);
    for _ in 0..MANY_LINES {
        if let Some(line) = lines.next()
            && book.lines() < MANY_LINES
        {
            let _ = book.line(line);
        }
    }
    book.finish()
}

/// What a book gives byte by byte.
fn read_by_bytes(alloc: Global, bytes: &[u8]) -> Result<Vec<Observation>, BookFault> {
    let mut feed = BookFeed::new(alloc, 1);
    for piece in bytes.chunks(1) {
        let _ = feed.feed(piece);
    }
    feed.finish()
}

/// Whether two readings give the same observations or the same fault.
fn are_same(
    one: &Result<Vec<Observation>, BookFault>,
    other: &Result<Vec<Observation>, BookFault>,
) -> bool {
    match (one, other) {
        (Ok(one), Ok(other)) => one.as_slice() == other.as_slice(),
        (Err(one), Err(other)) => one == other,
        _ => false,
    }
}

/// How many observations a book gives, or its fault: read whole, by its lines and byte by byte, which
/// has to be one answer.
fn read<R: AllocGlobal + Abort>(rt: &R, bytes: &[u8]) -> Result<usize, BookFault> {
    let whole = read_book(rt.alloc(), 1, bytes);
    let by_lines = read_by_lines(rt.alloc(), bytes);
    let by_bytes = read_by_bytes(rt.alloc(), bytes);
    let is_one = are_same(&whole, &by_lines) && are_same(&whole, &by_bytes);
    assert!(rt; is_one, "{bytes:?}");
    match whole {
        Ok(observations) => Ok(observations.len()),
        Err(fault) => Err(fault),
    }
}

/// Where the second line of the book begins.
const SECOND_LINE: usize = 81;

/// What so many bytes of the book give. The words of a line take 16 bytes each.
fn of_beginning(count: usize) -> Result<usize, BookFault> {
    match count {
        0 | 15 | 16 | 31 | 32 | 47 | 48 | 63 | 64 | 79 | 80 | 81 | 96 | 97 => Ok(0),
        112 | 113 => Err(BookFault {
            line: 2,
            kind: BookKind::NoReflectorHeight,
        }),
        128 | 129 | 130 => Ok(1),
        _ if count < SECOND_LINE => Err(ends_in_word(1, count)),
        _ => Err(ends_in_word(2, count - SECOND_LINE)),
    }
}

/// The fault of a line that ends in a word, behind so many bytes.
fn ends_in_word(line: u32, bytes: usize) -> BookFault {
    let mut word = 1u32;
    for _ in 0..bytes / 16 {
        word = word.wrapping_add(1);
    }
    BookFault {
        line,
        kind: BookKind::Block(BlockFault::BadWord(word, WordFault::Short)),
    }
}

#[test]
fn each_beginning_of_a_book_is_read(rt: HostRuntime) {
    assert_eq!(rt; ONE_SIGHT.len(), 130);
    for count in 0..131_usize {
        let beginning = ONE_SIGHT.get(..count).expect(&rt, "a beginning");
        assert_eq!(rt; read(&rt, beginning), of_beginning(count), "{count} bytes");
    }
}

#[test]
fn each_changed_byte_of_a_book_is_read_one_way(rt: HostRuntime) {
    let mut book = Vec::from_slice(rt.alloc(), ONE_SIGHT).expect(&rt, "memory");
    for (place, own) in ONE_SIGHT.iter().enumerate() {
        for byte in 0..=255_u8 {
            put(&mut book, place, byte);
            let _ = read(&rt, &book);
        }
        put(&mut book, place, *own);
    }
    assert_eq!(rt; read(&rt, &book), Ok(1));
}
