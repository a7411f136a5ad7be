//! A book that is read by lines and in pieces, and goes on where it was after a failed allocation.
use gsi_block::LineCursor;
use std::alloc::Global;
use std::io;
use th_book::{Book, BookFault, BookFeed, BookKind};
use th_observations::Observation;

/// A setup on A, and seven sights to B, of which one is a metre too long.
pub const BOOK: &[u8] =
    b"110001+0000000A 84..10+00000000 85..10+00000000 86..10+00100000 88..10+00001500 \n110002+0000000B 33..00+00002345 87..10+00001300 \n110003+0000000B 33..00+00002345 \n110004+0000000B 33..00+00002345 \n110005+0000000B 33..00+00002346 \n110006+0000000B 33..00+00002347 \n110007+0000000B 33..00+00002347 \n110008+0000000B 33..00+00003345 \n";

/// More lines than the book has.
const MANY_LINES: u32 = 100;

/// How many bytes a piece of the book has.
const PIECE: usize = 48;

/// Takes the lines of the book. A line that wants memory is given again, and the book goes on as if
/// nothing had been refused.
pub fn print_by_lines<R: Print>(rt: &R, alloc: Global) -> io::Result<()> {
    let mut book = Book::new(alloc, 1);
    let mut lines = LineCursor::new(BOOK);
    for _ in 0..MANY_LINES {
        if let Some(line) = lines.next() {
            take_line(rt, &mut book, line)?;
        }
    }
    print_answer(rt, book.finish())
}

/// Gives a book its next line, and gives it again where it wants memory.
fn take_line<R: Print>(rt: &R, book: &mut Book, line: &[u8]) -> io::Result<()> {
    if book.lines() < MANY_LINES && book.line(line).is_err() {
        println!(rt; "Book::line wants memory")?;
    } else {
        return Ok(());
    }
    if book.lines() < MANY_LINES && book.line(line).is_err() {
        println!(rt; "Book::line wants memory again")?;
    }
    Ok(())
}

/// Takes the book in pieces, and once more from its beginning where memory is wanted.
pub fn print_by_pieces<R: Print>(rt: &R, alloc: Global) -> io::Result<()> {
    match feed_pieces(rt, alloc)? {
        Err(
            BookFault {
                kind: BookKind::NoMemory,
                ..
            },
        ) => {
            println!(rt; "BookFeed wants memory")?;
            print_answer(rt, feed_pieces(rt, alloc)?)
        }
        answer => print_answer(rt, answer),
    }
}

/// Takes the book in pieces. After a piece that wants memory each call has to answer that.
fn feed_pieces<R: Print>(rt: &R, alloc: Global) -> io::Result<Result<Vec<Observation>, BookFault>> {
    let mut feed = BookFeed::new(alloc, 1);
    let mut is_wanting = false;
    for piece in BOOK.chunks(PIECE) {
        let is_refused = feed.feed(piece).is_err();
        if is_wanting && !is_refused {
            println!(rt; "BookFeed::feed forgets that it wants memory")?;
        }
        is_wanting = is_refused;
    }
    let answer = feed.finish();
    if is_wanting && answer.is_ok() {
        println!(rt; "BookFeed::finish forgets that it wants memory")?;
    }
    Ok(answer)
}

/// Prints the line and the difference of each observation, or the fault.
fn print_answer<R: Print>(rt: &R, answer: Result<Vec<Observation>, BookFault>) -> io::Result<()> {
    match answer {
        Ok(observations) => {
            for observation in observations.as_slice() {
                println!(rt; "line {} {}", observation.line, observation.diff)?;
            }
            Ok(())
        }
        Err(fault) => {
            println!(rt; "{fault}")?;
            Ok(())
        }
    }
}
