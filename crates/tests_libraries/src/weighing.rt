//! A table of weights from the slope distances of a book: 4000 m divided by the distance.
ghost use Rattle.std.specs.Prelude.{◌≤◌};

use gsi_block::{LineCursor, read_block};
use gsi_word::length_of;
use std::alloc::Global;
use std::io;
use th_book::read_book;
use th_units::Len;

const DISTANCE: u8 = 31; // the word index of slope distances

const FAR: u64 = 400_000_000_000; // 4000 m in units of 10 nm

/// Prints the table of the sights of a book, or the book's fault. A sight without a distance weighs 1.
pub fn print_weights<R: Print>(rt: &R, alloc: Global, book: &[u8]) -> io::Result<()> {
    let sights = match read_book(alloc, 1, book) {
        Ok(sights) => sights,
        Err(fault) => return println!(rt; "book 1 {fault}"),
    };
    println!(rt; "from,to,weight")?;
    let (mut lines, mut passed) = (LineCursor::new(book), 0);
    for sight in sights.as_slice() {
        let mut line = None;
        for _ in passed..sight.line {
            line = lines.next();
        }
        passed = sight.line;
        let weight = line.and_then(distance_in).map_or(1, weight_at);
        println!(rt; "{},{},{weight}", sight.station, sight.target)?;
    }
    Ok(())
}

/// The slope distance of a line.
fn distance_in(line: &[u8]) -> Option<Len> {
    let block = read_block(line).ok()??;
    let word = block.words().iter().find(|word| word.index() == DISTANCE)?;
    length_of(word).ok()
}

/// 4000 m divided by a distance, to the nearest whole number that a table of weights may have.
fn weight_at(distance: Len) -> u64
    ensures least { 1 ≤ result }
    ensures most { result ≤ 1000 }
{
    let units = distance.get().unsigned_abs().max(1);
    ((FAR + units / 2) / units).clamp(1, 1000)
}
