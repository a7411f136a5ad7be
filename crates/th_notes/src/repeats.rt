//! The notes of books with the same observations as an earlier one.
ghost use Rattle.std.specs.Prelude.{◌≡◌, ◌==◌, ◌≤◌, ◌++◌, IfOk, None, OnOk, if◌then◌else◌, length, map, option_map};
ghost use Rattle.th_notes.specs.Books.{counts_of_books};
ghost use Rattle.th_notes.specs.Findings.{same_notes};
ghost use Rattle.th_notes.specs.Limits.{max_reviewed};
ghost use Rattle.th_notes.specs.Repeats.{are_same, first_same, observations_in, says_same};
ghost use Rattle.th_notes.specs.declared.notes.Note.TheVariants.{SameObservations};

use crate::notes::Note;
use std::alloc::{AllocError, Global};
use th_entries::{BookCount, BookReview};
use th_observations::Observation;

/// Adds a note of each book with a sight that has the same observations as an earlier one.
///
/// The time is that of a pass over the observations for each book, and of comparing each two books.
pub(crate) fn add_same_notes(
    alloc: Global,
    notes: &mut Vec<Note>,
    observations: &[Observation],
    reviews: &[BookReview],
) -> Result<(), AllocError>
    requires { length reviews.now ≤ max_reviewed }
    ensures { OnOk result (notes.new.items
        ≡ notes.old.items ++ same_notes observations.now (counts_of_books reviews.now)) }
{
    let mut earlier = Vec::new(alloc);
    for (k, review) in reviews.iter().enumerate() {
        let book = k as u32 + 1;
        let own = observations_in(alloc, observations, book)?;
        if let Some(note) = same_note(book, &review.counts, &earlier, &own) {
            notes.push(note)?;
        }
        earlier.push(own)?;
    }
    Ok(())
}

/// The observations of a book.
fn observations_in(
    alloc: Global,
    observations: &[Observation],
    book: u32,
) -> Result<Vec<Observation>, AllocError>
    ensures { IfOk result (λ own. own.items ≡ observations_in observations.now book) }
{
    let mut own = Vec::new(alloc);
    for o in observations {
        if o.book == book {
            own.push(*o)?;
        }
    }
    Ok(own)
}

/// The note of a book with these observations, if it has a sight and an earlier book has the same.
fn same_note(
    book: u32,
    count: &BookCount,
    earlier: &[Vec<Observation>],
    own: &[Observation],
) -> Option<Note>
    requires { length earlier.now ≤ max_reviewed }
    ensures { result ≡ (if count.now.sights == 0 then None
        else option_map (λ number. SameObservations book number)
        (first_same (map (λ book. book.items) earlier.now) own.now)) }
{
    if count.sights == 0 {
        return None;
    }
    match first_same(earlier, own) {
        Some(earlier) => Some(Note::SameObservations { book, earlier }),
        None => None,
    }
}

/// The number, from 1, of the first book with the same observations as another.
fn first_same(books: &[Vec<Observation>], own: &[Observation]) -> Option<u32>
    requires { length books.now ≤ max_reviewed }
    ensures { result ≡ first_same (map (λ book. book.items) books.now) own.now }
{
    for (k, earlier) in books.iter().enumerate() {
        if are_same(earlier, own) {
            return Some(k as u32 + 1);
        }
    }
    None
}

/// Whether there are as many observations, and the same in the same order.
fn are_same(observations: &[Observation], others: &[Observation]) -> bool
    ensures { result ≡ are_same observations.now others.now }
{
    if observations.len() != others.len() {
        return false;
    }
    for (k, o) in observations.iter().enumerate() {
        if !says_same(o, &others[k]) {
            return false;
        }
    }
    true
}

/// Whether two observations have the same station, the same target and the same difference.
fn says_same(o: &Observation, other: &Observation) -> bool
    ensures { result ≡ says_same o.now other.now }
{
    o.station == other.station && o.target == other.target && o.diff == other.diff
}
