//! The entries of all books, and their sights.
ghost use Rattle.std.specs.Prelude.{◌≡◌, IfOk};
ghost use Rattle.th_review_rows.specs.Entries.{entries_of, sights_of};

use std::alloc::{AllocError, Global};
use th_entries::{BookReview, Entry};
use th_reliability::Sights;

/// The entries of all books, in the order of books.
pub fn entries_of(alloc: Global, reviews: &[BookReview]) -> Result<Vec<Entry>, AllocError>
    ensures { IfOk result (λ entries. entries.items ≡ entries_of reviews.now) }
{
    let mut entries = Vec::new(alloc);
    for review in reviews {
        entries.extend_from_slice(&review.entries)?;
    }
    Ok(entries)
}

/// The sights that use an entry.
pub fn sights_of(entry: &Entry) -> Sights
    ensures { result ≡ sights_of entry.now }
{
    Sights {
        book: entry.book,
        first: entry.line,
        last: entry.last,
    }
}
