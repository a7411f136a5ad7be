//! The books that have a sight.
ghost use Rattle.std.specs.Prelude.{◌≡◌, ◌≤◌, ◌++◌, IfOk, OnOk, length};
ghost use Rattle.th_limits.specs.Limits.{max_books};
ghost use Rattle.th_numbers.specs.Lists.{book_at, books_of};

use std::alloc::{AllocError, Global};
use th_entries::BookReview;

/// A book that has a sight, with its number from 1.
#[derive(Clone, Copy, Debug)]
pub struct SightedBook {
    pub number: u32,
    pub sights: u32,
}

/// The books that have a sight, in order.
pub fn books_of(alloc: Global, reviews: &[BookReview]) -> Result<Vec<SightedBook>, AllocError>
    requires { length reviews.now ≤ max_books }
    ensures { IfOk result (λ books. books.items ≡ books_of reviews.now) }
{
    let mut books = Vec::new(alloc);
    for (place, review) in reviews.iter().enumerate() {
        add_if_sighted(&mut books, place as u32 + 1, review)?;
    }
    Ok(books)
}

/// Adds the book with this number if it has a sight.
fn add_if_sighted(
    books: &mut Vec<SightedBook>,
    number: u32,
    review: &BookReview,
) -> Result<(), AllocError>
    ensures { OnOk result (books.new.items ≡ books.old.items ++ book_at (number, review.now)) }
{
    let sights = review.counts.sights;
    if sights != 0 {
        books.push(SightedBook { number, sights })?;
    }
    Ok(())
}
