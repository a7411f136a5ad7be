//! The table of books.
ghost use Rattle.std.specs.Prelude.{◌≡◌, ◌++◌, OnOk};
ghost use Rattle.std.specs.List.{enumerate_from, flat_map};
ghost use Rattle.th_notes.specs.Books.{counts_of_books};
ghost use Rattle.th_review_texts.specs.Reviews.{book_columns, book_line, book_lines};

use itoa::Buffer;
use std::alloc::AllocError;
use th_columns::Page;
use th_entries::{BookCount, BookReview};

/// Writes the table of books.
#[tactic(auto, unfolding(crate::specs::Reviews::book_lines))]
pub(crate) fn write_books(page: &mut Page, reviews: &[BookReview]) -> Result<(), AllocError>
    ensures { OnOk result (page.new ≡ page.old ++ book_lines (counts_of_books reviews.now)) }
{
    write_columns(page, b"BK", b"LINES", b"BLOCKS", b"SETUPS", b"SIGHTS")?;
    write_rows(page, reviews)
}

/// Writes the line of each book.
fn write_rows(page: &mut Page, reviews: &[BookReview]) -> Result<(), AllocError>
    ensures { OnOk result (page.new ≡ page.old ++ flat_map book_line (enumerate_from 1 (counts_of_books reviews.now))) }
{
    for (k, review) in reviews.iter().enumerate() {
        write_book(page, k as u64 + 1, &review.counts)?;
    }
    Ok(())
}

/// Writes the line of a book with its number.
#[tactic(auto, unfolding(crate::specs::Reviews::book_line))]
fn write_book(page: &mut Page, number: u64, count: &BookCount) -> Result<(), AllocError>
    ensures { OnOk result (page.new ≡ page.old ++ book_line (number, count.now)) }
{
    let mut digits = Buffer::new();
    let mut lines = Buffer::new();
    let mut blocks = Buffer::new();
    let mut setups = Buffer::new();
    let mut sights = Buffer::new();
    write_columns(
        page,
        digits.format(number).as_bytes(),
        lines.format(count.lines).as_bytes(),
        blocks.format(count.blocks).as_bytes(),
        setups.format(count.setups).as_bytes(),
        sights.format(count.sights).as_bytes(),
    )
}

/// Writes the columns of books.
#[tactic(auto, unfolding(crate::specs::Reviews::book_columns))]
fn write_columns(
    page: &mut Page,
    number: &[u8],
    lines: &[u8],
    blocks: &[u8],
    setups: &[u8],
    sights: &[u8],
) -> Result<(), AllocError>
    ensures { OnOk result (page.new
        ≡ page.old ++ book_columns number.now lines.now blocks.now setups.now sights.now) }
{
    page.right(2, number)?;
    page.gap_right(8, lines)?;
    page.gap_right(8, blocks)?;
    page.gap_right(8, setups)?;
    page.gap_right(8, sights)?;
    page.end_line()
}
