//! The notes of books, one by one.
ghost use Rattle.std.specs.Prelude.{◌≡◌, ◌≤◌, ◌++◌, OnOk, length};
ghost use Rattle.th_notes.specs.Findings.{book_lines, line_notes, lines_of, sight_notes, spelling_notes};
ghost use Rattle.th_notes.specs.Limits.{max_reviewed};
ghost use Rattle.th_notes.specs.declared.notes.Note.TheVariants.{Respelled};

use crate::limited::add_rest;
use crate::notes::{Kind, LineKind, Note};
use std::alloc::{AllocError, Global};
use th_entries::{BookReview, Listed, MAX_LISTED, Spelling};

/// Adds a note of each book with blocks and without a sight.
pub(crate) fn add_sight_notes(
    notes: &mut Vec<Note>,
    reviews: &[BookReview],
) -> Result<(), AllocError>
    ensures { OnOk result (notes.new.items ≡ notes.old.items ++ sight_notes reviews.now) }
{
    for review in reviews {
        if let Some(note) = review.no_sight {
            notes.push(Note::NoSight(note))?;
        }
    }
    Ok(())
}

/// Adds a note of each line that is odd in a way: the first ones, and how many more there are.
pub(crate) fn add_line_notes(
    alloc: Global,
    notes: &mut Vec<Note>,
    kind: LineKind,
    reviews: &[BookReview],
) -> Result<(), AllocError>
    requires { length reviews.now ≤ max_reviewed }
    ensures { OnOk result (notes.new.items ≡ notes.old.items ++ line_notes kind reviews.now) }
{
    let mut found = Vec::new(alloc);
    let mut count: u64 = 0;
    for (k, review) in reviews.iter().enumerate() {
        let lines = lines_of(kind, review);
        add_book_lines(&mut found, kind, k as u32 + 1, lines)?;
        count += u64::from(lines.count);
    }
    found.truncate(MAX_LISTED);
    notes.extend_from_slice(&found)?;
    add_rest(notes, Kind::Lines(kind), count)
}

/// The lines of a book that are odd in a way.
fn lines_of(kind: LineKind, review: &BookReview) -> &Listed<u32>
    ensures { result.now ≡ lines_of kind review.now }
{
    match kind {
        LineKind::Lookalike => &review.lookalikes,
        LineKind::OtherHeight => &review.changes,
        LineKind::Direction => &review.directions,
    }
}

/// Adds a note of each line that a book's review lists.
fn add_book_lines(
    notes: &mut Vec<Note>,
    kind: LineKind,
    book: u32,
    lines: &Listed<u32>,
) -> Result<(), AllocError>
    ensures { OnOk result (notes.new.items ≡ notes.old.items ++ book_lines kind book lines.now) }
{
    for line in &lines.first {
        notes.push(Note::Line {
            kind,
            book,
            line: *line,
        })?;
    }
    Ok(())
}

/// Adds a note of each name that is spelled in another way than before, as many as are listed, and how
/// many more there are.
pub(crate) fn add_spelling_notes(
    notes: &mut Vec<Note>,
    spellings: &Listed<Spelling>,
) -> Result<(), AllocError>
    ensures { OnOk result (notes.new.items ≡ notes.old.items ++ spelling_notes spellings.now) }
{
    for spelling in &spellings.first {
        notes.push(spelling_note(spelling))?;
    }
    add_rest(notes, Kind::Spellings, u64::from(spellings.count))
}

/// The note of a name that is spelled in another way than before.
fn spelling_note(spelling: &Spelling) -> Note
    ensures { result ≡ Respelled spelling.now.book spelling.now.line spelling.now.name }
{
    Note::Respelled {
        book: spelling.book,
        line: spelling.line,
        name: spelling.name,
    }
}
