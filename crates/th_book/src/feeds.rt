//! Books by pieces of their bytes, which may end anywhere in a line.
ghost use Rattle.std.specs.Prelude.{◌≡◌, ◌≢◌, ◌<◌, ◌≤◌, ◌+◌, ◌++◌, [], List, ℕ, None, drop, length, take, IfErr, IfOk, IfSome, IsErr, OnErr, OnOk, OnSome};
ghost use Rattle.gsi_block.specs.Pieces.{lines_due};
ghost use Rattle.th_book.specs.Books.{book_answer, parsed_of, too_long};
ghost use Rattle.th_book.specs.Limits.{max_book};
ghost use Rattle.th_book.specs.Due.{EndsWithSight, IsWanting};
ghost use Rattle.th_book.specs.Feeds.{feed_due, IsFed, IsFinished, IsWantingIn, StopsAt};
ghost use Rattle.th_book.specs.Inside.Feeds.{AreTaken, IsGiven};
ghost use Rattle.th_book.specs.Inside.Witnesses.{AreSeen, IsSeenNext};
ghost use Rattle.th_book.specs.Witnesses.{IsReadTo, IsSeeing};

use crate::books::Book;
use crate::faults::{BookFault, BookKind};
use crate::limits::MAX_BOOK;
use crate::witnesses::Witness;
use arrayvec::ArrayVec;
use gsi_block::laws::cut_line_is_read_as_its_line;
use gsi_block::{Lines, MAX_WORDS};
use gsi_word::Word;
use std::alloc::{AllocError, Global};
use std::marker::Model;
use th_observations::Observation;

/// A book that comes in pieces of any size. It keeps one line, and what a `Book` keeps.
///
/// It returns what `read_book` returns for the joined pieces.
#[derive(Drop)]
pub struct BookFeed {
    book: Book,
    lines: Lines,
    bytes: usize,
    wanting: Option<BookFault>,
}

impl Model for BookFeed {
    ghost use Rattle.th_book.specs.Feeds.{FeedState, IsWithin};

    ghost Value = { FeedState };

    ghost view = { λ f. record { book = f.book; lines = f.lines; bytes = f.bytes; wanting = f.wanting } };

    ghost invariant = { λ f. IsWithin (record { book = f.book; lines = f.lines; bytes = f.bytes; wanting = f.wanting }) };
}

impl BookFeed {
    /// A book with its number, from 1, before its first byte.
    pub fn new(alloc: Global, book: u32) -> BookFeed
        ensures owes { (bytes : List ℕ) → feed_due result bytes ≡ book_answer book bytes }
        ensures begins { (bytes : List ℕ) → IsReadTo book (parsed_of bytes) 0 result.book result.lines bytes }
        ensures wanting { result.wanting ≡ None }
    {
        cut_line_is_read_as_its_line();
        BookFeed {
            book: Book::new(alloc, book),
            lines: Lines::new(),
            bytes: 0,
            wanting: None,
        }
    }

    /// Takes the next piece of the book.
    ///
    /// A fault of the book is kept for `finish`, since a book that is too long has that fault
    /// before all others. The call fails if an observation cannot be allocated, and so does each
    /// later call.
    pub fn feed(&mut self, piece: &[u8]) -> Result<(), AllocError>
        ensures fed { OnOk result (IsFed self.old self.new piece.now) }
        ensures wanting { OnErr result (StopsAt self.old self.new piece.now) }
        ensures lasting { OnSome self.old.wanting (IsErr result) }
    {
        self.feed_to(piece, &mut ())
    }

    /// Takes the next piece of the book, as `feed` does, and a witness sees its lines.
    pub fn feed_to<W: Witness>(&mut self, piece: &[u8], witness: &mut W) -> Result<(), AllocError>
        ensures fed { OnOk result (IsFed self.old self.new piece.now) }
        ensures seen { OnOk result ((start : W.Start) (number : ℕ) (text later : List ℕ) →
            IsSeeing W.has_seen start number text (piece.now ++ later) self.old witness.old →
            IsSeeing W.has_seen start number text later self.new witness.new) }
        ensures wanting { OnErr result (StopsAt self.old self.new piece.now) }
        ensures lasting { OnSome self.old.wanting (IsErr result) }
    {
        if self.wanting.is_some() {
            return Err(AllocError);
        }
        self.bytes = self.bytes.saturating_add(piece.len());
        if self.bytes > MAX_BOOK {
            return Ok(());
        }
        match take_lines(&mut self.book, &mut self.lines, piece, witness) {
            Ok(()) => Ok(()),
            Err(fault) => {
                self.wanting = Some(fault);
                Err(AllocError)
            }
        }
    }

    /// The observations in the order of their sights, or the fault of the book.
    ///
    /// `NoMemory` if an earlier call failed, or if the observation of a last line without an end
    /// cannot be allocated.
    pub fn finish(self) -> Result<Vec<Observation>, BookFault>
        ensures { IsFinished self result }
    {
        self.finish_to(&mut ())
    }

    /// The observations or the fault of the book, as of `finish`. A witness sees the last line if it has no end.
    pub fn finish_to<W: Witness>(self, witness: &mut W) -> Result<Vec<Observation>, BookFault>
        ensures finished { IsFinished self result }
        ensures seen { OnOk result ((start : W.Start) (number : ℕ) (text : List ℕ) →
            IsSeeing W.has_seen start number text [] self witness.old →
            W.has_seen start number (parsed_of text) (length (parsed_of text)) witness.new) }
    {
        let BookFeed {
            mut book,
            lines,
            bytes,
            wanting,
        } = self;
        if let Some(fault) = wanting {
            return Err(fault);
        }
        if bytes > MAX_BOOK {
            return Err(BookFault {
                line: 0,
                kind: BookKind::BookTooLong,
            });
        }
        if let Some(line) = lines.finish() {
            book.read(line, &mut ArrayVec::new(), witness)?;
        }
        book.finish()
    }
}

/// Gives a book each line that ends in a piece. Most lines lie whole in the piece that ends them: there
/// the words borrow from the piece, and one array serves for all of them.
fn take_lines<W: Witness>(
    book: &mut Book,
    lines: &mut Lines,
    piece: &[u8],
    witness: &mut W,
) -> Result<(), BookFault>
    requires { book.old.lines + length (lines_due lines.old piece.now) ≤ max_book }
    ensures taken { OnOk result (AreTaken book.old lines.old book.new lines.new piece.now) }
    ensures seen { OnOk result (AreSeen W.has_seen
        book.old lines.old piece.now witness.old book.new lines.new [] witness.new) }
    ensures wanting { IfErr result (IsWantingIn book.old lines.old book.new lines.new piece.now) }
{
    let mut words = ArrayVec::new();
    let mut rest = piece;
    'pieces: while !rest.is_empty() {
        let taken = if let Some((line, taken)) = lines.take_whole(rest) {
            if line.is_empty() {
                book.pass_empty(witness);
            } else {
                give(book, line, &mut words, witness)?;
            }
            taken
        } else {
            take_part(book, lines, rest, witness)?
        };
        (_, rest) = rest.split_at(taken);
    }
    Ok(())
}

// Not inlined, so that the loop over whole lines is short.
/// Gives a book the line that ends first in a piece, if one does. Returns how many bytes it took, which
/// are all if none does.
#[inline(never)]
fn take_part<W: Witness>(
    book: &mut Book,
    lines: &mut Lines,
    piece: &[u8],
    witness: &mut W,
) -> Result<usize, BookFault>
    requires { book.old.lines + length (lines_due lines.old piece.now) ≤ max_book }
    ensures within { IfOk result (λ count. count ≤ length piece.now) }
    ensures some { IfOk result (λ count. 0 < length piece.now → 0 < count) }
    ensures taken { IfOk result (λ count.
        AreTaken book.old lines.old book.new lines.new (take count piece.now)) }
    ensures seen { IfOk result (λ count. AreSeen W.has_seen
        book.old lines.old piece.now witness.old book.new lines.new (drop count piece.now) witness.new) }
    ensures wanting { IfErr result (IsWantingIn book.old lines.old book.new lines.new piece.now) }
{
    let (taken, complete) = lines.take(piece);
    if complete {
        give(book, lines.line(), &mut ArrayVec::new(), witness)?;
    }
    Ok(taken)
}

/// Gives a book its next line. A fault other than `NoMemory` stays in the book.
fn give<'a, W: Witness>(
    book: &mut Book,
    line: &'a [u8],
    words: &mut ArrayVec<Word<'a>, MAX_WORDS>,
    witness: &mut W,
) -> Result<(), BookFault>
    requires { book.old.lines < max_book }
    ensures given { OnOk result (IsGiven book.old book.new line.now) }
    ensures seen { OnOk result (IsSeenNext W.has_seen book.old book.new line.now witness.old witness.new) }
    ensures kind { IfErr result (λ fault. fault.kind ≡ BookKind.NoMemory) }
    ensures wanting { IfErr result (IsWanting book.old book.new line.now) }
{
    match book.read(line, words, witness) {
        Ok(()) => Ok(()),
        Err(fault) => match fault.kind {
            BookKind::NoMemory => Err(fault),
            _ => Ok(()),
        },
    }
}
