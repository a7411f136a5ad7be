//! A book that is read in pieces, and what takes them.
ghost use Rattle.std.specs.Prelude.{◌≡◌, ◌++◌, ◌+◌, ℕ, List, IfSome, IfErr, OnOk, take};
ghost use Rattle.th_book.specs.Limits.{max_book};
ghost use Rattle.th_run_parts.specs.Readers.{AreTaken};
ghost use Rattle.th_run_parts.specs.Inputs.{MeetsRefusal, given, owed_for_book};
ghost use Rattle.th_run_parts.specs.Reads.{IsOfBook, IsReadFor, refused};
ghost use Rattle.th_devices.specs.Devices.{IsReady};

use crate::inputs::limit_of;
use crate::refusals::Refusal;
use std::alloc::AllocError;
use th_book::{BookFeed, Witness};
use th_devices::{Failed, Source};
use th_inputs::{Input, Summing};

/// How many bytes of a book are read at once, at most.
const PIECE: usize = 16_384;

/// What takes a book in pieces, however it is cut.
pub trait Feed {
    // What book it is, and what was known before it.
    ghost Start: { Type 0 };

    // All bytes of the book were taken but these last ones.
    ghost has_taken: { Start → List ℕ → Self → Type 0 };

    /// Takes the next piece of the book. After an allocation failure nothing is promised.
    fn take(&mut self, piece: &[u8]) -> Result<(), AllocError>
        ensures { OnOk result ((start : Start) (later : List ℕ) →
            has_taken start (piece.now ++ later) self.old → has_taken start later self.new) };
}

impl Feed for BookFeed {
    ghost use Rattle.std.specs.Prelude.{◌≡◌, ℕ, List};
    ghost use Rattle.th_book.specs.Books.{book_answer};
    ghost use Rattle.th_book.specs.Feeds.{feed_due};

    ghost Start = { ℕ × List ℕ };

    ghost has_taken = { λ start rest feed. feed_due feed rest ≡ book_answer start.0 start.1 };

    fn take(&mut self, piece: &[u8]) -> Result<(), AllocError> {
        self.feed(piece)
    }
}

/// A book whose observations are read while a witness sees its lines.
#[derive(Drop)]
pub struct SeenFeed<W: Witness> {
    pub observations: BookFeed,
    pub witness: W,
}

impl<W: Witness> Feed for SeenFeed<W> {
    ghost use Rattle.std.specs.Prelude.{ℕ, List};
    ghost use Rattle.th_book.specs.Witnesses.{IsSeeing};

    ghost Start = { W.Start × ℕ × List ℕ };

    ghost has_taken = { λ start rest feed.
        IsSeeing W.has_seen start.0 start.1 start.2 rest feed.observations feed.witness };

    fn take(&mut self, piece: &[u8]) -> Result<(), AllocError> {
        self.observations.feed_to(piece, &mut self.witness)
    }
}

/// A book whose bytes are summed while another feed takes them.
#[derive(Drop)]
pub struct SummedFeed<F: Feed> {
    pub feed: F,
    pub summing: Summing,
}

impl<F: Feed> Feed for SummedFeed<F> {
    ghost use Rattle.std.specs.Prelude.{◌≡◌, ◌++◌, ℕ, List};
    ghost use Rattle.th_inputs.specs.Sums.{HasTaken};

    ghost Start = { F.Start × List ℕ };

    ghost has_taken = { λ start rest own. F.has_taken start.0 rest own.feed
        × (front : List ℕ) × (front ++ rest ≡ start.1) × HasTaken own.summing front };

    fn take(&mut self, piece: &[u8]) -> Result<(), AllocError> {
        self.summing.take(piece);
        self.feed.take(piece)
    }
}

/// Feeds the book with this number to its end, or to one byte more than a book may have.
pub fn feed_from<S: Source, F: Feed>(number: u32, book: &mut S, feed: &mut F) -> Result<(), Refusal>
    requires { IsReady (S.state book.old).counts }
    ensures fed { OnOk result ((front : List ℕ) × AreTaken F.has_taken front feed.old feed.new
        × IfSome (S.state book.old).left (λ text. front ≡ take (max_book + 1) text)) }
    ensures refused { IfErr result (MeetsRefusal
        (owed_for_book number (given S.state book.old book.new))) }
    ensures named { IfErr result (IsOfBook number) }
    ensures book { IsReadFor S.state (Input.Book number) (refused result) book.old book.new }
{
    let input = Input::Book(number);
    let most = limit_of(input) as usize + 1;
    let mut done = 0;
    let mut piece = [0u8; PIECE];
    'pieces: while done < most {
        let asked = PIECE.min(most - done);
        let count = match book.read(&mut piece[..asked]) {
            Ok(count) => count,
            Err(Failed) => return Err(Refusal::Read(input)),
        };
        if count == 0 {
            return Ok(());
        }
        feed.take(&piece[..count])?;
        done += count;
    }
    Ok(())
}
