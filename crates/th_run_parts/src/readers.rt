//! What a run reads of its books.
ghost use Rattle.std.specs.Prelude.{◌≡◌, ◌≢◌, ◌∷◌, ◌++◌, ℕ, List, Option, IfErr, IfOk, OnOk, Ok, []};
ghost use Rattle.th_observations.specs.Observed.{Observed};
ghost use Rattle.th_run_parts.specs.Inputs.{Meets, MeetsRefusal, given, owed_for_book};
ghost use Rattle.th_run_parts.specs.Reads.{IsOfBook, IsReadFor, refused};
ghost use Rattle.th_devices.specs.Devices.{IsReady};

use crate::feeds::{SummedFeed, feed_from};
use crate::refusals::Refusal;
use std::alloc::{AllocError, Global};
use th_book::{BookFault, BookFeed, BookKind};
use th_devices::Source;
use th_inputs::{Input, Sum, Summing};
use th_observations::Observation;

/// What reads the books of a run, one after the other: their observations, and what else the run needs.
pub trait BookReader {
    // What is known after the book with this number, whose text is reported or not, and its
    // observations.
    ghost has_read: { ℕ → Option (List ℕ) → List Observed → Self → Self → Type 0 };

    /// The observations of the book with this number, which is read in pieces.
    ///
    /// Only one line of the book is kept, and what the reader collects.
    fn read<S: Source>(
        &mut self,
        alloc: Global,
        number: u32,
        book: &mut S,
    ) -> Result<Vec<Observation>, Refusal>
        requires { IsReady (S.state book.old).counts }
        ensures ok { IfOk result (λ observations.
            Meets (owed_for_book number (given S.state book.old book.new)) (Ok observations.items)) }
        ensures read { IfOk result (λ observations.
            has_read number (S.state book.old).left observations.items self.old self.new) }
        ensures refused { IfErr result (MeetsRefusal
            (owed_for_book number (given S.state book.old book.new))) }
        ensures named { IfErr result (IsOfBook number) }
        ensures book { IsReadFor S.state (Input.Book number) (refused result) book.old book.new };
}

/// Reads the observations of books alone.
#[derive(Drop)]
pub struct ObservationReader;

impl BookReader for ObservationReader {
    ghost use Rattle.std.specs.Prelude.{⊤};

    ghost has_read = { λ number told observations old new. ⊤ };

    fn read<S: Source>(
        &mut self,
        alloc: Global,
        number: u32,
        book: &mut S,
    ) -> Result<Vec<Observation>, Refusal> {
        let mut feed = BookFeed::new(alloc, number);
        feed_from(number, book, &mut feed)?;
        match feed.finish() {
            Ok(observations) => Ok(observations),
            Err(fault) => Err(refusal_of(number, fault)),
        }
    }
}

/// Reads the observations of books, and their sums.
#[derive(Drop)]
pub struct SumReader {
    /// The sums of the books that were read, in their order.
    pub sums: Vec<Sum>,
}

impl SumReader {
    /// No book was read.
    pub fn new(alloc: Global) -> SumReader
        ensures { result.sums.items ≡ [] }
    {
        SumReader {
            sums: Vec::new(alloc),
        }
    }

    /// Puts the sum of the next book behind the others.
    fn add(&mut self, sum: Sum) -> Result<(), AllocError>
        ensures { OnOk result (self.new.sums.items ≡ self.old.sums.items ++ sum ∷ []) }
    {
        self.sums.push(sum)?;
        Ok(())
    }
}

impl BookReader for SumReader {
    ghost use Rattle.th_inputs.specs.declared.inputs.Input.TheVariants.{Book};
    ghost use Rattle.th_run_parts.specs.Summed.{IsSummedNext};

    ghost has_read = { λ number told observations old new.
        IsSummedNext (Book number) told old.sums.items new.sums.items };

    fn read<S: Source>(
        &mut self,
        alloc: Global,
        number: u32,
        book: &mut S,
    ) -> Result<Vec<Observation>, Refusal> {
        let mut feed = SummedFeed {
            feed: BookFeed::new(alloc, number),
            summing: Summing::new(),
        };
        feed_from(number, book, &mut feed)?;
        let SummedFeed { feed, summing } = feed;
        match feed.finish() {
            Ok(observations) => {
                self.add(summing.finish(Input::Book(number)))?;
                Ok(observations)
            }
            Err(fault) => Err(refusal_of(number, fault)),
        }
    }
}

/// The refusal for a fault of the book with this number.
pub fn refusal_of(number: u32, fault: BookFault) -> Refusal
    ensures memory { fault.kind ≡ BookKind.NoMemory → result ≡ Refusal.NoMemory }
    ensures book { fault.kind ≢ BookKind.NoMemory → result ≡ Refusal.Book number fault }
    ensures named { IsOfBook number result }
{
    match fault.kind {
        BookKind::NoMemory => Refusal::NoMemory,
        _ => Refusal::Book(number, fault),
    }
}
