//! What is read of books beside their observations, for a review, and their sums.
ghost use Rattle.std.specs.Prelude.{◌≡◌, ◌∷◌, ◌++◌, [], IfOk, OnOk};
ghost use Rattle.th_runs.specs.Inside.Readers.{IsAdded};
ghost use Rattle.th_runs.specs.Reviewed.{IsNewReader};

use std::alloc::{AllocError, Global};
use std::mem;
use th_book::BookFeed;
use th_devices::Source;
use th_entries::{BookReview, SeenNames, Tally};
use th_inputs::{Input, Sum, Summing};
use th_observations::Observation;
use th_run_parts::{BookReader, Refusal, SeenFeed, SummedFeed, feed_from, refusal_of};

/// Reads the review of each book beside its observations, and its sum.
#[derive(Drop)]
pub struct ReviewReader {
    /// The reviews of the books that were read, in their order.
    pub reviews: Vec<BookReview>,
    /// The names that these books mention.
    pub names: SeenNames,
    /// The sums of these books.
    pub sums: Vec<Sum>,
}

impl ReviewReader {
    /// No book was read.
    pub fn new(alloc: Global) -> ReviewReader
        ensures { IsNewReader result }
    {
        ReviewReader {
            reviews: Vec::new(alloc),
            names: SeenNames::new(alloc),
            sums: Vec::new(alloc),
        }
    }

    /// Puts the review and the sum of the next book, which has no fault, behind the others.
    fn add(&mut self, tally: Tally, sum: Sum) -> Result<(), AllocError>
        ensures added { OnOk result (IsAdded tally self.old.reviews.items self.new.reviews.items self.new.names) }
        ensures summed { OnOk result (self.new.sums.items ≡ self.old.sums.items ++ sum ∷ []) }
    {
        let (review, names) = tally.review()?;
        self.reviews.push(review)?;
        self.sums.push(sum)?;
        self.names = names;
        Ok(())
    }
}

impl BookReader for ReviewReader {
    ghost use Rattle.th_runs.specs.Inside.Readers.{IsReviewedNext};

    ghost has_read = { λ number told observations old new.
        IsReviewedNext number told observations old.reviews.items new.reviews.items old.names new.names
        old.sums.items new.sums.items };

    fn read<S: Source>(
        &mut self,
        alloc: Global,
        number: u32,
        book: &mut S,
    ) -> Result<Vec<Observation>, Refusal> {
        let names = mem::replace(&mut self.names, SeenNames::new(alloc));
        let mut feed = SummedFeed {
            feed: SeenFeed {
                observations: BookFeed::new(alloc, number),
                witness: Tally::new(alloc, number, names),
            },
            summing: Summing::new(),
        };
        feed_from(number, book, &mut feed)?;
        let SummedFeed { feed, summing } = feed;
        let SeenFeed {
            observations,
            mut witness,
        } = feed;
        match observations.finish_to(&mut witness) {
            Ok(observations) => {
                self.add(witness, summing.finish(Input::Book(number)))?;
                Ok(observations)
            }
            Err(fault) => Err(refusal_of(number, fault)),
        }
    }
}

/// The sums of the inputs of a run: those of its books, and then those of its tables.
pub(crate) fn all_sums(
    alloc: Global,
    of_books: &[Sum],
    of_tables: &[Sum],
) -> Result<Vec<Sum>, AllocError>
    ensures { IfOk result (λ sums. sums.items ≡ of_books.now ++ of_tables.now) }
{
    let mut sums = Vec::from_slice(alloc, of_books)?;
    sums.extend_from_slice(of_tables)?;
    Ok(sums)
}
