//! What a run notes beside its outputs.
ghost use Rattle.std.specs.Prelude.{◌≡◌, ◌++◌, OnOk, option_to_list};
ghost use Rattle.th_runs.specs.Noted.{AreNone};

use std::alloc::{AllocError, Global};
use th_book::BookFeed;
use th_devices::Source;
use th_entries::{NoSight, SightWatch};
use th_observations::Observation;
use th_remarks::Remarks;
use th_run_parts::{BookReader, Refusal, SeenFeed, feed_from, refusal_of};

/// What a surveyor should know of a run that was not refused, though no output shows it.
#[derive(Drop)]
pub struct Notes {
    /// The books that have blocks and no sight, in their order.
    pub books: Vec<NoSight>,
    /// What is remarked on the survey.
    pub remarks: Remarks,
}

impl Notes {
    /// Nothing is noted yet.
    pub fn new(alloc: Global) -> Notes
        ensures { AreNone result }
    {
        Notes {
            books: Vec::new(alloc),
            remarks: Remarks::none(alloc),
        }
    }

    /// Notes the next book, if it has no sight.
    fn add(&mut self, note: Option<NoSight>) -> Result<(), AllocError>
        ensures books { OnOk result (self.new.books.items ≡ self.old.books.items ++ option_to_list note) }
        ensures remarks { self.new.remarks ≡ self.old.remarks }
    {
        if let Some(note) = note {
            self.books.push(note)?;
        }
        Ok(())
    }
}

/// Reads the observations of books, and notes those without a sight.
impl BookReader for Notes {
    ghost use Rattle.th_runs.specs.Inside.Readers.{IsNotedNext};

    ghost has_read = { λ number told observations old new. IsNotedNext number told old new };

    fn read<S: Source>(
        &mut self,
        alloc: Global,
        number: u32,
        book: &mut S,
    ) -> Result<Vec<Observation>, Refusal> {
        let mut feed = SeenFeed {
            observations: BookFeed::new(alloc, number),
            witness: SightWatch::new(),
        };
        feed_from(number, book, &mut feed)?;
        let SeenFeed {
            observations,
            mut witness,
        } = feed;
        match observations.finish_to(&mut witness) {
            Ok(observations) => {
                self.add(witness.note(number))?;
                Ok(observations)
            }
            Err(fault) => Err(refusal_of(number, fault)),
        }
    }
}
