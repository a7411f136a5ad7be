//! The running setup with its last heights, and the sights that are taken from it.
ghost use Rattle.std.specs.Prelude.{◌≡◌, ◌≢◌, ◌≤◌, ℕ, IfOk, unsigned_abs};
ghost use Rattle.th_observations.specs.Observed.{largest_difference};

use crate::entries::Entered;
use crate::faults::BookKind;
use gsi_word::Name;
use th_observations::Observation;
use th_units::Len;

/// The running setup: the name of its station, and the last heights since it began.
#[derive(Clone, Copy, Debug)]
pub struct Setup {
    pub station: Name,
    pub instrument: Option<Len>,
    pub reflector: Option<Len>,
}

/// A sight from a station: the height of the target above it, in units of 10 nm.
#[derive(Clone, Copy, Debug)]
pub(crate) struct Sight {
    pub station: Name,
    pub target: Name,
    pub difference: i64,
    ghost distinct: { station ≢ target },
    ghost in_range: { unsigned_abs difference ≤ largest_difference },
}

impl Setup {
    ghost use Rattle.std.specs.Result.{result_err};
    ghost use Rattle.th_book.specs.Inside.Entries.{setup_at, setup_by, with_entry};
    ghost use Rattle.th_book.specs.Inside.Effects.{IsSeen, sight_fault};

    /// Enters a block into the running setup. The setup that it begins, or the one before, takes
    /// its heights.
    pub fn enter(running: &mut Option<Setup>, entry: &Entered)
        ensures { running.new ≡ setup_by entry.now running.old }
    {
        if let Some(station) = entry.station {
            *running = Some(Setup::at(station));
        }
        if let Some(setup) = running {
            setup.take_heights(entry);
        }
    }

    /// A setup that begins, with no height yet.
    fn at(station: Name) -> Setup
        ensures { result ≡ setup_at station }
    {
        Setup {
            station,
            instrument: None,
            reflector: None,
        }
    }

    /// Takes the heights that a block enters.
    fn take_heights(&mut self, entry: &Entered)
        ensures { self.new ≡ with_entry entry.now self.old }
    {
        if entry.instrument.is_some() {
            self.instrument = entry.instrument;
        }
        if entry.reflector.is_some() {
            self.reflector = entry.reflector;
        }
    }

    /// The sight of a target from the running setup, or the first kind of its faults: word 33 runs
    /// from the tilting axis to the reflector.
    pub(crate) fn sight(
        running: Option<Setup>,
        target: Name,
        sighted: Len,
    ) -> Result<Sight, BookKind>
        ensures fault { result_err result ≡ sight_fault running target }
        ensures seen { IfOk result (IsSeen running target sighted) }
    {
        let setup = running.ok_or(BookKind::SightBeforeSetup)?;
        let instrument = setup.instrument.ok_or(BookKind::NoInstrumentHeight)?;
        let reflector = setup.reflector.ok_or(BookKind::NoReflectorHeight)?;
        if setup.station == target {
            return Err(BookKind::SightToItself);
        }
        Ok(Sight {
            station: setup.station,
            target,
            difference: sighted.get() + instrument.get() - reflector.get(),
        })
    }
}

impl Sight {
    ghost use Rattle.th_book.specs.Inside.Effects.{stamped};

    /// The observation of the sight, at its place: the book's number and the line, both from 1.
    pub fn at(&self, book: u32, line_number: u32) -> Observation
        ensures { result ≡ stamped book line_number self.now }
    {
        Observation {
            station: self.station,
            target: self.target,
            diff: self.difference,
            book,
            line: line_number,
        }
    }
}
