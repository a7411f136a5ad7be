//! The heights that run at a line.
ghost use Rattle.std.specs.Prelude.{◌≡◌, map};
ghost use Rattle.gsi_word.specs.Words.{parts_of};
ghost use Rattle.th_book.specs.Due.{latest};

use crate::sights::{is_setup, length_in};
use gsi_word::{INSTRUMENT_HEIGHT, REFLECTOR_HEIGHT, STATION_HEIGHT, Word};
use th_mend::holds;
use th_units::Len;

/// The heights of the running setup: of its station, and the last ones of instrument and reflector.
#[derive(Clone, Copy, Debug)]
pub(crate) struct Running {
    pub(crate) station: Option<Len>,
    pub(crate) instrument: Option<Len>,
    pub(crate) reflector: Option<Len>,
}

impl Running {
    ghost use Rattle.th_conversions.specs.Running.{begun, running_after, with_heights};

    /// The setup that a block begins, with no height of instrument or reflector yet.
    fn begun(words: &[Word<'_>]) -> Running
        ensures { result ≡ begun (map parts_of words.now) }
    {
        Running {
            station: length_in(STATION_HEIGHT, words),
            instrument: None,
            reflector: None,
        }
    }

    /// The setup with the heights of a block.
    pub(crate) fn with_heights(&self, words: &[Word<'_>]) -> Running
        ensures { result ≡ with_heights (map parts_of words.now) self.now }
    {
        Running {
            station: self.station,
            instrument: latest(INSTRUMENT_HEIGHT, words, self.instrument),
            reflector: latest(REFLECTOR_HEIGHT, words, self.reflector),
        }
    }

    /// The running setup after a block that is no sight.
    pub(crate) fn after(running: &Option<Running>, words: &[Word<'_>]) -> Option<Running>
        ensures { result ≡ running_after running.now (map parts_of words.now) }
    {
        if is_setup(words) {
            return Some(Running::begun(words).with_heights(words));
        }
        match running {
            Some(setup) => Some(setup.with_heights(words)),
            None => None,
        }
    }
}

/// A height after a block: the one that it holds, or else the previous one.
fn latest(index: u8, words: &[Word<'_>], before: Option<Len>) -> Option<Len>
    ensures { result ≡ latest index (map parts_of words.now) before }
{
    if holds(index, words) {
        length_in(index, words)
    } else {
        before
    }
}
