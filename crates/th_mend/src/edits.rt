//! An edit: what a record changes, in a range of lines.
ghost use Rattle.std.specs.Prelude.{◌≡◌, map};
ghost use Rattle.gsi_word.specs.Words.{parts_of};
ghost use Rattle.th_entries.specs.Entries.{index_of};
ghost use Rattle.th_mend.specs.Edits.{clash, covers, index_changed, is_named};

use crate::changes::What;
use gsi_word::{HEIGHT_DIFFERENCE, INSTRUMENT_HEIGHT, POINT_NUMBER, REFLECTOR_HEIGHT};
use th_entries::HeightKind;

/// What a record changes, in each of the lines from one place to another. Places count lines from 0,
/// records from 1.
#[derive(Clone, Copy, Debug)]
pub struct Edit {
    pub row: u32,
    pub what: What,
    pub first: u32,
    pub last: u32,
}

impl Edit {
    /// Whether the edit reaches a place.
    pub(crate) fn covers(&self, place: u32) -> bool
        ensures { result ≡ covers place self.now }
    {
        self.first <= place && place <= self.last
    }

    /// Whether this and another edit change words of one index in one line.
    pub(crate) fn clashes(&self, other: &Edit) -> bool
        ensures { result ≡ clash self.now other.now }
    {
        index_changed(&self.what) == index_changed(&other.what)
            && self.first <= other.last
            && other.first <= self.last
    }
}

/// Whether some edit reaches a place. Where none does, a line stays as it is.
pub fn is_named(edits: &[Edit], place: u32) -> bool
    ensures { result ≡ is_named edits.now place }
{
    let Some((edit, later)) = edits.split_first() else {
        return false;
    };
    edit.covers(place) || is_named(later, place)
}

/// The index of the words that something changes.
pub(crate) fn index_changed(what: &What) -> u8
    ensures { result ≡ index_changed what.now }
{
    match what {
        What::Height(kind, _, _) => index_of(*kind),
        What::Sighted(_) | What::LeftOut | What::OtherSign => HEIGHT_DIFFERENCE,
        What::Target(_) | What::Station(_) => POINT_NUMBER,
    }
}

/// The index of the words that enter a height.
pub(crate) fn index_of(kind: HeightKind) -> u8
    ensures { result ≡ index_of kind }
{
    match kind {
        HeightKind::Reflector => REFLECTOR_HEIGHT,
        HeightKind::Instrument => INSTRUMENT_HEIGHT,
    }
}
