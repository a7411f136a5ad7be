//! Which words a block has: counting words of an index, of a sight and of a setup.
ghost use Rattle.std.specs.Prelude.{◌≡◌, map};
ghost use Rattle.gsi_word.specs.Words.{parts_of};
ghost use Rattle.th_book.specs.Lines.{is_setup, is_sight};
ghost use Rattle.th_mend.specs.Reached.{has_coordinate};

use crate::counting::holds;
use gsi_word::{HEIGHT_DIFFERENCE, STATION_EASTING, STATION_HEIGHT, STATION_NORTHING, Word};

/// Whether a block is a sight.
pub(crate) fn is_sight(words: &[Word<'_>]) -> bool
    ensures { result ≡ is_sight (map parts_of words.now) }
{
    holds(HEIGHT_DIFFERENCE, words)
}

/// Whether a block has a coordinate of the station.
pub(crate) fn has_coordinate(words: &[Word<'_>]) -> bool
    ensures { result ≡ has_coordinate (map parts_of words.now) }
{
    holds(STATION_EASTING, words) || holds(STATION_NORTHING, words) || holds(STATION_HEIGHT, words)
}

/// Whether a block is a setup.
pub(crate) fn is_setup(words: &[Word<'_>]) -> bool
    ensures { result ≡ is_setup (map parts_of words.now) }
{
    !is_sight(words) && has_coordinate(words)
}
