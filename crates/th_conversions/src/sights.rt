//! Which blocks of a book with heights are sights, and what is wrong with a block.
ghost use Rattle.std.specs.Prelude.{◌≡◌, map};
ghost use Rattle.gsi_word.specs.Words.{parts_of};
ghost use Rattle.gsi_word.specs.Values.{length_of as length_of_parts};
ghost use Rattle.th_book.specs.Faults.{is_refused};
ghost use Rattle.th_book.specs.Lines.{is_setup, is_sight, length_in};
ghost use Rattle.th_conversions.specs.Sights.{height_fault, is_height, is_height_sight, is_measured, repeats, some_height};

use crate::height_faults::HeightKind;
use gsi_word::{
    HEIGHT_DIFFERENCE, HORIZONTAL_ANGLE, HORIZONTAL_DISTANCE, INSTRUMENT_HEIGHT, LengthFault,
    REFLECTOR_HEIGHT, SLOPE_DISTANCE, STATION_EASTING, STATION_HEIGHT, STATION_NORTHING,
    TARGET_HEIGHT, VERTICAL_ANGLE, Word, length_of,
};
use th_book::BookKind;
use th_mend::{counts_for, holds};
use th_units::Len;

/// Whether two words count for an index.
fn repeats(index: u8, words: &[Word<'_>]) -> bool
    ensures { result ≡ repeats index (map parts_of words.now) }
{
    let Some((word, later)) = words.split_first() else {
        return false;
    };
    if counts_for(index, word) {
        holds(index, later)
    } else {
        repeats(index, later)
    }
}

/// The length of the first word that counts for an index, if it can be read.
pub(crate) fn length_in(index: u8, words: &[Word<'_>]) -> Option<Len>
    ensures { result ≡ length_in index (map parts_of words.now) }
{
    let (word, later) = words.split_first()?;
    if counts_for(index, word) {
        length_of(word).ok()
    } else {
        length_in(index, later)
    }
}

/// Whether a block without a word 33 begins a setup.
pub(crate) fn is_setup(words: &[Word<'_>]) -> bool
    ensures { result ≡ is_setup (map parts_of words.now) }
{
    !holds(HEIGHT_DIFFERENCE, words)
        && (holds(STATION_EASTING, words)
            || holds(STATION_NORTHING, words)
            || holds(STATION_HEIGHT, words))
}

/// Whether a block is a height sight.
pub(crate) fn is_height_sight(words: &[Word<'_>]) -> bool
    ensures { result ≡ is_height_sight (map parts_of words.now) }
{
    holds(TARGET_HEIGHT, words) && is_measured(words)
}

/// Whether something was measured in a block.
fn is_measured(words: &[Word<'_>]) -> bool
    ensures { result ≡ is_measured (map parts_of words.now) }
{
    holds(HORIZONTAL_ANGLE, words)
        || holds(VERTICAL_ANGLE, words)
        || holds(SLOPE_DISTANCE, words)
        || holds(HORIZONTAL_DISTANCE, words)
}

/// The first kind of fault that a block of a book with heights has, beside those of a book.
pub(crate) fn height_fault(words: &[Word<'_>]) -> Option<HeightKind>
    ensures { result ≡ height_fault (map parts_of words.now) }
{
    if holds(HEIGHT_DIFFERENCE, words) {
        return Some(HeightKind::HasDifference);
    }
    if is_height_sight(words) && repeats(TARGET_HEIGHT, words) {
        return Some(HeightKind::Book(BookKind::RepeatedWord));
    }
    if some_height(LengthFault::BadNumber, words) {
        return Some(HeightKind::Book(BookKind::BadNumber));
    }
    if some_height(LengthFault::BadUnit, words) {
        return Some(HeightKind::Book(BookKind::BadUnit));
    }
    if some_height(LengthFault::TooLarge, words) {
        return Some(HeightKind::Book(BookKind::TooLarge));
    }
    None
}

/// Whether some height of a block is refused with this fault.
fn some_height(fault: LengthFault, words: &[Word<'_>]) -> bool
    ensures { result ≡ some_height fault (map parts_of words.now) }
{
    let Some((word, later)) = words.split_first() else {
        return false;
    };
    (is_height(word) && is_refused(fault, word)) || some_height(fault, later)
}

/// Whether a word counts for a height: of a target, of a station, of a reflector or of an instrument.
fn is_height(word: &Word<'_>) -> bool
    ensures { result ≡ is_height (parts_of word.now) }
{
    counts_for(TARGET_HEIGHT, word)
        || counts_for(STATION_HEIGHT, word)
        || counts_for(REFLECTOR_HEIGHT, word)
        || counts_for(INSTRUMENT_HEIGHT, word)
}

/// Whether the length of a word is refused with this fault.
fn is_refused(fault: LengthFault, word: &Word<'_>) -> bool
    ensures { result ≡ is_refused fault (length_of_parts (parts_of word.now)) }
{
    match (length_of(word), fault) {
        (Err(LengthFault::BadNumber), LengthFault::BadNumber)
        | (Err(LengthFault::BadUnit), LengthFault::BadUnit)
        | (Err(LengthFault::TooLarge), LengthFault::TooLarge) => true,
        _ => false,
    }
}
