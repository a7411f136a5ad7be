//! The counting words of a block: which it has, whether one is repeated, and defects of lengths.
ghost use Rattle.std.specs.Prelude.{◌≡◌, ◌↔◌, IsTrue, map};
ghost use Rattle.gsi_word.specs.Words.{parts_of};

use crate::faults::BookKind;
use gsi_word::{
    HEIGHT_DIFFERENCE, INSTRUMENT_HEIGHT, LengthFault, REFLECTOR_HEIGHT, STATION_EASTING,
    STATION_HEIGHT, STATION_NORTHING, Word, length_of, two_digit,
};
use th_units::Len;

/// The counting words of a block. For each index with a length: the length of its first word, or why
/// that is refused. For the others: whether the block has them. Also whether an index is repeated,
/// and which defects the lengths have.
#[derive(Clone, Copy, Debug)]
pub(crate) struct Counted {
    pub sighted: Option<Result<Len, LengthFault>>,
    pub easting: bool,
    pub northing: bool,
    pub height: bool,
    pub reflector: Option<Result<Len, LengthFault>>,
    pub instrument: Option<Result<Len, LengthFault>>,
    pub repeated: bool,
    pub bad_number: bool,
    pub bad_unit: bool,
    pub too_large: bool,
}

impl Counted {
    ghost use Rattle.std.specs.Result.{result_err};
    ghost use Rattle.gsi_word.specs.Values.{length_of};
    ghost use Rattle.th_book.specs.Inside.Countings.{counted_fault, counted_in, counted_with, counts_setup, counts_sight, nothing_counted, with_defect};

    /// What is counted before the first word.
    #[inline(always)]
    pub fn nothing() -> Counted
        ensures { result ≡ nothing_counted }
    {
        Counted {
            sighted: None,
            easting: false,
            northing: false,
            height: false,
            reflector: None,
            instrument: None,
            repeated: false,
            bad_number: false,
            bad_unit: false,
            too_large: false,
        }
    }

    // Not inlined: readers with different witnesses call it.
    /// Counts the words of a block, where nothing was counted before.
    #[inline(never)]
    pub fn count(&mut self, words: &[Word<'_>])
        requires { self.old ≡ nothing_counted }
        ensures { self.new ≡ counted_in (map parts_of words.now) }
    {
        for word in words {
            self.take(word);
        }
    }

    /// Whether no word counts.
    #[inline(always)]
    pub fn is_nothing(&self) -> bool
        ensures { IsTrue result ↔ (self.now ≡ nothing_counted) }
    {
        self.sighted.is_none()
            && self.reflector.is_none()
            && self.instrument.is_none()
            && !(self.easting || self.northing || self.height)
            && !(self.repeated || self.bad_number || self.bad_unit || self.too_large)
    }

    /// Whether the block is a sight: a height difference counts.
    pub fn is_sight(&self) -> bool
        ensures { result ≡ counts_sight self.now }
    {
        self.sighted.is_some()
    }

    /// Whether the block is a setup: a coordinate of the station counts, and no height difference
    /// does.
    pub fn is_setup(&self) -> bool
        ensures { result ≡ counts_setup self.now }
    {
        !self.is_sight() && (self.easting || self.northing || self.height)
    }

    /// Refuses lengths that have a defect: a number first, then a unit, then a size.
    pub fn check_lengths(&self) -> Result<(), BookKind>
        ensures { result_err result ≡ counted_fault self.now }
    {
        if self.bad_number {
            Err(BookKind::BadNumber)
        } else if self.bad_unit {
            Err(BookKind::BadUnit)
        } else if self.too_large {
            Err(BookKind::TooLarge)
        } else {
            Ok(())
        }
    }

    /// Counts one more word.
    fn take(&mut self, word: &Word<'_>)
        ensures { self.new ≡ counted_with (parts_of word.now) self.old }
    {
        match two_digit(word) {
            Some(HEIGHT_DIFFERENCE) => {
                self.repeated = self.repeated || self.sighted.is_some();
                let length = self.length(word);
                self.sighted = self.sighted.or(Some(length));
            }
            Some(STATION_EASTING) => {
                self.repeated = self.repeated || self.easting;
                self.easting = true;
            }
            Some(STATION_NORTHING) => {
                self.repeated = self.repeated || self.northing;
                self.northing = true;
            }
            Some(STATION_HEIGHT) => {
                self.repeated = self.repeated || self.height;
                self.height = true;
            }
            Some(REFLECTOR_HEIGHT) => {
                self.repeated = self.repeated || self.reflector.is_some();
                let length = self.length(word);
                self.reflector = self.reflector.or(Some(length));
            }
            Some(INSTRUMENT_HEIGHT) => {
                self.repeated = self.repeated || self.instrument.is_some();
                let length = self.length(word);
                self.instrument = self.instrument.or(Some(length));
            }
            _ => {}
        }
    }

    /// The length of a word that counts for one; a defect is kept.
    fn length(&mut self, word: &Word<'_>) -> Result<Len, LengthFault>
        ensures read { result ≡ length_of (parts_of word.now) }
        ensures kept { self.new ≡ with_defect result self.old }
    {
        let length = length_of(word);
        match length {
            Ok(_) => {}
            Err(LengthFault::BadNumber) => self.bad_number = true,
            Err(LengthFault::BadUnit) => self.bad_unit = true,
            Err(LengthFault::TooLarge) => self.too_large = true,
        }
        length
    }
}
