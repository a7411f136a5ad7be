//! The tally of a book: a witness that gathers its review, line by line, while it is read.
ghost use Rattle.std.specs.Prelude.{◌≡◌, ℕ, List, length, map, option_map, IfOk, OnOk};
ghost use Rattle.std.specs.List.{list_any};
ghost use Rattle.gsi_word.specs.Words.{parts_of};
ghost use Rattle.th_book.specs.Entered.{entered_by};
ghost use Rattle.th_book.specs.Faults.{are_one};
ghost use Rattle.th_entries.specs.Inside.Tallies.{looks};
ghost use Rattle.th_entries.specs.Reviews.{is_measured};

use crate::counts::BookCount;
use crate::entries::Entry;
use crate::listed::Listed;
use crate::oddities::{changes_height, is_direction, list_if};
use crate::reviews::BookReview;
use crate::running::{Latest, enter};
use crate::seen::{SeenNames, mention};
use crate::sights::SightWatch;
use gsi_word::{
    HORIZONTAL_ANGLE, HORIZONTAL_DISTANCE, Name, POINT_NUMBER, SLOPE_DISTANCE, VERTICAL_ANGLE, Word,
};
use std::alloc::{AllocError, Global};
use th_book::laws::faultless_book_is_sound;
use th_book::{Entered, Setup, Witness};

/// What is known of a book after some of its lines, and the names of it and of the books before: a
/// witness of its reading. It keeps the first allocation failure until it gives the review.
#[derive(Drop)]
pub struct Tally {
    book: u32,
    counts: BookCount,
    watch: SightWatch,
    latest: Latest,
    entries: Vec<Entry>,
    lookalikes: Listed<u32>,
    directions: Listed<u32>,
    changes: Listed<u32>,
    names: SeenNames,
    failed: Option<AllocError>,
}

impl Tally {
    ghost use Rattle.th_book.specs.Lines.{ParsedLine};
    ghost use Rattle.th_entries.specs.Inside.Tallies.{HasBlock};
    ghost use Rattle.th_entries.specs.Tallied.{HasSeen};
    ghost use Rattle.th_entries.specs.declared.seen.SeenNames.{SeenNames};
    ghost use Rattle.th_entries.specs.Reviews.{Reviews};
    ghost use Rattle.th_entries.specs.Seen.{AddsBook};

    /// What is known of a book with its number, from 1, before its first line, and the names of the
    /// books before.
    pub fn new(alloc: Global, book: u32, names: SeenNames) -> Tally
        ensures { (parsed : List ParsedLine) → HasSeen names book parsed 0 result }
    {
        Tally {
            book,
            counts: BookCount::new(),
            watch: SightWatch::new(),
            latest: Latest {
                reflector: None,
                instrument: None,
            },
            entries: Vec::new(alloc),
            lookalikes: Listed::new(alloc),
            directions: Listed::new(alloc),
            changes: Listed::new(alloc),
            names,
            failed: None,
        }
    }

    /// The review of a book whose lines were all seen, and the names that were seen. Fails if memory ran
    /// out for a line.
    pub fn review(self) -> Result<(BookReview, SeenNames), AllocError>
        ensures review { IfOk result (λ read. (names : SeenNames) (number : ℕ) (parsed : List ParsedLine) →
            HasSeen names number parsed (length parsed) self → Reviews number parsed read.0) }
        ensures names { IfOk result (λ read. (names : SeenNames) (number : ℕ) (parsed : List ParsedLine) →
            HasSeen names number parsed (length parsed) self → AddsBook number parsed names read.1) }
    {
        let Tally {
            book,
            counts,
            watch,
            mut entries,
            lookalikes,
            directions,
            changes,
            names,
            failed,
            ..
        } = self;
        if let Some(error) = failed {
            return Err(error);
        }
        entries.retain(|entry| entry.sights > 0);
        entries.shrink_to_fit();
        let review = BookReview {
            counts,
            no_sight: watch.note(book),
            entries,
            lookalikes,
            directions,
            changes,
        };
        Ok((review, names))
    }

    /// Takes the words of a block that was counted, which enter this in the running setup.
    fn take(
        &mut self,
        running: &Option<Setup>,
        entered: &Entered,
        words: &[Word<'_>],
    ) -> Result<(), AllocError>
        ensures { OnOk result (entered.now ≡ entered_by (map parts_of words.now)
            → HasBlock running.now (map parts_of words.now) self.old self.new) }
    {
        let line = self.counts.lines;
        let looks = is_lookalike(words, entered, &station_of(running));
        list_if(&mut self.lookalikes, looks, line)?;
        list_if(&mut self.directions, is_direction(entered, words), line)?;
        list_if(&mut self.changes, changes_height(running, entered), line)?;
        mention(&mut self.names, self.book, line, entered, words)?;
        enter(
            &mut self.latest,
            &mut self.entries,
            self.book,
            line,
            running,
            entered,
            words,
        )
    }
}

impl Witness for Tally {
    ghost use Rattle.th_entries.specs.Tallied.{HasSeen};
    ghost use Rattle.th_entries.specs.declared.seen.SeenNames.{SeenNames};

    ghost Start = { SeenNames };

    ghost has_seen = { HasSeen };

    fn blank(&mut self) {
        self.counts.line();
        self.watch.blank();
    }

    fn block(&mut self, running: &Option<Setup>, entered: &Entered, words: &[Word<'_>]) {
        faultless_book_is_sound();
        self.counts.line();
        self.counts.block(entered);
        self.watch.block(running, entered, words);
        if self.failed.is_none() {
            if let Err(error) = self.take(running, entered, words) {
                self.failed = Some(error);
            }
        }
    }
}

/// Whether a block looks like a setup, and its point is not the current station.
fn is_lookalike(words: &[Word<'_>], entered: &Entered, station: &Option<Name>) -> bool
    ensures { result ≡ looks (map parts_of words.now) entered.now station.now }
{
    match words.first() {
        Some(word) => {
            let resembles = word.index() == POINT_NUMBER
                && entered.instrument.is_some()
                && entered.target.is_none()
                && entered.station.is_none()
                && !measures(words);
            resembles && !are_one(station, &word.name())
        }
        None => false,
    }
}

/// The station of the running setup.
fn station_of(running: &Option<Setup>) -> Option<Name>
    ensures { result ≡ option_map (λ setup. setup.station) running.now }
{
    match running {
        Some(setup) => Some(setup.station),
        None => None,
    }
}

/// Whether a block measures an angle or a distance.
fn measures(words: &[Word<'_>]) -> bool
    ensures { result ≡ list_any is_measured (map parts_of words.now) }
{
    let mut measured = false;
    for word in words {
        measured = measured | is_measured(word);
    }
    measured
}

/// Whether a measurement writes a word: an angle or a distance.
fn is_measured(word: &Word<'_>) -> bool
    ensures { result ≡ is_measured (parts_of word.now) }
{
    matches!(
        word.index(),
        HORIZONTAL_ANGLE | VERTICAL_ANGLE | SLOPE_DISTANCE | HORIZONTAL_DISTANCE
    )
}

/// Whether two names are there, and are one.
fn are_one(station: &Option<Name>, point: &Option<Name>) -> bool
    ensures { result ≡ are_one station.now point.now }
{
    match (station, point) {
        (Some(station), Some(point)) => station == point,
        _ => false,
    }
}
