//! Entries of the running setup: which ones a block begins, and which ones a sight uses.
ghost use Rattle.std.specs.Prelude.{◌≡◌, ◌++◌, map, option_to_list, IfOk, OnOk};
ghost use Rattle.gsi_word.specs.Words.{parts_of};
ghost use Rattle.th_entries.specs.Entries.{index_of, unit_in, unit_of_word};
ghost use Rattle.th_entries.specs.Inside.Running.{amended, entering_after, entry_in, is_repeated, place_of, served, setup_on, with_heights, with_word, with_words, written};

use crate::entries::{Entry, HeightKind};
use crate::oddities::counts_for;
use gsi_word::{INSTRUMENT_HEIGHT, REFLECTOR_HEIGHT, Word};
use std::alloc::AllocError;
use th_book::{Entered, Setup};
use th_units::{Len, Unit, unit_of};

/// Where among the entries the last reflector height and the last instrument height of the running setup
/// are.
#[derive(Clone, Copy, Debug)]
pub(crate) struct Latest {
    pub reflector: Option<usize>,
    pub instrument: Option<usize>,
}

impl Latest {
    ghost use Rattle.th_entries.specs.Inside.Running.{begun_by};

    /// Leaves the entries of the setup before, where a block begins one.
    fn begin(&mut self, entered: &Entered)
        ensures { self.new ≡ begun_by entered.now self.old }
    {
        if entered.station.is_some() {
            *self = Latest {
                reflector: None,
                instrument: None,
            };
        }
    }
}

/// Enters what a block enters: its heights, in the setup that it begins or that runs before it, and then
/// the sight that uses the last heights.
pub(crate) fn enter(
    latest: &mut Latest,
    entries: &mut Vec<Entry>,
    book: u32,
    line: u32,
    running: &Option<Setup>,
    entered: &Entered,
    words: &[Word<'_>],
) -> Result<(), AllocError>
    ensures { OnOk result (record { latest = latest.new; entries = entries.new.items }
        ≡ entering_after book line running.now (map parts_of words.now) entered.now (record { latest = latest.old; entries = entries.old.items })) }
{
    enter_heights(latest, entries, book, line, running, entered, words)?;
    repeat(entries, latest.reflector, entered.reflector, line);
    repeat(entries, latest.instrument, entered.instrument, line);
    if entered.target.is_some() {
        serve(entries, latest.reflector, line);
        serve(entries, latest.instrument, line);
    }
    Ok(())
}

/// Adds the entries that the heights of a block begin.
fn enter_heights(
    latest: &mut Latest,
    entries: &mut Vec<Entry>,
    book: u32,
    line: u32,
    running: &Option<Setup>,
    entered: &Entered,
    words: &[Word<'_>],
) -> Result<(), AllocError>
    ensures { OnOk result (record { latest = latest.new; entries = entries.new.items }
        ≡ with_heights book line running.now (map parts_of words.now) entered.now (record { latest = latest.old; entries = entries.old.items })) }
{
    latest.begin(entered);
    let setup = setup_on(running, entered);
    let reflector = entry_in(
        &setup,
        book,
        line,
        HeightKind::Reflector,
        entered.reflector,
        words,
    );
    latest.reflector = add(entries, reflector, latest.reflector)?;
    let instrument = entry_in(
        &setup,
        book,
        line,
        HeightKind::Instrument,
        entered.instrument,
        words,
    );
    latest.instrument = add(entries, instrument, latest.instrument)?;
    Ok(())
}

/// The setup of a line, before its heights: the one that it begins, or else the running one.
fn setup_on(running: &Option<Setup>, entered: &Entered) -> Option<Setup>
    ensures { result ≡ setup_on running.now entered.now.station }
{
    match entered.station {
        Some(station) => Some(Setup {
            station,
            instrument: None,
            reflector: None,
        }),
        None => *running,
    }
}

/// The entry that a length among these words begins in a setup, which no sight uses yet: there is none if
/// it repeats the last one.
fn entry_in(
    setup: &Option<Setup>,
    book: u32,
    line: u32,
    kind: HeightKind,
    length: Option<Len>,
    words: &[Word<'_>],
) -> Option<Entry>
    ensures { result ≡ entry_in setup.now book line kind (unit_in (index_of kind) (map parts_of words.now)) length }
{
    match (setup, length) {
        (Some(setup), Some(length)) if !is_repeated(setup, kind, length) => Some(Entry {
            book,
            line,
            kind,
            station: setup.station,
            length,
            unit: unit_in(words, index_of(kind)),
            repeated: line,
            sights: 0,
            last: 0,
        }),
        _ => None,
    }
}

/// Whether a length is the last one of its kind in a setup.
fn is_repeated(setup: &Setup, kind: HeightKind, length: Len) -> bool
    ensures { result ≡ is_repeated kind length setup.now }
{
    let last = match kind {
        HeightKind::Reflector => setup.reflector,
        HeightKind::Instrument => setup.instrument,
    };
    match last {
        Some(last) => last == length,
        None => false,
    }
}

/// The index of the words that enter a height.
fn index_of(kind: HeightKind) -> u8
    ensures { result ≡ index_of kind }
{
    match kind {
        HeightKind::Reflector => REFLECTOR_HEIGHT,
        HeightKind::Instrument => INSTRUMENT_HEIGHT,
    }
}

/// The unit of the first word that counts for an index; millimetres if none does.
fn unit_in(words: &[Word<'_>], index: u8) -> Unit
    ensures { result ≡ unit_in index (map parts_of words.now) }
{
    let Some((word, rest)) = words.split_first() else {
        return Unit::Mm;
    };
    if counts_for(word, index) {
        return unit_of_word(word);
    }
    unit_in(rest, index)
}

/// The unit of a word.
fn unit_of_word(word: &Word<'_>) -> Unit
    ensures { result ≡ unit_of_word (parts_of word.now) }
{
    let [_, _, _, code] = word.info();
    unit_of(code).unwrap_or(Unit::Mm)
}

/// Adds an entry where one begins, and returns the place of the last entry: the one added, or else the
/// one before.
fn add(
    entries: &mut Vec<Entry>,
    entry: Option<Entry>,
    before: Option<usize>,
) -> Result<Option<usize>, AllocError>
    ensures entries { OnOk result (entries.new.items ≡ entries.old.items ++ option_to_list entry) }
    ensures place { IfOk result (λ place. place ≡ place_of entry entries.old.items before) }
{
    match entry {
        None => Ok(before),
        Some(entry) => {
            let place = entries.len();
            entries.push(entry)?;
            Ok(Some(place))
        }
    }
}

/// Notes that a line writes the height of the entry at a place, if it writes a length.
fn repeat(entries: &mut Vec<Entry>, place: Option<usize>, length: Option<Len>, line: u32)
    ensures { entries.new.items ≡ written length place line entries.old.items }
{
    if length.is_some() {
        note_word(entries, place, line);
    }
}

/// Notes that a line writes the height of the entry at a place.
fn note_word(entries: &mut Vec<Entry>, place: Option<usize>, line: u32)
    ensures { entries.new.items ≡ amended (with_word line) place entries.old.items }
{
    if let Some(place) = place {
        if let Some(entry) = entries.get_mut(place) {
            entry.repeated = line;
        }
    }
}

/// Counts a sight on a line for the entry at a place.
fn serve(entries: &mut Vec<Entry>, place: Option<usize>, line: u32)
    ensures { entries.new.items ≡ served place line entries.old.items }
{
    if let Some(place) = place {
        if let Some(entry) = entries.get_mut(place) {
            entry.sights = entry.sights.saturating_add(1);
            entry.last = line;
        }
    }
}
