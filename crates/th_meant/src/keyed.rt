//! The heights of rows that somebody keyed in, and what fits in their place.
ghost use Rattle.std.specs.Prelude.{◌≡◌, ◌≤◌, ◌++◌, IfOk, OnOk, Some, true, unsigned_abs};
ghost use Rattle.std.specs.List.{flat_map};
ghost use Rattle.th_explain_texts.specs.Words.{is_pole, is_sight};
ghost use Rattle.th_limits.specs.Limits.{max_len};
ghost use Rattle.th_meant.specs.Keyed.{are_values, doubts, entry_of, fitting, fitting_instrument, fitting_pole, has_all, heights_of, is_in_force, is_of_row, keyed_as, keyed_at, keyed_if, keyed_in, keyed_with, largest_value, moved};

use crate::proposed::Proposed;
use std::alloc::{AllocError, Global};
use th_entries::{Entry, HeightKind};
use th_explain_texts::{Kind, Row, Values, is_pole, is_sight};
use th_limits::LARGEST_DIFFERENCE;
use th_numbers::is_kind;

/// No value of a row is larger, in units of 10 nm: a given one and a change that is proposed are each at most the largest
/// difference.
const LARGEST_VALUE: u64 = 2 * LARGEST_DIFFERENCE;

/// A height that somebody keyed in, and that a row doubts.
#[derive(Clone, Copy, Debug)]
pub struct Keyed {
    /// The place of the row, from 0.
    pub row: usize,
    /// The entry of the height.
    pub entry: Entry,
    /// Whether the number of the row has all sights that use it.
    pub whole: bool,
    /// What fits in its place, in units of 10 nm.
    pub proposed: Proposed,
}

/// Where a row is among the rows.
#[derive(Clone, Copy)]
struct Placed<'a> {
    place: usize,
    row: &'a Row,
}

/// The heights that rows with number 1 doubt. The tolerance is in units of 10 nm.
pub(crate) fn keyed_in(
    alloc: Global,
    entries: &[Entry],
    tolerance: u64,
    rows: &[Row],
) -> Result<Vec<Keyed>, AllocError>
    ensures { IfOk result (λ keyed. keyed.items ≡ keyed_in entries.now tolerance rows.now) }
{
    let mut keyed = Vec::new(alloc);
    for (place, row) in rows.iter().enumerate() {
        add_at(&mut keyed, entries, tolerance, &Placed { place, row })?;
    }
    Ok(keyed)
}

/// Adds the heights that a row doubts, if it has number 1.
fn add_at(
    keyed: &mut Vec<Keyed>,
    entries: &[Entry],
    tolerance: u64,
    at: &Placed<'_>,
) -> Result<(), AllocError>
    ensures { OnOk result (keyed.new.items
        ≡ keyed.old.items ++ keyed_at entries.now tolerance (at.now.place, at.now.row.now)) }
{
    if at.row.number == 1 {
        add_heights(keyed, entries, tolerance, at, heights_of(&at.row.kind))
    } else {
        Ok(())
    }
}

/// Adds the heights of some kinds that a row doubts.
fn add_heights(
    keyed: &mut Vec<Keyed>,
    entries: &[Entry],
    tolerance: u64,
    at: &Placed<'_>,
    heights: &[HeightKind],
) -> Result<(), AllocError>
    ensures { OnOk result (keyed.new.items ≡ keyed.old.items
        ++ flat_map (keyed_as entries.now tolerance (at.now.place, at.now.row.now)) heights.now) }
{
    for height in heights {
        add_as(keyed, entries, tolerance, at, *height)?;
    }
    Ok(())
}

/// The heights that a row of a kind doubts.
fn heights_of(kind: &Kind) -> &'static [HeightKind]
    ensures { result.now ≡ heights_of kind.now }
{
    match kind {
        Kind::Instrument => &[HeightKind::Instrument],
        Kind::Reflector => &[HeightKind::Reflector],
        Kind::InstrumentSince => &[HeightKind::Instrument],
        Kind::ReflectorSince => &[HeightKind::Reflector],
        Kind::Sight => &[HeightKind::Reflector, HeightKind::Instrument],
        Kind::Benchmark => &[],
        Kind::Book => &[],
    }
}

/// Adds the height of a kind that a row doubts.
fn add_as(
    keyed: &mut Vec<Keyed>,
    entries: &[Entry],
    tolerance: u64,
    at: &Placed<'_>,
    height: HeightKind,
) -> Result<(), AllocError>
    ensures { OnOk result (keyed.new.items
        ≡ keyed.old.items ++ keyed_as entries.now tolerance (at.now.place, at.now.row.now) height) }
{
    let entry = entry_of(entries, at.row, height);
    match (entry, at.row.values) {
        (Some(entry), Some(values)) => add_if_doubted(keyed, tolerance, at, &entry, &values),
        _ => Ok(()),
    }
}

/// The entry of a kind that is in force in the line of a row.
pub fn entry_of(entries: &[Entry], row: &Row, height: HeightKind) -> Option<Entry>
    ensures { result ≡ entry_of entries.now row.now height }
{
    entries
        .iter()
        .copied()
        .find(|entry| is_of_row(height, row, entry))
}

/// Whether an entry is of a kind, and in force in the line of a row.
fn is_of_row(height: HeightKind, row: &Row, entry: &Entry) -> bool
    ensures { result ≡ is_of_row height row.now entry.now }
{
    is_kind(entry.kind, height) && is_in_force(row.book, row.line, entry)
}

/// Whether an entry is in force in a line of a book.
fn is_in_force(book: Option<u32>, line: Option<u32>, entry: &Entry) -> bool
    ensures { result ≡ is_in_force book line entry.now }
{
    match (book, line) {
        (Some(book), Some(line)) => {
            entry.book == book && entry.line <= line && line <= entry.last
        }
        _ => false,
    }
}

/// Adds the height of an entry, if its row doubts it.
fn add_if_doubted(
    keyed: &mut Vec<Keyed>,
    tolerance: u64,
    at: &Placed<'_>,
    entry: &Entry,
    values: &Values,
) -> Result<(), AllocError>
    ensures { OnOk result (keyed.new.items ≡ keyed.old.items
        ++ keyed_if tolerance at.now.row.now at.now.place (Some entry.now) (Some values.now)) }
{
    if doubts(at.row, entry) && are_values(values) {
        keyed.push(keyed_with(tolerance, at, entry, values))?;
    }
    Ok(())
}

/// Whether values are no larger than those of a row are.
fn are_values(values: &Values) -> bool
    ensures { result ≡ are_values values.now }
{
    values.given.unsigned_abs() <= LARGEST_VALUE
        && values.low.unsigned_abs() <= LARGEST_VALUE
        && values.high.unsigned_abs() <= LARGEST_VALUE
}

/// Whether a row doubts an entry.
fn doubts(row: &Row, entry: &Entry) -> bool
    ensures { result ≡ doubts row.now entry.now }
{
    !is_sight(&row.kind) || is_pole(entry.kind) || has_all(row, entry)
}

/// Whether a number has all sights that use an entry.
fn has_all(row: &Row, entry: &Entry) -> bool
    ensures { result ≡ has_all row.now entry.now }
{
    row.sights == entry.sights
}

/// The height of an entry, at its row.
fn keyed_with(tolerance: u64, at: &Placed<'_>, entry: &Entry, values: &Values) -> Keyed
    requires { are_values values.now ≡ true }
    ensures { result ≡ keyed_with tolerance at.now.row.now at.now.place entry.now values.now }
{
    Keyed {
        row: at.place,
        entry: *entry,
        whole: has_all(at.row, entry),
        proposed: fitting(&at.row.kind, entry, values, tolerance),
    }
}

/// What fits in place of the height of an entry.
fn fitting(kind: &Kind, entry: &Entry, values: &Values, tolerance: u64) -> Proposed
    requires { are_values values.now ≡ true }
    ensures { result ≡ fitting (is_sight kind.now) (is_pole entry.now.kind) entry.now.length values.now tolerance }
{
    if !is_sight(kind) {
        Proposed {
            low: values.low,
            high: values.high,
            tolerance,
        }
    } else if is_pole(entry.kind) {
        fitting_pole(entry.length.get(), values, tolerance)
    } else {
        fitting_instrument(entry.length.get(), values, tolerance)
    }
}

/// What fits in place of the pole of a sight: a longer one lowers its difference.
fn fitting_pole(length: i64, values: &Values, tolerance: u64) -> Proposed
    requires small { are_values values.now ≡ true }
    requires length { unsigned_abs length ≤ max_len }
    ensures { result ≡ fitting_pole length values.now tolerance }
{
    Proposed {
        low: moved(length, values.given, values.high),
        high: moved(length, values.given, values.low),
        tolerance,
    }
}

/// What fits in place of the instrument height of a sight: a higher one raises its difference.
fn fitting_instrument(length: i64, values: &Values, tolerance: u64) -> Proposed
    requires small { are_values values.now ≡ true }
    requires length { unsigned_abs length ≤ max_len }
    ensures { result ≡ fitting_instrument length values.now tolerance }
{
    Proposed {
        low: moved(length, values.low, values.given),
        high: moved(length, values.high, values.given),
        tolerance,
    }
}

/// A length that is moved from one value to another.
fn moved(length: i64, to: i64, from: i64) -> i64
    requires length { unsigned_abs length ≤ max_len }
    requires to { unsigned_abs to ≤ largest_value }
    requires from { unsigned_abs from ≤ largest_value }
    ensures { result ≡ moved length to from }
{
    length + to - from
}
