//! The readings that fit of the rows with number 1.
ghost use Rattle.std.specs.Prelude.{◌≡◌, IfOk, Some, count_by, map, nat_le};
ghost use Rattle.th_explain.specs.Explained.{Explains};
ghost use Rattle.th_explain_texts.specs.Sentences.{is_first, most_named};
ghost use Rattle.th_names.specs.Doubts.{number_of};
ghost use Rattle.th_names.specs.Names.{AreOfDoubt, AreOfFreed, AreOfRows, AreReadings, AreReadingsAt, doubt_at, most_off, reading_row, reading_rows};

use crate::doubts::{Doubt, doubt_of};
use crate::nears::{Near, Searched, fitting, nearest};
use std::alloc::{AllocError, Global};
use th_entries::Entry;
use th_explain::{Freed, Mending, Sieve, explanation_or_more};
use th_explain_texts::{MOST_NAMED, ReadingRow, Row};
use th_numbers::Kinds;

/// The readings that fit of the rows with number 1, if these are at most three.
///
/// The rows are those that explain what does not fit, and the entries those of all books. The limit of blunders is in
/// units of 10 nm. The network is adjusted at most twice for each name of such a row.
pub fn readings_of(
    alloc: Global,
    mending: &mut Mending<'_>,
    kinds: &Kinds<'_>,
    limit: i64,
    rows: &[Row],
) -> Result<Vec<ReadingRow>, AllocError>
    ensures readings { IfOk result (λ readings.
        AreReadings mending.old.case.now.network.now kinds.now.entries.now limit rows.now readings.items) }
    ensures case { mending.new.case.now ≡ mending.old.case.now }
{
    if !are_few(rows) {
        return Ok(Vec::new(alloc));
    }
    let searched = Searched {
        network: mending.case.network,
        kinds,
        limit: most_off(limit),
    };
    let readings = readings_of_rows(alloc, &mut mending.sieve, &searched, rows)?;
    Ok(readings)
}

/// The readings that fit of all rows.
fn readings_of_rows(
    alloc: Global,
    sieve: &mut Sieve<'_>,
    own: &Searched<'_>,
    rows: &[Row],
) -> Result<Vec<ReadingRow>, AllocError>
    requires { sieve.old.case.now.network.now ≡ own.now.network.now }
    ensures readings { IfOk result (λ readings. AreOfRows own.now.network.now own.now.kinds.now.entries.now own.now.limit rows.now readings.items) }
    ensures case { sieve.new.case.now ≡ sieve.old.case.now }
{
    let mut readings = Vec::new(alloc);
    for (place, row) in rows.iter().enumerate() {
        let found = readings_at(alloc, sieve, own, place, row)?;
        readings.extend_from_slice(&found)?;
    }
    Ok(readings)
}

/// Whether so few rows have number 1 that sentences name each.
fn are_few(rows: &[Row]) -> bool
    ensures { result ≡ nat_le (count_by is_first rows.now) most_named }
{
    rows.iter().filter(|row| row.number == 1).count() <= MOST_NAMED
}

/// The readings that fit of a row at its place.
fn readings_at(
    alloc: Global,
    sieve: &mut Sieve<'_>,
    own: &Searched<'_>,
    place: usize,
    row: &Row,
) -> Result<Vec<ReadingRow>, AllocError>
    requires { sieve.old.case.now.network.now ≡ own.now.network.now }
    ensures found { IfOk result (λ readings. AreReadingsAt own.now.network.now own.now.kinds.now.entries.now own.now.limit (place, row.now) readings.items) }
    ensures case { sieve.new.case.now ≡ sieve.old.case.now }
{
    match doubt_at(own.kinds.entries, row) {
        Some(doubt) => readings_of_doubt(alloc, sieve, own, place, &doubt),
        None => Ok(Vec::new(alloc)),
    }
}

/// What a row doubts, if it has number 1.
fn doubt_at(entries: &[Entry], row: &Row) -> Option<Doubt>
    ensures { result ≡ doubt_at entries.now row.now }
{
    if row.number == 1 {
        doubt_of(entries, row)
    } else {
        None
    }
}

/// The readings that fit of what a row doubts.
fn readings_of_doubt(
    alloc: Global,
    sieve: &mut Sieve<'_>,
    own: &Searched<'_>,
    place: usize,
    doubt: &Doubt,
) -> Result<Vec<ReadingRow>, AllocError>
    requires { sieve.old.case.now.network.now ≡ own.now.network.now }
    ensures found { IfOk result (λ readings. AreOfDoubt own.now.network.now own.now.kinds.now.entries.now own.now.limit place (Some doubt.now) readings.items) }
    ensures case { sieve.new.case.now ≡ sieve.old.case.now }
{
    match explanation_or_more(alloc, sieve, &doubt.number(), 0, None)? {
        Some(freed) => readings_of_freed(alloc, own, &freed, place, doubt),
        None => Ok(Vec::new(alloc)),
    }
}

/// The readings that fit of what a row doubts, given what is left if its number is freed.
fn readings_of_freed(
    alloc: Global,
    own: &Searched<'_>,
    freed: &Freed,
    place: usize,
    doubt: &Doubt,
) -> Result<Vec<ReadingRow>, AllocError>
    requires { Explains own.now.network.now 0 (number_of doubt.now) freed.now }
    ensures { IfOk result (λ readings. AreOfFreed own.now.network.now own.now.kinds.now.entries.now own.now.limit doubt.now place (Some freed.now) readings.items) }
{
    let nears = fitting(alloc, own, freed, doubt)?;
    let chosen = nearest(alloc, &nears)?;
    reading_rows(alloc, place, &chosen)
}

/// Readings as rows, of a row at a place.
fn reading_rows(alloc: Global, place: usize, nears: &[Near]) -> Result<Vec<ReadingRow>, AllocError>
    ensures { IfOk result (λ rows. rows.items ≡ map (reading_row place) nears.now) }
{
    nears
        .iter()
        .map(|near| reading_row(place, near))
        .collect(alloc)
}

/// A reading of the row at a place.
fn reading_row(place: usize, near: &Near) -> ReadingRow
    ensures { result ≡ reading_row place near.now }
{
    ReadingRow {
        row: place,
        read: near.read,
        fit: near.fit,
    }
}

/// How far what is read may be from what fits: as far as the limit, and 0 where that is below.
fn most_off(limit: i64) -> u64
    ensures { result ≡ most_off limit }
{
    if limit < 0 { 0 } else { limit.unsigned_abs() }
}
