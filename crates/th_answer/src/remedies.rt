//! What puts a row right.
ghost use Rattle.std.specs.Prelude.{◌≡◌, ◌++◌, None, IfOk, OnOk, option_and_then, option_map, option_to_list};
ghost use Rattle.std.specs.List.{filter_map};
ghost use Rattle.th_answer.specs.Remedies.{both, change_with, entered_on, has_sight, is_on, is_over, remedy_in, remedy_of, row_number, sight_on, since_on};

use gsi_word::Name;
use std::alloc::{AllocError, Global};
use th_changes::Number;
use th_entries::{Entry, HeightKind};
use th_explain_texts::{Kind, Row, Values};
use th_numbers::{Candidate, is_kind};
use th_observations::Observation;
use th_reliability::Sights;

/// What puts a row right.
#[derive(Clone, Copy)]
pub enum Remedy {
    /// The number gets the mildest of these values.
    Change(Number, Values),
    /// The book with this number, from 1, is read from mark to mark.
    MarkToMark(u32),
}

impl Remedy {
    /// Whether the number has this sight. A book has all of its own.
    pub fn has_sight(&self, o: &Observation) -> bool
        ensures { result ≡ has_sight self.now o.now }
    {
        match self {
            Remedy::Change(number, _) => number.touch(o) != 0,
            Remedy::MarkToMark(book) => o.book == *book,
        }
    }
}

/// What puts rows right, in their order, given the entries of all books.
pub(crate) fn remedies_of(
    alloc: Global,
    entries: &[Entry],
    rows: &[Row],
) -> Result<Vec<Remedy>, AllocError>
    ensures { IfOk result (λ remedies. remedies.items ≡ filter_map (remedy_of entries.now) rows.now) }
{
    let mut remedies = Vec::with_capacity(alloc, rows.len())?;
    for row in rows {
        add_remedy(&mut remedies, &remedy_of(entries, row))?;
    }
    Ok(remedies)
}

/// Adds what puts one more row right, if there is anything.
fn add_remedy(remedies: &mut Vec<Remedy>, found: &Option<Remedy>) -> Result<(), AllocError>
    ensures { OnOk result (remedies.new.items ≡ remedies.old.items ++ option_to_list found.now) }
{
    if let Some(remedy) = found {
        remedies.extend_from_slice(&[*remedy])?;
    }
    Ok(())
}

/// What puts a row right, given the entries of all books.
pub(crate) fn remedy_of(entries: &[Entry], row: &Row) -> Option<Remedy>
    ensures { result ≡ remedy_of entries.now row.now }
{
    match row.kind {
        Kind::Book => mark_to_mark(row.book),
        _ => change_with(row_number(entries, row), row.values),
    }
}

/// That a book is read from mark to mark.
fn mark_to_mark(book: Option<u32>) -> Option<Remedy>
    ensures { result ≡ remedy_in Kind.Book book None }
{
    match book {
        Some(book) => Some(Remedy::MarkToMark(book)),
        None => None,
    }
}

/// That a number gets the mildest of its values.
fn change_with(number: Option<Number>, values: Option<Values>) -> Option<Remedy>
    ensures { result ≡ change_with number values }
{
    match (number, values) {
        (Some(number), Some(values)) => Some(Remedy::Change(number, values)),
        _ => None,
    }
}

/// The number of a row; a book has none.
fn row_number(entries: &[Entry], row: &Row) -> Option<Number>
    ensures { result ≡ row_number entries.now row.now }
{
    let place = both(row.book, row.line);
    match row.kind {
        Kind::Instrument => entered_on(entries, HeightKind::Instrument, place),
        Kind::Reflector => entered_on(entries, HeightKind::Reflector, place),
        Kind::InstrumentSince => since_on(entries, HeightKind::Instrument, place),
        Kind::ReflectorSince => since_on(entries, HeightKind::Reflector, place),
        Kind::Sight => sight_on(place),
        Kind::Benchmark => benchmark(row.from),
        Kind::Book => None,
    }
}

/// The number of the entry on a line of a book.
fn entered_on(entries: &[Entry], kind: HeightKind, place: Option<(u32, u32)>) -> Option<Number>
    ensures { result ≡ option_and_then (entered_on entries.now kind) place }
{
    let place = place?;
    for entry in entries {
        if is_on(entry, kind, place) {
            return Some(Candidate::Entered(*entry).number());
        }
    }
    None
}

/// Whether an entry of a kind is on a line of a book.
fn is_on(entry: &Entry, kind: HeightKind, place: (u32, u32)) -> bool
    ensures { result ≡ is_on kind place entry.now }
{
    is_kind(entry.kind, kind) && entry.book == place.0 && entry.line == place.1
}

/// The number of the entry that is used on a line of a book, from that line on.
fn since_on(entries: &[Entry], kind: HeightKind, place: Option<(u32, u32)>) -> Option<Number>
    ensures { result ≡ option_and_then (since_on entries.now kind) place }
{
    let place = place?;
    for entry in entries {
        if is_over(entry, kind, place) {
            return Some(Candidate::Since(*entry, place.1).number());
        }
    }
    None
}

/// Whether a line of a book is among those of the sights of an entry of a kind.
fn is_over(entry: &Entry, kind: HeightKind, place: (u32, u32)) -> bool
    ensures { result ≡ is_over kind place entry.now }
{
    is_kind(entry.kind, kind)
        && entry.book == place.0
        && entry.line <= place.1
        && place.1 <= entry.last
}

/// The number of the sight on a line of a book.
fn sight_on(place: Option<(u32, u32)>) -> Option<Number>
    ensures { result ≡ option_map sight_on place }
{
    let (book, line) = place?;
    Some(Number::Added(Sights {
        book,
        first: line,
        last: line,
    }))
}

/// The height of a benchmark.
fn benchmark(name: Option<Name>) -> Option<Number>
    ensures { result ≡ option_map Number.Benchmark name }
{
    Some(Number::Benchmark(name?))
}

/// The book and the line, if there are both.
fn both(book: Option<u32>, line: Option<u32>) -> Option<(u32, u32)>
    ensures { result ≡ both book line }
{
    match (book, line) {
        (Some(book), Some(line)) => Some((book, line)),
        _ => None,
    }
}
