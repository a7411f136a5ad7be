//! The row of a book, where it fits much better if it is read from mark to mark.
ghost use Rattle.std.specs.Prelude.{◌≡◌, ◌≤◌, ◌<◌, ◌+◌, ◌*◌, ◌++◌, ◌∷◌, [], All, IfOk, OnOk, map, option_map, true, unsigned_abs};
ghost use Rattle.std.specs.List.{AllZip};
ghost use Rattle.th_observations.specs.Observed.{largest_difference};
ghost use Rattle.th_entries.specs.declared.entries.HeightKind.TheVariants as height;
ghost use Rattle.th_numbers.specs.Readings.{IsBookRowOrNone, IsReadOrNone, IsRereadOrNone, height_in, is_cheaper, read_difference, read_observation, row_of_book, with_difference, word_33};

use crate::books::SightedBook;
use crate::kinds::{Kinds, is_kind};
use std::alloc::{AllocError, Global};
use th_blunders::{Fit, blunder_count};
use th_circulation::best_heights;
use th_entries::{Entry, HeightKind};
use th_explain_texts::{Kind, Row};
use th_limits::LARGEST_DIFFERENCE;
use th_network::Network;
use th_observations::Observation;
use th_review_rows::sights_of;

/// Books that are read from mark to mark, one at a time.
#[derive(Clone, Copy)]
pub struct Reading<'a> {
    pub network: &'a Network<'a>,
    /// The entries of its books.
    pub kinds: &'a Kinds<'a>,
    /// The least cost of the network, in units of 10 nm times weight.
    pub cost: u128,
    /// The limit of blunders, in units of 10 nm.
    pub limit: i64,
}

impl Reading<'_> {
    /// For each book its row, where it fits much better if it is read from mark to mark.
    pub fn rows(&self, alloc: Global, books: &[SightedBook]) -> Result<Vec<Option<Row>>, AllocError>
        ensures rows { IfOk result (λ rows.
            AllZip (IsBookRowOrNone self.now.network.now self.now.kinds.now.entries.now self.now.cost self.now.limit) books.now rows.items) }
    {
        let mut rows = Vec::with_capacity(alloc, books.len())?;
        for book in books {
            let found = self.row(alloc, book)?;
            add_found(&mut rows, found)?;
        }
        Ok(rows)
    }

    /// The row of a book, where it fits much better if it is read from mark to mark.
    fn row(&self, alloc: Global, book: &SightedBook) -> Result<Option<Row>, AllocError>
        ensures row { IfOk result (IsBookRowOrNone self.now.network.now self.now.kinds.now.entries.now self.now.cost self.now.limit book.now) }
    {
        let read = reread(alloc, self.network.observations(), self.kinds, book.number)?;
        match read {
            Some(read) => self.row_if_cheaper(alloc, read, book),
            None => Ok(None),
        }
    }

    /// The row of a book whose observations are these if it is read from mark to mark, where these fit much better.
    fn row_if_cheaper(
        &self,
        alloc: Global,
        read: Vec<Observation>,
        book: &SightedBook,
    ) -> Result<Option<Row>, AllocError>
        requires read { read.items
            ≡ map (read_observation self.now.kinds.now.entries.now book.now.number) self.now.network.now.observations }
        ensures row { IfOk result (IsBookRowOrNone self.now.network.now self.now.kinds.now.entries.now self.now.cost self.now.limit book.now) }
    {
        let own = self.network.with_differences(alloc, read)?;
        let best = best_heights(alloc, &own)?;
        let fit = Fit::of(alloc, &own, best.low())?;
        if !is_cheaper(self.cost, fit.cost) {
            return Ok(None);
        }
        let blunders = blunder_count(own.observations(), &fit.residuals, self.limit);
        Ok(Some(row_of_book(self.cost, book, fit.cost, blunders)))
    }
}

/// Adds what was found of one more book.
fn add_found(rows: &mut Vec<Option<Row>>, found: Option<Row>) -> Result<(), AllocError>
    ensures { OnOk result (rows.new.items ≡ rows.old.items ++ found ∷ []) }
{
    rows.extend_from_slice(&[found])
}

/// The network in which the book with this number is read from mark to mark; none if a difference is then
/// larger than any in a network.
pub fn reread_network<'a>(
    alloc: Global,
    network: &Network<'a>,
    kinds: &Kinds<'_>,
    book: u32,
) -> Result<Option<Network<'a>>, AllocError>
    ensures { IfOk result (IsRereadOrNone kinds.now.entries.now book network.now) }
{
    match reread(alloc, network.observations(), kinds, book)? {
        Some(read) => Ok(Some(network.with_differences(alloc, read)?)),
        None => Ok(None),
    }
}

/// The row of a book that leaves so much, and so many blunders.
fn row_of_book(cost: u128, book: &SightedBook, left: u128, blunders: u32) -> Row
    requires { left ≤ cost }
    ensures { result ≡ row_of_book cost book.now left blunders }
{
    Row {
        number: 0,
        kind: Kind::Book,
        book: Some(book.number),
        line: None,
        last: None,
        from: None,
        to: None,
        sights: book.sights,
        values: None,
        explains: cost - left,
        left,
        blunders,
    }
}

/// Whether ten times a cost is less than another.
fn is_cheaper(cost: u128, left: u128) -> bool
    ensures cheaper { result ≡ is_cheaper cost left }
    ensures less { result ≡ true → left ≤ cost }
{
    match left.checked_mul(10) {
        Some(tenfold) => tenfold < cost,
        None => false,
    }
}

/// The observations, with those of a book read from mark to mark; none if a difference is then larger
/// than any in a network.
fn reread(
    alloc: Global,
    observations: &[Observation],
    kinds: &Kinds<'_>,
    book: u32,
) -> Result<Option<Vec<Observation>>, AllocError>
    ensures { IfOk result (λ read. IsReadOrNone kinds.now.entries.now book observations.now (option_map (λ own. own.items) read)) }
{
    let mut read = Vec::with_capacity(alloc, observations.len())?;
    for o in observations {
        let difference = read_difference(kinds, book, o);
        if difference.unsigned_abs() > LARGEST_DIFFERENCE {
            return Ok(None);
        }
        read.push(with_difference(o, difference))?;
    }
    Ok(Some(read))
}

/// An observation with another difference.
fn with_difference(o: &Observation, difference: i64) -> Observation
    requires { unsigned_abs difference ≤ largest_difference }
    ensures { result ≡ with_difference o.now difference }
{
    let (station, target) = o.ends();
    Observation {
        station,
        target,
        diff: difference,
        book: o.book,
        line: o.line,
    }
}

/// The difference of an observation, which is word 33 alone in a book that is read from mark to mark.
fn read_difference(kinds: &Kinds<'_>, book: u32, o: &Observation) -> i64
    ensures { result ≡ read_difference kinds.now.entries.now book o.now }
{
    if o.book == book {
        word_33(kinds, o)
    } else {
        o.difference()
    }
}

/// What was read at an observation: its difference without the instrument height and with the reflector
/// height.
pub fn word_33(kinds: &Kinds<'_>, o: &Observation) -> i64
    ensures { result ≡ word_33 kinds.now.entries.now o.now }
{
    let instrument = height_in(kinds, HeightKind::Instrument, o);
    let reflector = height_in(kinds, HeightKind::Reflector, o);
    o.difference() - instrument + reflector
}

/// The height of a kind that an observation was made with: that of the first entry that it is among.
fn height_in(kinds: &Kinds<'_>, kind: HeightKind, o: &Observation) -> i64
    ensures value { result ≡ height_in kinds.now.entries.now kind o.now }
    ensures small { unsigned_abs result ≤ largest_difference }
{
    height_among(kinds.around(kind, o), kind, o)
}

/// The height of a kind that an observation was made with, given the entries that it may be among.
fn height_among(entries: &[Entry], kind: HeightKind, o: &Observation) -> i64
    ensures value { result ≡ height_in entries.now kind o.now }
    ensures small { unsigned_abs result ≤ largest_difference }
{
    for entry in entries {
        if is_kind(entry.kind, kind) && sights_of(entry).hold(o) {
            return entry.length.get();
        }
    }
    0
}
