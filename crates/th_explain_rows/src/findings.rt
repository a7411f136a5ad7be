//! The rows of all numbers, and how many were looked at.
ghost use Rattle.std.specs.Prelude.{◌≡◌, ◌≤◌, ◌++◌, IfOk, IfSome, OnOk, length, option_to_list, true};
ghost use Rattle.std.specs.List.{flat_map};
ghost use Rattle.th_limits.specs.Limits.{max_books};
ghost use Rattle.th_explain_rows.specs.Explanations.{AreExplained, IsEnough, summary_with};
ghost use Rattle.th_explain_rows.specs.Inside.Passing.{AreRowsOf};
ghost use Rattle.th_numbers.specs.Lists.{in_order, listed_in};

use crate::finder::Finder;
use crate::guesses::first_freed;
use crate::passing::{all_passed, passed_before_cutoff};
use crate::rows::{Cutoff, add_row, rows_ahead};
use crate::sifting::{Sifted, filtered, is_settled};
use std::alloc::{AllocError, Global};
use th_blunders::{Fit, blunder_count};
use th_circulation::best_heights;
use th_entries::BookReview;
use th_explain::{Case, Mending};
use th_explain_texts::{MOST_ROWS, Named, ReadingRow, Row, Summary, ranked};
use th_meant::heights_named;
use th_names::readings_of;
use th_network::Network;
use th_numbers::{Candidate, Kinds, Listing, Reading, books_of, listing_of};
use th_progress::Progress;
use th_review_rows::entries_of;

/// What was looked at, the rows of the numbers that explain most, and what may have been meant where those with number
/// 1 doubt what was written: heights that were keyed in, names, and signs.
#[derive(Drop)]
pub struct Explanations {
    pub summary: Summary,
    pub rows: Vec<Row>,
    pub named: Vec<Named>,
    pub readings: Vec<ReadingRow>,
}

/// Which numbers of a network, and of the books with these reviews, explain what does not fit.
///
/// The limit of blunders is in units of 10 nm. The network is adjusted once for itself, once for each row and each
/// book, and at most twice for each name that the rows with number 1 doubt.
pub fn explanations_of<P: Progress>(
    alloc: Global,
    network: &Network,
    reviews: &[BookReview],
    limit: i64,
    progress: &mut P,
) -> Result<Explanations, AllocError>
    requires { length reviews.now ≤ max_books }
    ensures explained { IfOk result (AreExplained network.now reviews.now limit) }
{
    let best = best_heights(alloc, network)?;
    let fit = Fit::of(alloc, network, best.low())?;
    let case = Case::of(network, &best, &fit);
    let mending = Mending::of(alloc, &case)?;
    let found = explained_by(alloc, mending, reviews, limit, progress)?;
    Ok(found.0)
}

/// The same, of a network that was adjusted, which is given back.
pub fn explained_by<'a, P: Progress>(
    alloc: Global,
    mending: Mending<'a>,
    reviews: &[BookReview],
    limit: i64,
    progress: &mut P,
) -> Result<(Explanations, Mending<'a>), AllocError>
    requires { length reviews.now ≤ max_books }
    ensures explained { IfOk result (λ own. AreExplained mending.entry.case.now.network.now reviews.now limit own.0) }
    ensures case { IfOk result (λ own. own.1.case.now ≡ mending.entry.case.now) }
{
    let case = mending.case;
    let network = case.network;
    let fit = case.fit;
    let all_entries = entries_of(alloc, reviews)?;
    let entries = all_entries.as_slice();
    let all_books = books_of(alloc, reviews)?;
    let books = all_books.as_slice();
    let kinds = Kinds::of(alloc, entries)?;
    let listing = listing_of(alloc, network, &kinds)?;
    let marked = blunder_count(network.observations(), &fit.residuals, limit);
    let summary = summary_with(fit.cost, marked, &listing, books.len(), limit);
    let all = in_order(alloc, listing)?;
    let candidates = all.as_slice();
    let mut finder = Finder::of(alloc, mending, limit);
    let first = first_freed(alloc, case, candidates)?;
    let numbers = Numbers {
        all: candidates,
        first: &first,
    };
    let mut found = rows_of(alloc, &mut finder, numbers, progress)?;
    let reading = Reading {
        network,
        kinds: &kinds,
        cost: fit.cost,
        limit,
    };
    let read = reading.rows(alloc, books)?;
    add_rows(&mut found, read.as_slice())?;
    let rows = ranked(alloc, found.as_slice())?;
    let named = heights_named(alloc, entries, limit, rows.as_slice())?;
    let mut mending = finder.into_mending();
    let readings = readings_of(alloc, &mut mending, &kinds, limit, rows.as_slice())?;
    let own = Explanations {
        summary,
        rows,
        named,
        readings,
    };
    Ok((own, mending))
}

/// The numbers that are looked at.
#[derive(Clone, Copy)]
struct Numbers<'a> {
    all: &'a [Candidate],
    /// Those of them that are looked at first, which only makes others quicker.
    first: &'a [Candidate],
}

/// The rows of numbers that may be printed.
fn rows_of<P: Progress>(
    alloc: Global,
    finder: &mut Finder<'_>,
    numbers: Numbers<'_>,
    progress: &mut P,
) -> Result<Vec<Row>, AllocError>
    ensures rows { IfOk result (λ rows.
        AreRowsOf finder.old.misfit.case.now finder.old.misfit.limit numbers.entry.all.now rows.items) }
    ensures misfit { OnOk result (finder.new.misfit ≡ finder.old.misfit) }
{
    match rows_before_cutoff(alloc, finder, numbers, progress)? {
        Some(rows) => Ok(rows),
        None => rows_of_all(alloc, finder, numbers.all, progress),
    }
}

/// The same, where a cutoff was found with as many rows ahead of it as may be printed.
fn rows_before_cutoff<P: Progress>(
    alloc: Global,
    finder: &mut Finder<'_>,
    numbers: Numbers<'_>,
    progress: &mut P,
) -> Result<Option<Vec<Row>>, AllocError>
    ensures rows { IfOk result (λ found. IfSome found (λ rows.
        AreRowsOf finder.old.misfit.case.now finder.old.misfit.limit numbers.entry.all.now rows.items)) }
    ensures misfit { OnOk result (finder.new.misfit ≡ finder.old.misfit) }
{
    let candidates = numbers.all;
    let found = passed_before_cutoff(alloc, finder, numbers.first, candidates, progress)?;
    if !is_settled(&found) {
        return Ok(None);
    }
    let own = filtered(alloc, finder, candidates, found, progress)?;
    let rows = rows_ahead(alloc, &mut finder.mending, candidates, &own)?;
    if is_enough(own.cutoff, rows.len()) {
        Ok(Some(rows))
    } else {
        Ok(None)
    }
}

/// The same, without a cutoff.
fn rows_of_all<P: Progress>(
    alloc: Global,
    finder: &mut Finder<'_>,
    candidates: &[Candidate],
    progress: &mut P,
) -> Result<Vec<Row>, AllocError>
    ensures rows { IfOk result (λ rows.
        AreRowsOf finder.old.misfit.case.now finder.old.misfit.limit candidates.now rows.items) }
    ensures misfit { OnOk result (finder.new.misfit ≡ finder.old.misfit) }
{
    let all = all_passed(alloc, finder, candidates, progress)?;
    let own = filtered(alloc, finder, candidates, all, progress)?;
    let rows = rows_ahead(alloc, &mut finder.mending, candidates, &own)?;
    Ok(rows)
}

/// Whether so many rows ahead of a cutoff are as many as may be printed.
fn is_enough(cutoff: Option<Cutoff>, count: usize) -> bool
    ensures { result ≡ true → IsEnough cutoff count }
{
    match cutoff {
        Some(_) => count >= MOST_ROWS,
        None => true,
    }
}

/// What was looked at in numbers.
fn summary_with(cost: u128, marked: u32, listing: &Listing, books: usize, limit: i64) -> Summary
    ensures { result ≡ summary_with cost marked (listed_in listing.now) books limit }
{
    Summary {
        cost,
        limit,
        marked: marked as usize,
        sights: listing.sights.len(),
        entries: listing.entered.len(),
        changes: listing.changes.len(),
        benchmarks: listing.benchmarks.len(),
        books,
    }
}

/// All numbers in the order of rows that explain equally.
fn in_order(alloc: Global, listing: Listing) -> Result<Vec<Candidate>, AllocError>
    ensures { IfOk result (λ candidates. candidates.items ≡ in_order (listed_in listing)) }
{
    let Listing {
        entered,
        changes,
        sights,
        benchmarks,
    } = listing;
    let mut candidates = Vec::new(alloc);
    candidates.extend_from_slice(&entered)?;
    candidates.extend_from_slice(&changes)?;
    candidates.extend_from_slice(&sights)?;
    candidates.extend_from_slice(&benchmarks)?;
    Ok(candidates)
}

/// Adds the rows that there are.
fn add_rows(rows: &mut Vec<Row>, found: &[Option<Row>]) -> Result<(), AllocError>
    ensures { OnOk result (rows.new.items ≡ rows.old.items ++ flat_map option_to_list found.now) }
{
    for row in found {
        add_row(rows, row)?;
    }
    Ok(())
}
