//! The row of a number that passes.
ghost use Rattle.std.specs.Prelude.{◌≡◌, ◌≤◌, ◌↔◌, ◌++◌, IfOk, IfSome, OnOk, option_to_list, true, unsigned_abs};
ghost use Rattle.std.specs.List.{AllZip, enumerate_from};
ghost use Rattle.th_observations.specs.Observed.{largest_difference};
ghost use Rattle.th_explain_rows.specs.Inside.Passing.{AreRowsAhead, IsAheadOrNone, IsRowOfFound};
ghost use Rattle.th_explain_rows.specs.Inside.Sifting.{IsSiftedOrBehind};
ghost use Rattle.th_explain_rows.specs.Rows.{IsBehind, IsRow, Passes, mildest_change, row_of, values_of};

use crate::sifting::Sifted;
use std::alloc::{AllocError, Global};
use th_explain::laws::{freed_is_one, mistake_explains};
use th_explain::{Freed, Mending, blunders_left};
use th_explain_texts::{Row, Values};
use th_network::Network;
use th_numbers::{Candidate, Label, sight_count};

/// Which numbers are rows: those whose mildest change is beyond the limit of blunders, in units of 10 nm; and where
/// there are such numbers, those whose mildest change is beyond half of the limit and which leave no more than `best`,
/// the least that one beyond the limit leaves, in units of 10 nm times weight.
#[derive(Clone, Copy)]
pub struct Filter {
    pub limit: i64,
    pub best: Option<u128>,
}

/// Where rows end that may be printed: numbers that leave more than this, in units of 10 nm times weight, are behind
/// it, and so are those from a place on that leave as much. Places in the order of numbers count from 0.
#[derive(Clone, Copy)]
pub struct Cutoff {
    pub left: u128,
    pub place: usize,
}

/// The rows of the numbers that pass and are ahead of the cutoff, in their order, given what is left if each is freed.
pub(crate) fn rows_ahead(
    alloc: Global,
    mending: &mut Mending<'_>,
    candidates: &[Candidate],
    found: &Sifted,
) -> Result<Vec<Row>, AllocError>
    requires { AllZip (IsSiftedOrBehind mending.old.case.now.network.now found.now.filter found.now.cutoff) (enumerate_from 0 candidates.now) found.now.freed.items }
    ensures rows { IfOk result (λ rows.
        AreRowsAhead mending.old.case.now found.now.filter found.now.cutoff (enumerate_from 0 candidates.now) rows.items) }
    ensures case { mending.new.case.now ≡ mending.old.case.now }
{
    freed_is_one();
    let mut rows = Vec::new(alloc);
    for k in 0..candidates.len() {
        let own = ahead(found.cutoff, k, &found.freed[k]);
        let row = row_of_found(alloc, mending, found.filter, &candidates[k], &own)?;
        add_row(&mut rows, &row)?;
    }
    Ok(rows)
}

/// Adds a row, if there is one.
pub(crate) fn add_row(rows: &mut Vec<Row>, found: &Option<Row>) -> Result<(), AllocError>
    ensures { OnOk result (rows.new.items ≡ rows.old.items ++ option_to_list found.now) }
{
    if let Some(row) = found {
        rows.extend_from_slice(&[*row])?;
    }
    Ok(())
}

/// What was found of a number at a place, if it is ahead of the cutoff.
fn ahead(cutoff: Option<Cutoff>, place: usize, found: &Option<Freed>) -> Option<Freed>
    ensures { IsAheadOrNone cutoff place found.now result }
{
    match found {
        Some(freed) if !is_behind(cutoff, place, freed.left) => Some(*freed),
        _ => None,
    }
}

/// Whether a number at a place that leaves so much is behind a cutoff.
pub(crate) fn is_behind(cutoff: Option<Cutoff>, place: usize, left: u128) -> bool
    ensures { (result ≡ true) ↔ IsBehind cutoff place left }
{
    match cutoff {
        Some(cutoff) => cutoff.left < left || (cutoff.left == left && cutoff.place <= place),
        None => false,
    }
}

/// The row of what was found of a number.
fn row_of_found(
    alloc: Global,
    mending: &mut Mending<'_>,
    filter: Filter,
    candidate: &Candidate,
    found: &Option<Freed>,
) -> Result<Option<Row>, AllocError>
    requires { IfSome found.now (Passes mending.old.case.now.network.now filter candidate.now) }
    ensures row { IfOk result (IsRowOfFound mending.old.case.now.network.now mending.old.case.now.cost filter candidate.now found.now) }
    ensures case { mending.new.case.now ≡ mending.old.case.now }
{
    match found {
        Some(freed) => {
            let row = row_if_passed(alloc, mending, filter, candidate, freed)?;
            Ok(Some(row))
        }
        None => Ok(None),
    }
}

/// The row of a number that passes.
fn row_if_passed(
    alloc: Global,
    mending: &mut Mending<'_>,
    filter: Filter,
    candidate: &Candidate,
    freed: &Freed,
) -> Result<Row, AllocError>
    requires { Passes mending.old.case.now.network.now filter candidate.now freed.now }
    ensures row { IfOk result (IsRow mending.old.case.now.network.now mending.old.case.now.cost filter candidate.now) }
    ensures left { IfOk result (λ row. row.left ≡ freed.now.left) }
    ensures case { mending.new.case.now ≡ mending.old.case.now }
{
    mistake_explains();
    let case = mending.case;
    let number = candidate.number();
    let change = mildest_change(freed);
    let blunders = blunders_left(alloc, mending, &number, change, filter.limit)?;
    Ok(row_of(case.network, case.cost, candidate, freed, blunders))
}

/// The row of a number that explains what does not fit, and leaves so many blunders.
fn row_of(network: &Network, cost: u128, candidate: &Candidate, freed: &Freed, blunders: u32) -> Row
    requires low { unsigned_abs freed.now.low ≤ largest_difference }
    requires high { unsigned_abs freed.now.high ≤ largest_difference }
    requires less { freed.now.left ≤ cost }
    ensures { result ≡ row_of network.now cost candidate.now freed.now blunders }
{
    let Label {
        kind,
        book,
        line,
        last,
        from,
        to,
    } = candidate.label();
    let sights = sight_count(network, &candidate.number());
    let values = values_of(candidate.given(network.benchmarks()), freed);
    Row {
        number: 0,
        kind,
        book,
        line,
        last,
        from,
        to,
        sights,
        values: Some(values),
        explains: cost - freed.left,
        left: freed.left,
        blunders,
    }
}

/// A given value, with the lowest and the highest value that are proposed.
fn values_of(given: i64, freed: &Freed) -> Values
    requires given { unsigned_abs given ≤ largest_difference }
    requires low { unsigned_abs freed.now.low ≤ largest_difference }
    requires high { unsigned_abs freed.now.high ≤ largest_difference }
    ensures { result ≡ values_of given freed.now }
{
    Values {
        given,
        low: given + freed.low,
        high: given + freed.high,
    }
}

/// The mildest of the changes that are proposed, the one nearest to none.
fn mildest_change(freed: &Freed) -> i64
    ensures { result ≡ mildest_change freed.now }
{
    if freed.low > 0 {
        freed.low
    } else if freed.high < 0 {
        freed.high
    } else {
        0
    }
}
