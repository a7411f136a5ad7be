//! What the other benchmarks say of the height of one.
ghost use Rattle.std.specs.Prelude.{◌≡◌, ◌<◌, ◌≤◌, ◌+ℤ◌, ℕ, ℤ, List, IfOk, length, slice_get, take, unsigned_abs};
ghost use Rattle.std.specs.List.{AllZip};
ghost use Rattle.th_limits.specs.Limits.{largest_difference, max_len};
ghost use Rattle.th_numbers.specs.Ties.{AreTiedRows, IsTold};
ghost use Rattle.th_answer.specs.Limits.{asked_benchmarks};
ghost use Rattle.th_answer.specs.Others.{IsSaid};

use crate::answers::Others;
use crate::limits::asked_benchmarks;
use std::alloc::{AllocError, Global};
use th_changes::Number;
use th_explain::{Freed, Sieve, explanation_or_more};
use th_numbers::{TiedRow, tied_rows};

/// What the others say of the first rows of the benchmarks' table.
pub(crate) fn others_of(alloc: Global, sieve: &mut Sieve<'_>) -> Result<Vec<Others>, AllocError>
    ensures said { IfOk result (λ others. AllZip (IsSaid sieve.old.case.now.network.now)
        (take (asked_benchmarks (length sieve.old.case.now.network.now.observations))
        sieve.old.case.now.network.now.benchmarks)
        others.items) }
    ensures case { sieve.new.case.now ≡ sieve.old.case.now }
{
    let network = sieve.case.network;
    let rows = tied_rows(alloc, network)?;
    let most = asked_benchmarks(network.observations().len());
    let count = rows.len().min(most);
    let mut others = Vec::with_capacity(alloc, count)?;
    for place in 0..count {
        let said = said_of_row(alloc, sieve, &rows, place)?;
        others.push(said)?;
    }
    Ok(others)
}

/// What the others say of the row at a place of the benchmarks' table.
fn said_of_row(
    alloc: Global,
    sieve: &mut Sieve<'_>,
    rows: &[TiedRow],
    place: usize,
) -> Result<Others, AllocError>
    requires within { place < length rows.now }
    requires tied { AreTiedRows sieve.old.case.now.network.now rows.now }
    ensures said { IfOk result (λ said. (row : List ℕ × ℤ) → slice_get sieve.old.case.now.network.now.benchmarks place ≡ Some row
        → IsSaid sieve.old.case.now.network.now row said) }
    ensures case { sieve.new.case.now ≡ sieve.old.case.now }
{
    match sieve.case.network.benchmarks().entry(place) {
        Some((_, given)) => said(alloc, sieve, &rows[place], given),
        None => Ok(Others::Nothing),
    }
}

/// What the others say of a benchmark, given its height in units of 10 nm.
fn said(
    alloc: Global,
    sieve: &mut Sieve<'_>,
    row: &TiedRow,
    given: i64,
) -> Result<Others, AllocError>
    requires told { IsTold sieve.old.case.now.network.now (row.now.name, given) row.now }
    requires given { unsigned_abs given ≤ max_len }
    ensures said { IfOk result (IsSaid sieve.old.case.now.network.now (row.now.name, given)) }
    ensures case { sieve.new.case.now ≡ sieve.old.case.now }
{
    if !row.tied {
        return Ok(Others::Nothing);
    }
    let number = Number::Benchmark(row.name);
    match explanation_or_more(alloc, sieve, &number, 0, None)? {
        Some(freed) => Ok(differing(given, &freed)),
        None => Ok(Others::Fits),
    }
}

/// That other heights fit better, given what is left if the height is freed.
fn differing(given: i64, freed: &Freed) -> Others
    requires given { unsigned_abs given ≤ largest_difference }
    requires low { unsigned_abs freed.now.low ≤ largest_difference }
    requires high { unsigned_abs freed.now.high ≤ largest_difference }
    ensures { result ≡ Others.Differ (given +ℤ freed.now.low) (given +ℤ freed.now.high) }
{
    Others::Differ {
        low: given + freed.low,
        high: given + freed.high,
    }
}
