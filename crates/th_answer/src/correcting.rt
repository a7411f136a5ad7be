//! The survey with a row put right, adjusted again.
ghost use Rattle.std.specs.Prelude.{◌≡◌, ◌++◌, ◌≤◌, List, IfOk, OnOk, map, option_to_list, unsigned_abs};
ghost use Rattle.std.specs.Prelude.{◌*ℤ◌};
ghost use Rattle.th_blunders.specs.Blunders.{is_blunder};
ghost use Rattle.th_changes.specs.Numbers.{lift};
ghost use Rattle.th_circulation.specs.Extremes.{AreLowest};
ghost use Rattle.th_entries.specs.declared.entries.Entry.{Entry};
ghost use Rattle.th_network.specs.Networks.{AreAtPoints, at_points_of, points_of};
ghost use Rattle.th_observations.specs.Observed.{largest_difference};
ghost use Rattle.th_answer.specs.Inside.Readjusted.{AreReadjusted, IsAdjusted, IsGrowthOrNone, IsReadjustedOrNone, IsWithOrNone};
ghost use Rattle.th_answer.specs.Inside.Raised.{AreRaised};

use crate::remedies::{Remedy, remedy_of};
use gsi_word::Name;
use std::alloc::{AllocError, Global};
use th_blunders::{Fit, is_blunder};
use th_changes::{Number, reach_of, tilted};
use th_circulation::best_heights;
use th_explain::Mending;
use th_explain_texts::{Row, Values, mildest_value};
use th_network::Network;
use th_numbers::{Kinds, reread_network};

/// What is listed of a survey with a row put right.
#[derive(Drop)]
pub(crate) struct Readjusted {
    /// The lowest best height of each point, in point order and in units of 10 nm.
    pub heights: Vec<i64>,
    /// Whether each observation is marked at them.
    pub marks: Vec<bool>,
}

/// The survey with each of some rows put right, one after another, where it can be.
pub(crate) fn all_readjusted(
    alloc: Global,
    mending: &mut Mending<'_>,
    kinds: &Kinds<'_>,
    rows: &[Row],
    limit: i64,
) -> Result<Vec<Readjusted>, AllocError>
    ensures listed { IfOk result (λ listed. AreReadjusted mending.old.case.now.network.now kinds.now.entries.now limit rows.now listed.items) }
    ensures case { mending.new.case.now ≡ mending.old.case.now }
{
    let mut listed = Vec::with_capacity(alloc, rows.len())?;
    for row in rows {
        let own = row_readjusted(alloc, mending, kinds, row, limit)?;
        add_readjusted(&mut listed, own)?;
    }
    Ok(listed)
}

/// Adds what is listed of one more row, if it can be put right.
fn add_readjusted(listed: &mut Vec<Readjusted>, own: Option<Readjusted>) -> Result<(), AllocError>
    ensures { OnOk result (listed.new.items ≡ listed.old.items ++ option_to_list own) }
{
    if let Some(own) = own {
        listed.push(own)?;
    }
    Ok(())
}

/// The survey with a row put right, if it can be.
fn row_readjusted(
    alloc: Global,
    mending: &mut Mending<'_>,
    kinds: &Kinds<'_>,
    row: &Row,
    limit: i64,
) -> Result<Option<Readjusted>, AllocError>
    ensures own { IfOk result (IsReadjustedOrNone mending.old.case.now.network.now kinds.now.entries.now limit row.now) }
    ensures case { mending.new.case.now ≡ mending.old.case.now }
{
    match remedy_of(kinds.entries, row) {
        Some(remedy) => with_remedy(alloc, mending, kinds, &remedy, limit),
        None => Ok(None),
    }
}

/// The survey with this remedy, if it is possible.
fn with_remedy(
    alloc: Global,
    mending: &mut Mending<'_>,
    kinds: &Kinds<'_>,
    remedy: &Remedy,
    limit: i64,
) -> Result<Option<Readjusted>, AllocError>
    ensures own { IfOk result (IsWithOrNone mending.old.case.now.network.now kinds.now.entries.now limit remedy.now) }
    ensures case { mending.new.case.now ≡ mending.old.case.now }
{
    match remedy {
        Remedy::Change(number, values) => changed(alloc, mending, number, values, limit),
        Remedy::MarkToMark(book) => reread(alloc, mending.case.network, kinds, *book, limit),
    }
}

/// The survey in which a number has the mildest of its values, if that is within reach.
fn changed(
    alloc: Global,
    mending: &mut Mending<'_>,
    number: &Number,
    values: &Values,
    limit: i64,
) -> Result<Option<Readjusted>, AllocError>
    ensures own { IfOk result (λ own. (entries : List Entry)
        → IsWithOrNone mending.old.case.now.network.now entries limit (Remedy.Change number.now values.now) own) }
    ensures case { mending.new.case.now ≡ mending.old.case.now }
{
    let network = mending.case.network;
    let Some(growth) = growth_within(network, number, values) else {
        return Ok(None);
    };
    let own = tilted(alloc, network, number, growth)?;
    let low = mending.lowest(alloc, &own, number, growth)?;
    let Readjusted { heights, marks } = marked(alloc, &own, &low, limit)?;
    let heights = raised(alloc, &own, number, growth, &heights)?;
    Ok(Some(Readjusted { heights, marks }))
}

/// How much a number grows that gets the mildest of its values, if that is within reach.
fn growth_within(network: &Network, number: &Number, values: &Values) -> Option<i64>
    ensures { IsGrowthOrNone network.now number.now values.now result }
{
    let growth = mildest_value(values).checked_sub(values.given)?;
    if growth.unsigned_abs() > reach_of(number, network) {
        return None;
    }
    Some(growth)
}

/// The survey in which a book is read from mark to mark, if it can be.
fn reread(
    alloc: Global,
    network: &Network,
    kinds: &Kinds<'_>,
    book: u32,
    limit: i64,
) -> Result<Option<Readjusted>, AllocError>
    ensures { IfOk result (IsWithOrNone network.now kinds.now.entries.now limit (Remedy.MarkToMark book)) }
{
    match reread_network(alloc, network, kinds, book)? {
        Some(own) => Ok(Some(adjusted(alloc, &own, limit)?)),
        None => Ok(None),
    }
}

/// A network adjusted: its lowest best heights, and the marks at them.
fn adjusted(alloc: Global, network: &Network, limit: i64) -> Result<Readjusted, AllocError>
    ensures { IfOk result (IsAdjusted network.now limit) }
{
    let best = best_heights(alloc, network)?;
    marked(alloc, network, best.low(), limit)
}

/// The lowest best heights of a network, with the marks at them.
fn marked(
    alloc: Global,
    network: &Network,
    low: &[i64],
    limit: i64,
) -> Result<Readjusted, AllocError>
    requires at_points { AreAtPoints network.now low.now }
    requires lowest { AreLowest network.now (at_points_of network.now low.now) }
    ensures { IfOk result (IsAdjusted network.now limit) }
{
    let fit = Fit::of(alloc, network, low)?;
    let heights = Vec::from_slice(alloc, low)?;
    let marks = marks_of(alloc, &fit.residuals, limit)?;
    Ok(Readjusted { heights, marks })
}

/// Whether each residual is above the limit.
fn marks_of(alloc: Global, residuals: &[i64], limit: i64) -> Result<Vec<bool>, AllocError>
    ensures { IfOk result (λ marks. marks.items ≡ map (is_blunder limit) residuals.now) }
{
    let mut marks = Vec::with_capacity(alloc, residuals.len())?;
    for residual in residuals {
        marks.push(is_blunder(*residual, limit))?;
    }
    Ok(marks)
}

/// Heights in point order, higher where a number that grows by so much is the height of a benchmark.
fn raised(
    alloc: Global,
    network: &Network,
    number: &Number,
    growth: i64,
    heights: &[i64],
) -> Result<Vec<i64>, AllocError>
    requires heights { AreAtPoints network.now heights.now }
    requires growth { unsigned_abs growth ≤ largest_difference }
    ensures raised { IfOk result (λ own. AreRaised number.now growth (points_of network.now) (at_points_of network.now heights.now) own.items) }
{
    let mut own = Vec::with_capacity(alloc, heights.len())?;
    for (k, name) in network.points().iter().enumerate() {
        own.push(heights[k] + lifted(number, name, growth))?;
    }
    Ok(own)
}

/// How much a height in the table grows with a number that grows by so much.
fn lifted(number: &Number, name: &Name, growth: i64) -> i64
    ensures lifted { result ≡ growth *ℤ lift number.now name.now }
    ensures small { unsigned_abs result ≤ unsigned_abs growth }
{
    match number {
        Number::Benchmark(own) if *own == *name => growth,
        _ => 0,
    }
}
