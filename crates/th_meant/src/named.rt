//! What may have been meant by the heights that rows doubt.
ghost use Rattle.std.specs.Prelude.{◌≡◌, ◌++◌, IfOk, OnOk, filter, map};
ghost use Rattle.std.specs.List.{flat_map};
ghost use Rattle.th_meant.specs.Keyed.{tolerance_of};
ghost use Rattle.th_meant.specs.Inside.Named.{named_by, named_for, named_in};
ghost use Rattle.th_meant.specs.Named.{AreNamedIn, is_elsewhere, is_pole_elsewhere, is_same, named_with, other_at, others_of, poles_first, typed_of};
ghost use Rattle.th_meant.specs.Meant.{is_among};

use crate::keyed::{Keyed, keyed_in};
use crate::laws::computed_are_named;
use crate::meant::meant_of;
use crate::typed::Typed;
use std::alloc::{AllocError, Global};
use th_entries::Entry;
use th_explain_texts::{Named, Row, is_pole};
use th_numbers::is_kind;

/// The heights that may have been meant where rows with number 1 doubt what was keyed in, nearest first for each.
///
/// `entries` are all of the survey, and the limit of blunders is in units of 10 nm. Where poles are among them that are in
/// force elsewhere, these alone are named.
pub fn heights_named(
    alloc: Global,
    entries: &[Entry],
    limit: i64,
    rows: &[Row],
) -> Result<Vec<Named>, AllocError>
    ensures { IfOk result (λ named. AreNamedIn entries.now limit rows.now named.items) }
{
    computed_are_named();
    heights_computed(alloc, entries, limit, rows)
}

/// The same heights, as they are computed.
fn heights_computed(
    alloc: Global,
    entries: &[Entry],
    limit: i64,
    rows: &[Row],
) -> Result<Vec<Named>, AllocError>
    ensures { IfOk result (λ named. named.items ≡ named_in entries.now limit rows.now) }
{
    let keyed = keyed_in(alloc, entries, tolerance_of(limit), rows)?;
    let all = named_by_each(alloc, entries, &keyed)?;
    poles_first(alloc, all)
}

/// A tenth of a limit of blunders, 0 where that is below.
fn tolerance_of(limit: i64) -> u64
    ensures { result ≡ tolerance_of limit }
{
    if limit < 0 {
        0
    } else {
        limit.unsigned_abs() / 10
    }
}

/// What may have been meant by each of some heights.
fn named_by_each(
    alloc: Global,
    entries: &[Entry],
    keyed: &[Keyed],
) -> Result<Vec<Named>, AllocError>
    ensures { IfOk result (λ named. named.items ≡ flat_map (named_by entries.now) keyed.now) }
{
    let mut named = Vec::new(alloc);
    for own in keyed {
        add_named(alloc, &mut named, entries, own)?;
    }
    Ok(named)
}

/// Adds what may have been meant by one height.
fn add_named(
    alloc: Global,
    named: &mut Vec<Named>,
    entries: &[Entry],
    keyed: &Keyed,
) -> Result<(), AllocError>
    ensures { OnOk result (named.new.items ≡ named.old.items ++ named_by entries.now keyed.now) }
{
    let others = others_of(alloc, entries, keyed)?;
    add_named_for(named, keyed, &others)
}

/// Adds what may have been meant by one height, given those that are in force elsewhere.
fn add_named_for(named: &mut Vec<Named>, keyed: &Keyed, others: &[i64]) -> Result<(), AllocError>
    ensures { OnOk result (named.new.items ≡ named.old.items ++ named_for keyed.now others.now) }
{
    let heights = meant_of(&typed_of(&keyed.entry), others, &keyed.proposed);
    add_each(named, keyed, others, heights.as_slice())
}

/// Adds some heights that may have been meant by one.
fn add_each(
    named: &mut Vec<Named>,
    keyed: &Keyed,
    others: &[i64],
    heights: &[i64],
) -> Result<(), AllocError>
    ensures { OnOk result (named.new.items ≡ named.old.items ++ map (named_with keyed.now others.now) heights.now) }
{
    for height in heights {
        named.push(named_with(keyed, others, *height))?;
    }
    Ok(())
}

/// A height as it was keyed in.
fn typed_of(entry: &Entry) -> Typed
    ensures { result ≡ typed_of entry.now }
{
    Typed {
        given: entry.length,
        unit: entry.unit,
    }
}

/// A height that may have been meant by one, given those that are in force elsewhere.
fn named_with(keyed: &Keyed, others: &[i64], height: i64) -> Named
    ensures { result ≡ named_with keyed.now others.now height }
{
    Named {
        row: keyed.row,
        height: keyed.entry.kind,
        typed: keyed.entry.length.get(),
        meant: height,
        elsewhere: is_among(height, others),
        whole: keyed.whole,
    }
}

/// Whether a height is one of some.
fn is_among(height: i64, heights: &[i64]) -> bool
    ensures { result ≡ is_among height heights.now }
{
    heights.iter().any(|own| *own == height)
}

/// The heights of the same kind that sights use which the number does not have.
fn others_of(alloc: Global, entries: &[Entry], keyed: &Keyed) -> Result<Vec<i64>, AllocError>
    ensures { IfOk result (λ others. others.items ≡ others_of entries.now keyed.now) }
{
    let mut others = Vec::new(alloc);
    for entry in entries {
        add_other(&mut others, keyed, entry)?;
    }
    Ok(others)
}

/// Adds the height of an entry, if it is in force elsewhere.
fn add_other(others: &mut Vec<i64>, keyed: &Keyed, entry: &Entry) -> Result<(), AllocError>
    ensures { OnOk result (others.new.items ≡ others.old.items ++ other_at keyed.now entry.now) }
{
    if is_elsewhere(keyed, entry) {
        others.push(entry.length.get())?;
    }
    Ok(())
}

/// Whether an entry is of the same kind, and sights use it that the number does not have.
fn is_elsewhere(keyed: &Keyed, entry: &Entry) -> bool
    ensures { result ≡ is_elsewhere keyed.now entry.now }
{
    is_kind(entry.kind, keyed.entry.kind) && !(keyed.whole && is_same(&keyed.entry, entry))
}

/// Whether two entries of a kind are the same one.
fn is_same(own: &Entry, entry: &Entry) -> bool
    ensures { result ≡ is_same own.now entry.now }
{
    own.book == entry.book && own.line == entry.line
}

/// The poles that are in force elsewhere; if there are none, all that is named.
fn poles_first(alloc: Global, all: Vec<Named>) -> Result<Vec<Named>, AllocError>
    ensures { IfOk result (λ named. named.items ≡ poles_first all.items) }
{
    let poles = poles_elsewhere(alloc, &all)?;
    if poles.is_empty() { Ok(all) } else { Ok(poles) }
}

/// The poles that are in force elsewhere.
fn poles_elsewhere(alloc: Global, all: &[Named]) -> Result<Vec<Named>, AllocError>
    ensures { IfOk result (λ poles. poles.items ≡ filter is_pole_elsewhere all.now) }
{
    all.iter()
        .copied()
        .filter(|own| is_pole(own.height) && own.elsewhere)
        .collect(alloc)
}
