//! The maps of a certificate: their heights in point order, and whether they keep the benchmarks.
ghost use Rattle.std.specs.Prelude.{◌≡◌, ◌<◌, IfOk, IfSome, MatchOption, bytes_eq, true, false, unsigned_abs};
ghost use Rattle.std.specs.List.{list_all, list_any};
ghost use Rattle.std.specs.Map.{lookup};
ghost use Rattle.std.specs.Option.{option_copied};
ghost use Rattle.th_network.specs.Limits.{height_limit};
ghost use Rattle.th_checker.specs.Inside.Tests.{AreListed, AreMaps, AreStated, listed_in};
ghost use Rattle.th_checker.specs.Verdicts.{if_there, keeps, names_are, of_all_maps};

use gsi_word::Name;
use std::alloc::{AllocError, Global};
use th_certificate::{Certificate, StatedHeights};
use th_hash::NameSet;
use th_tables::Benchmarks;

/// The heights of a certificate at the points, in their order.
#[derive(Drop)]
pub(crate) struct Maps {
    pub heights: Vec<i64>,
    pub low: SpanHeights,
    pub high: SpanHeights,
}

/// The heights of a span at the points.
#[derive(Drop)]
pub(crate) enum SpanHeights {
    /// The certificate has no such span.
    Absent,
    /// A height for each point, in their order.
    Listed(Vec<i64>),
}

/// The heights of a certificate at the points; none where the names of a map are not just these.
pub(crate) fn maps_at(
    alloc: Global,
    points: &NameSet<Name>,
    certificate: &Certificate,
) -> Result<Option<Maps>, AllocError>
    ensures { IfOk result (λ found. MatchOption found
        (of_all_maps (names_are points.now.keys) certificate.now ≡ false)
        (λ maps. (of_all_maps (names_are points.now.keys) certificate.now ≡ true)
        × AreMaps points.now.keys certificate.now maps)) }
{
    let heights = match heights_at(alloc, points, certificate.heights())? {
        Some(heights) => heights,
        None => return Ok(None),
    };
    let low = match span_at(alloc, points, certificate.low())? {
        Some(low) => low,
        None => return Ok(None),
    };
    match span_at(alloc, points, certificate.high())? {
        Some(high) => Ok(Some(Maps { heights, low, high })),
        None => Ok(None),
    }
}

/// The heights of a span at the points; none where its names are not just these.
fn span_at(
    alloc: Global,
    points: &NameSet<Name>,
    span: Option<&StatedHeights>,
) -> Result<Option<SpanHeights>, AllocError>
    ensures { IfOk result (λ found. MatchOption found
        (if_there (names_are points.now.keys) (option_copied span.entry) ≡ false)
        (λ listed. (if_there (names_are points.now.keys) (option_copied span.entry) ≡ true)
        × AreListed points.now.keys (option_copied span.entry) (listed_in listed))) }
{
    let stated = match span {
        Some(stated) => stated,
        None => return Ok(Some(SpanHeights::Absent)),
    };
    match heights_at(alloc, points, stated)? {
        Some(heights) => Ok(Some(SpanHeights::Listed(heights))),
        None => Ok(None),
    }
}

/// The heights that are stated for some points, in their order; none where the names that are stated
/// are not just these points.
fn heights_at(
    alloc: Global,
    points: &NameSet<Name>,
    stated: &StatedHeights,
) -> Result<Option<Vec<i64>>, AllocError>
    ensures { IfOk result (λ found. MatchOption found (names_are points.now.keys stated.now ≡ false)
        (λ heights. (names_are points.now.keys stated.now ≡ true)
        × AreStated points.now.keys stated.now heights.items)) }
{
    if !are_points(points, stated) {
        return Ok(None);
    }
    let mut heights = Vec::with_capacity(alloc, points.len())?;
    for name in points.as_slice() {
        match height_near(stated, name, heights.len()) {
            Some(height) => heights.push(height)?,
            None => return Ok(None),
        }
    }
    Ok(Some(heights))
}

/// The height that is stated for a name, if any. The row at a place is tried first: what is written
/// in the order of the points has it there.
fn height_near(stated: &StatedHeights, name: &Name, place: usize) -> Option<i64>
    ensures value { result ≡ lookup (bytes_eq name.now) stated.now }
    ensures in_range { IfSome result (λ height. unsigned_abs height < height_limit) }
{
    match stated.entry(place) {
        Some((there, height)) if there == *name => Some(height),
        _ => stated.height_of(name),
    }
}

/// Whether each name that is stated is a point.
fn are_points(points: &NameSet<Name>, stated: &StatedHeights) -> bool
    ensures { result ≡ list_all (λ row. list_any (bytes_eq row.0) points.now.keys) stated.now }
{
    let mut k = 0;
    while let Some(row) = stated.entry(k) {
        if !is_point(points, &row.0, k) {
            return false;
        }
        k += 1;
    }
    true
}

/// Whether a name is a point. The point at a place is tried first, as in `height_near`.
fn is_point(points: &NameSet<Name>, name: &Name, place: usize) -> bool
    ensures { result ≡ list_any (bytes_eq name.now) points.now.keys }
{
    match points.get_index(place) {
        Some(there) if there == name => true,
        _ => points.contains(name),
    }
}

/// Whether all maps of a certificate keep the benchmarks.
pub(crate) fn all_keep(benchmarks: &Benchmarks, certificate: &Certificate) -> bool
    ensures { result ≡ of_all_maps (keeps benchmarks.now) certificate.now }
{
    keeps(benchmarks, certificate.heights())
        && span_keeps(benchmarks, certificate.low())
        && span_keeps(benchmarks, certificate.high())
}

/// Whether a span keeps the benchmarks, where there is one.
fn span_keeps(benchmarks: &Benchmarks, span: Option<&StatedHeights>) -> bool
    ensures { result ≡ if_there (keeps benchmarks.now) (option_copied span.entry) }
{
    match span {
        Some(stated) => keeps(benchmarks, stated),
        None => true,
    }
}

/// Whether the height of each benchmark is the one that is stated.
fn keeps(benchmarks: &Benchmarks, stated: &StatedHeights) -> bool
    ensures { result ≡ keeps benchmarks.now stated.now }
{
    let mut k = 0;
    while let Some(row) = benchmarks.entry(k) {
        if stated.height_of(&row.0).unwrap_or(0) != row.1 {
            return false;
        }
        k += 1;
    }
    true
}
