//! The heights that move once rows are put right.
ghost use Rattle.std.specs.Prelude.{◌≡◌, ◌*◌, ◌<◌, ◌≤◌, List, All, IfOk, length, map, unsigned_abs};
ghost use Rattle.std.specs.List.{AllZip, list_any};
ghost use Rattle.th_network.specs.Limits.{height_limit};
ghost use Rattle.th_network.specs.Networks.{AreAtPoints, at_points_of, points_of};
ghost use Rattle.th_answer.specs.Corrected.{Corrected};
ghost use Rattle.th_answer.specs.Inside.Moving.{drawn_heights, heights_in, is_moved_in, moved_in, wider};
ghost use Rattle.th_answer.specs.Inside.Readjusted.{IsListed};
ghost use Rattle.th_answer.specs.Moved.{is_moved, moved_of, span_of};

use crate::answers::Moved;
use crate::correcting::Readjusted;
use std::alloc::{AllocError, Global};
use th_blunders::is_blunder;
use th_network::Network;

/// For each point of a network its heights with rows put right, if one of them moves it by more than the limit
/// from its lowest best height.
pub(crate) fn all_moved(
    alloc: Global,
    network: &Network,
    low: &[i64],
    corrected: &[Readjusted],
    limit: i64,
) -> Result<Vec<Option<Moved>>, AllocError>
    requires low { AreAtPoints network.now low.now }
    requires each { All (λ own. length own.heights.items ≡ length low.now) corrected.now }
    requires in_range { All (λ own. All (λ height. unsigned_abs height < 2 * height_limit) own.heights.items) corrected.now }
    ensures { IfOk result (λ moved. (after : List Corrected)
        → AllZip (IsListed network.now limit) after corrected.now
        → moved.items ≡ map (moved_of limit (at_points_of network.now low.now) after) (points_of network.now)) }
{
    let points = network.points();
    let mut moved = Vec::with_capacity(alloc, points.len())?;
    for place in 0..points.len() {
        moved.push(moved_at(corrected, place, low[place], limit))?;
    }
    Ok(moved)
}

/// The heights at a place with rows put right, if one of them differs from this height by more than the limit.
fn moved_at(corrected: &[Readjusted], place: usize, from: i64, limit: i64) -> Option<Moved>
    requires from { unsigned_abs from < height_limit }
    requires each { All (λ own. place < length own.heights.items) corrected.now }
    requires in_range { All (λ own. All (λ height. unsigned_abs height < 2 * height_limit) own.heights.items) corrected.now }
    ensures { result ≡ moved_in limit from place corrected.now }
{
    if is_one_moved(corrected, place, from, limit) {
        span_at(corrected, place)
    } else {
        None
    }
}

/// Whether one of the heights at a place differs from this one by more than the limit.
fn is_one_moved(corrected: &[Readjusted], place: usize, from: i64, limit: i64) -> bool
    requires from { unsigned_abs from < height_limit }
    requires each { All (λ own. place < length own.heights.items) corrected.now }
    requires in_range { All (λ own. All (λ height. unsigned_abs height < 2 * height_limit) own.heights.items) corrected.now }
    ensures { result ≡ list_any (is_moved_in limit from place) corrected.now }
{
    for own in corrected {
        if is_moved(own.heights[place], from, limit) {
            return true;
        }
    }
    false
}

/// Whether a height differs from another one by more than the limit.
fn is_moved(height: i64, from: i64, limit: i64) -> bool
    requires height { unsigned_abs height < 2 * height_limit }
    requires from { unsigned_abs from < height_limit }
    ensures { result ≡ is_moved limit from height }
{
    is_blunder(height - from, limit)
}

/// The least and the greatest of the heights at a place.
fn span_at(corrected: &[Readjusted], place: usize) -> Option<Moved>
    requires { All (λ own. place < length own.heights.items) corrected.now }
    ensures { result ≡ span_of (heights_in corrected.now place) }
{
    let mut span = None;
    for own in corrected {
        span = wider(span, own.heights[place]);
    }
    span
}

/// The least and the greatest of some heights and one more.
fn wider(span: Option<Moved>, height: i64) -> Option<Moved>
    ensures { result ≡ wider span height }
{
    match span {
        Some(span) => Some(Moved {
            low: span.low.min(height),
            high: span.high.max(height),
        }),
        None => Some(Moved {
            low: height,
            high: height,
        }),
    }
}

/// The heights that a picture shows, in point order: those with the row put right, if there is one row alone and it
/// can be; else the lowest best ones.
pub(crate) fn drawn_of(
    alloc: Global,
    low: &[i64],
    rows: usize,
    corrected: &[Readjusted],
) -> Result<Vec<i64>, AllocError>
    ensures { IfOk result (λ drawn. drawn.items ≡ drawn_heights low.now rows corrected.now) }
{
    if rows == 1 && corrected.len() == 1 {
        Vec::from_slice(alloc, &corrected[0].heights)
    } else {
        Vec::from_slice(alloc, low)
    }
}
