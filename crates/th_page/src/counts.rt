//! What decides the verdict, in numbers.
ghost use Rattle.std.specs.Prelude.{◌≡◌, count_by};
ghost use Rattle.th_page.specs.Contents.{joined_by, shown_by};
ghost use Rattle.th_page.specs.Counts.{counts_of, explains_all, fixed_count, free_count, is_first, is_marked, is_unchecked_entry, is_unchecked_sight, loop_count};

use crate::contents::Shown;
use crate::joined::Joined;
use th_blunders::is_blunder;
use th_explain_texts::Row;
use th_html::moved_count;
use th_picture::DrawnSight;
use th_reliability::{Mistake, SharedMistake};
use th_review_rows::{EntryRow, ObservationRow, PointRow};

/// What decides the verdict.
#[derive(Clone, Copy, Debug)]
pub(crate) struct Counts {
    pub sights: u64,
    /// The sights that are marked.
    pub marked: u64,
    /// The points that are benchmarks.
    pub benchmarks: u64,
    /// The other points.
    pub free: u64,
    /// The loops that close: the sights less the other points.
    pub loops: u64,
    /// The explanations.
    pub rows: u64,
    /// Those that explain most.
    pub firsts: u64,
    /// Those of them that explain all.
    pub explaining: u64,
    /// The points that are moved.
    pub moved: u64,
    /// The sights that no other checks.
    pub unchecked_sights: u64,
    /// The keyed-in heights that nothing checks.
    pub unchecked_entries: u64,
    /// Whether a sight is far beyond the usual residual, though it is not marked.
    pub has_outlier: bool,
}

/// What decides the verdict of a page.
pub(crate) fn counts_of(shown: &Shown<'_>, joined: &Joined) -> Counts
    ensures { result ≡ counts_of (shown_by shown.now) (joined_by joined.now) }
{
    let sights = shown.sights.len() as u64;
    let explained = &shown.explained;
    Counts {
        sights,
        marked: marked_count(explained.limit, &joined.sights),
        benchmarks: fixed_count(shown.points),
        free: free_count(shown.points),
        loops: loop_count(shown.points, sights),
        rows: explained.rows.len() as u64,
        firsts: first_count(explained.rows),
        explaining: explaining_count(explained.rows),
        moved: moved_count(&joined.points),
        unchecked_sights: unchecked_sights(shown.sights),
        unchecked_entries: unchecked_entries(shown.entries),
        has_outlier: explained.answer.outlier.is_some(),
    }
}

/// How many sights are marked.
fn marked_count(limit: i64, sights: &[DrawnSight]) -> u64
    ensures { result ≡ count_by (is_marked limit) sights.now }
{
    let mut count = 0;
    for sight in sights {
        if is_blunder(sight.row.residual, limit) {
            count += 1;
        }
    }
    count
}

/// How many points are benchmarks.
fn fixed_count(points: &[PointRow]) -> u64
    ensures { result ≡ fixed_count points.now }
{
    let mut count = 0;
    for row in points {
        if row.strength.is_none() {
            count += 1;
        }
    }
    count
}

/// How many points are no benchmarks.
fn free_count(points: &[PointRow]) -> u64
    ensures { result ≡ free_count points.now }
{
    (points.len() as u64).saturating_sub(fixed_count(points))
}

/// How many loops close, of so many sights.
fn loop_count(points: &[PointRow], sights: u64) -> u64
    ensures { result ≡ loop_count points.now sights }
{
    sights.saturating_sub(free_count(points))
}

/// How many rows explain most.
fn first_count(rows: &[Row]) -> u64
    ensures { result ≡ count_by is_first rows.now }
{
    let mut count = 0;
    for row in rows {
        if row.number == 1 {
            count += 1;
        }
    }
    count
}

/// How many of the rows that explain most leave no blunder.
fn explaining_count(rows: &[Row]) -> u64
    ensures { result ≡ count_by explains_all rows.now }
{
    let mut count = 0;
    for row in rows {
        if row.number == 1 && row.blunders == 0 {
            count += 1;
        }
    }
    count
}

/// How many sights no other checks.
fn unchecked_sights(sights: &[ObservationRow]) -> u64
    ensures { result ≡ count_by is_unchecked_sight sights.now }
{
    let mut count = 0;
    for row in sights {
        if matches!(row.mistake, Mistake::Unchecked) {
            count += 1;
        }
    }
    count
}

/// How many keyed-in heights nothing checks.
fn unchecked_entries(entries: &[EntryRow]) -> u64
    ensures { result ≡ count_by is_unchecked_entry entries.now }
{
    let mut count = 0;
    for row in entries {
        if matches!(row.mistake, SharedMistake::Unchecked) {
            count += 1;
        }
    }
    count
}
