//! Rows in which a mistake may not show.
ghost use Rattle.std.specs.Prelude.{◌≡◌, count_by};
ghost use Rattle.th_review_rows.specs.Weak.{is_weak, is_weak_benchmark, is_weak_entry, is_weak_observation, is_weak_shared, may_be_weak};

use crate::rows::{BenchmarkRow, EntryRow, ObservationRow};
use th_reliability::{Mistake, SharedMistake};

/// Whether a mistake in an observation may stay hidden.
pub fn is_weak_observation(row: &ObservationRow) -> bool
    ensures { result ≡ is_weak_observation row.now }
{
    is_weak(&row.mistake)
}

/// Whether a mistake in an entry may move points.
pub fn is_weak_entry(row: &EntryRow) -> bool
    ensures { result ≡ is_weak_entry row.now }
{
    is_weak_shared(&row.mistake)
}

/// Whether a wrong height of a benchmark may move points.
pub fn is_weak_benchmark(row: &BenchmarkRow) -> bool
    ensures { result ≡ is_weak_benchmark row.now }
{
    may_be_weak(&row.mistake)
}

/// How many observations are weak.
pub fn weak_observation_count(rows: &[ObservationRow]) -> usize
    ensures { result ≡ count_by is_weak_observation rows.now }
{
    let mut count = 0;
    for row in rows {
        if is_weak_observation(row) {
            count += 1;
        }
    }
    count
}

/// How many entries are weak.
pub fn weak_entry_count(rows: &[EntryRow]) -> usize
    ensures { result ≡ count_by is_weak_entry rows.now }
{
    let mut count = 0;
    for row in rows {
        if is_weak_entry(row) {
            count += 1;
        }
    }
    count
}

/// How many benchmarks are weak.
pub fn weak_benchmark_count(rows: &[BenchmarkRow]) -> usize
    ensures { result ≡ count_by is_weak_benchmark rows.now }
{
    let mut count = 0;
    for row in rows {
        if is_weak_benchmark(row) {
            count += 1;
        }
    }
    count
}

/// Whether a mistake may not show.
fn is_weak(mistake: &Mistake) -> bool
    ensures { result ≡ is_weak mistake.now }
{
    !matches!(mistake, Mistake::Shows)
}

/// Whether a mistake that several observations share may not show.
fn is_weak_shared(mistake: &SharedMistake) -> bool
    ensures { result ≡ is_weak_shared mistake.now }
{
    !matches!(mistake, SharedMistake::Shows)
}

/// Whether a wrong height of a benchmark may not show; one without observations does nothing.
fn may_be_weak(mistake: &Option<SharedMistake>) -> bool
    ensures { result ≡ may_be_weak mistake.now }
{
    match mistake {
        Some(mistake) => is_weak_shared(mistake),
        None => false,
    }
}
