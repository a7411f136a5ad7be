//! What a mistake may hide in, or drag.
ghost use Rattle.std.specs.Prelude.{◌≡◌, IfOk, filter};
ghost use Rattle.th_review_rows.specs.Weak.{is_weak_benchmark, is_weak_entry, is_weak_observation};

use std::alloc::{AllocError, Global};
use th_review_rows::{
    BenchmarkRow, EntryRow, ObservationRow, is_weak_benchmark, is_weak_entry, is_weak_observation,
};

/// The sights in which a mistake may stay hidden.
pub(crate) fn weak_sights(
    alloc: Global,
    sights: &[ObservationRow],
) -> Result<Vec<ObservationRow>, AllocError>
    ensures { IfOk result (λ rows. rows.items ≡ filter is_weak_observation sights.now) }
{
    sights
        .iter()
        .copied()
        .filter(|sight| is_weak_observation(sight))
        .collect(alloc)
}

/// The entries in which a mistake may move points.
pub(crate) fn weak_entries(alloc: Global, entries: &[EntryRow]) -> Result<Vec<EntryRow>, AllocError>
    ensures { IfOk result (λ rows. rows.items ≡ filter is_weak_entry entries.now) }
{
    entries
        .iter()
        .copied()
        .filter(|row| is_weak_entry(row))
        .collect(alloc)
}

/// The benchmarks in whose heights a mistake may move points.
pub(crate) fn weak_benchmarks(
    alloc: Global,
    benchmarks: &[BenchmarkRow],
) -> Result<Vec<BenchmarkRow>, AllocError>
    ensures { IfOk result (λ rows. rows.items ≡ filter is_weak_benchmark benchmarks.now) }
{
    benchmarks
        .iter()
        .copied()
        .filter(|row| is_weak_benchmark(row))
        .collect(alloc)
}
