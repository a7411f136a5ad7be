//! The rows that tables show: points and benchmarks with what an answer says of them.
ghost use Rattle.std.specs.Prelude.{◌≡◌, IfOk, map};
ghost use Rattle.std.specs.List.{enumerate_from};
ghost use Rattle.th_html.specs.Shown.{moved_count, shown_benchmark, shown_point};

use std::alloc::{AllocError, Global};
use th_answer::{Moved, Others};
use th_review_rows::{BenchmarkRow, PointRow};

/// A point, and its heights once a number that explains most is put right, if one of these moves it by more
/// than the limit of blunders.
#[derive(Clone, Copy, Debug)]
pub struct ShownPoint {
    pub row: PointRow,
    pub moved: Option<Moved>,
}

/// A benchmark, and what the others say of it, if that was looked for.
#[derive(Clone, Copy, Debug)]
pub struct ShownBenchmark {
    pub row: BenchmarkRow,
    pub others: Option<Others>,
}

/// Points with what moves them, in the order of the points. A point behind the end of the list stays.
pub fn shown_points(
    alloc: Global,
    rows: &[PointRow],
    moved: &[Option<Moved>],
) -> Result<Vec<ShownPoint>, AllocError>
    ensures { IfOk result (λ points. points.items
        ≡ map (shown_point moved.now) (enumerate_from 0 rows.now)) }
{
    let mut points = Vec::with_capacity(alloc, rows.len())?;
    for (k, row) in rows.iter().enumerate() {
        points.push(shown_point(moved, k, row))?;
    }
    Ok(points)
}

/// Point `k`, from 0, with what moves it.
fn shown_point(moved: &[Option<Moved>], k: usize, row: &PointRow) -> ShownPoint
    ensures { result ≡ shown_point moved.now (k, row.now) }
{
    let moved = match moved.get(k) {
        Some(moved) => *moved,
        None => None,
    };
    ShownPoint { row: *row, moved }
}

/// Benchmarks with what the others say of the first ones, in the order of the table.
pub fn shown_benchmarks(
    alloc: Global,
    rows: &[BenchmarkRow],
    others: &[Others],
) -> Result<Vec<ShownBenchmark>, AllocError>
    ensures { IfOk result (λ benchmarks. benchmarks.items
        ≡ map (shown_benchmark others.now) (enumerate_from 0 rows.now)) }
{
    let mut benchmarks = Vec::with_capacity(alloc, rows.len())?;
    for (k, row) in rows.iter().enumerate() {
        benchmarks.push(shown_benchmark(others, k, row))?;
    }
    Ok(benchmarks)
}

/// Benchmark `k`, from 0, with what the others say of it.
fn shown_benchmark(others: &[Others], k: usize, row: &BenchmarkRow) -> ShownBenchmark
    ensures { result ≡ shown_benchmark others.now (k, row.now) }
{
    ShownBenchmark {
        row: *row,
        others: others.get(k).copied(),
    }
}

/// How many points are moved.
pub fn moved_count(points: &[ShownPoint]) -> u64
    ensures { result ≡ moved_count points.now }
{
    let mut count = 0;
    for point in points {
        if point.moved.is_some() {
            count += 1;
        }
    }
    count
}
