//! The table of benchmarks.
ghost use Rattle.std.specs.Prelude.{◌≡◌, ◌++◌, OnOk, decimal};
ghost use Rattle.std.specs.List.{flat_map};
ghost use Rattle.th_units.specs.Metres.{metres};
ghost use Rattle.th_review_texts.specs.Reviews.{benchmark_columns, benchmark_line, benchmark_lines};
ghost use Rattle.th_review_rows.specs.Words.{number_or_dash};

use crate::moves::{write_moved, write_moved_columns};
use itoa::Buffer;
use std::alloc::AllocError;
use th_columns::Page;
use th_review_rows::{BenchmarkRow, benchmark_mark, number_or_dash};
use th_units::metre_text;

/// Writes the table of benchmarks.
#[tactic(auto, unfolding(crate::specs::Reviews::benchmark_lines))]
pub(crate) fn write_benchmarks(
    page: &mut Page,
    benchmarks: &[BenchmarkRow],
) -> Result<(), AllocError>
    ensures { OnOk result (page.new ≡ page.old ++ benchmark_lines benchmarks.now) }
{
    write_columns(page, b"POINT", b"HEIGHT", b"SIGHTS", b"WEIGHT", b"STRENGTH")?;
    write_moved_columns(page, b"MOVES", b"BLAMES", b"")?;
    write_rows(page, benchmarks)
}

/// Writes the line of each benchmark.
fn write_rows(page: &mut Page, benchmarks: &[BenchmarkRow]) -> Result<(), AllocError>
    ensures { OnOk result (page.new ≡ page.old ++ flat_map benchmark_line benchmarks.now) }
{
    for row in benchmarks {
        write_benchmark(page, row)?;
    }
    Ok(())
}

/// Writes the line of a benchmark.
#[tactic(auto, unfolding(crate::specs::Reviews::benchmark_line))]
fn write_benchmark(page: &mut Page, row: &BenchmarkRow) -> Result<(), AllocError>
    ensures { OnOk result (page.new ≡ page.old ++ benchmark_line row.now) }
{
    write_numbers(page, row)?;
    write_moved(page, row.blame, benchmark_mark(&row.mistake))
}

/// Writes a benchmark's name and height, and the numbers of its observations.
fn write_numbers(page: &mut Page, row: &BenchmarkRow) -> Result<(), AllocError>
    ensures { OnOk result (page.new ≡ page.old ++ benchmark_columns row.now.name (metres row.now.height)
        (decimal row.now.sights) (decimal row.now.weight)
        (number_or_dash row.now.strength)) }
{
    let height = metre_text(row.height);
    let mut sights = Buffer::new();
    let mut weight = Buffer::new();
    let mut strength = Buffer::new();
    write_columns(
        page,
        row.name.as_bytes(),
        height.as_bytes(),
        sights.format(row.sights).as_bytes(),
        weight.format(row.weight).as_bytes(),
        number_or_dash(&mut strength, row.strength),
    )
}

/// Writes the columns of a name, a height, a number of sights, a weight and a strength.
#[tactic(auto, unfolding(crate::specs::Reviews::benchmark_columns))]
fn write_columns(
    page: &mut Page,
    name: &[u8],
    height: &[u8],
    sights: &[u8],
    weight: &[u8],
    strength: &[u8],
) -> Result<(), AllocError>
    ensures { OnOk result (page.new
        ≡ page.old ++ benchmark_columns name.now height.now sights.now weight.now strength.now) }
{
    page.left_gap(16, name)?;
    page.right(20, height)?;
    page.gap_right(6, sights)?;
    page.gap_right(8, weight)?;
    page.gap_right(8, strength)
}
