//! The table of benchmarks, and of what the others say of each.
ghost use Rattle.std.specs.Prelude.{◌≡◌, ◌++◌, OnOk};
ghost use Rattle.std.specs.List.{flat_map};
ghost use Rattle.th_html.specs.Benchmarks.{is_off, nothing_text, off_by, off_text, others_head, others_row, others_rows, others_table, outside, says_cells, says_text, size_off};

use crate::cells::{write_height_cell, write_name_cell, write_number_cell};
use crate::lengths::{write_size, write_span};
use crate::shown::ShownBenchmark;
use crate::tables::{first_rows, write_close, write_left_out, write_open, write_row_open};
use std::alloc::AllocError;
use th_answer::Others;
use th_columns::Page;

/// Writes the table of benchmarks with what the others say of each. A height that is off by more than a
/// limit, in units of 10 nm, is marked.
pub fn write_others(
    page: &mut Page,
    benchmarks: &[ShownBenchmark],
    limit: i64,
) -> Result<(), AllocError>
    ensures { OnOk result (page.new ≡ page.old ++ others_table limit benchmarks.now) }
{
    write_first(page, first_rows(benchmarks), limit, benchmarks.len() == 1)?;
    write_left_out(page, benchmarks.len())
}

/// Writes the table of the first benchmarks; whether there is only one.
#[tactic(auto, unfolding(crate::specs::Benchmarks::others_rows))]
fn write_first(
    page: &mut Page,
    benchmarks: &[ShownBenchmark],
    limit: i64,
    is_only: bool,
) -> Result<(), AllocError>
    ensures { OnOk result (page.new ≡ page.old ++ others_rows limit is_only benchmarks.now) }
{
    write_open(page, head())?;
    write_rows(page, benchmarks, limit, is_only)?;
    write_close(page)
}

/// The names of the columns.
#[tactic(auto, unfolding(crate::specs::Benchmarks::others_head))]
fn head() -> &'static [u8]
    ensures { result.now ≡ others_head }
{
    b"<th>Benchmark<td>Given<td>Sights<td>The others say<td>Off by"
}

/// Writes the row of each benchmark.
fn write_rows(
    page: &mut Page,
    benchmarks: &[ShownBenchmark],
    limit: i64,
    is_only: bool,
) -> Result<(), AllocError>
    ensures { OnOk result (page.new
        ≡ page.old ++ flat_map (others_row limit is_only) benchmarks.now) }
{
    for benchmark in benchmarks {
        write_row(page, benchmark, limit, is_only)?;
    }
    Ok(())
}

/// Writes the row of a benchmark.
#[tactic(auto, unfolding(crate::specs::Benchmarks::others_row))]
fn write_row(
    page: &mut Page,
    benchmark: &ShownBenchmark,
    limit: i64,
    is_only: bool,
) -> Result<(), AllocError>
    ensures { OnOk result (page.new ≡ page.old ++ others_row limit is_only benchmark.now) }
{
    write_row_open(page, is_off(benchmark, limit))?;
    write_name_cell(page, &benchmark.row.name)?;
    write_height_cell(page, benchmark.row.height)?;
    write_number_cell(page, benchmark.row.sights as u64)?;
    write_says_cells(page, benchmark, is_only)?;
    page.add(b"\n")
}

/// Whether a benchmark is off by more than a limit.
fn is_off(benchmark: &ShownBenchmark, limit: i64) -> bool
    ensures { result ≡ is_off limit benchmark.now }
{
    off_by(benchmark.row.height, &benchmark.others) > limit.unsigned_abs()
}

/// How far a height is off, in units of 10 nm.
fn off_by(height: i64, others: &Option<Others>) -> u64
    ensures { result ≡ off_by height others.now }
{
    match others {
        Some(Others::Differ { low, high }) => outside(height, *low, *high),
        _ => 0,
    }
}

/// How far a height is outside of what the others say.
fn outside(height: i64, low: i64, high: i64) -> u64
    ensures { result ≡ outside height low high }
{
    if height < low {
        low.abs_diff(height)
    } else if height > high {
        height.abs_diff(high)
    } else {
        0
    }
}

/// Writes the cells of what the others say, and how far the given height is off.
#[tactic(auto, unfolding(crate::specs::Benchmarks::says_cells))]
fn write_says_cells(
    page: &mut Page,
    benchmark: &ShownBenchmark,
    is_only: bool,
) -> Result<(), AllocError>
    ensures { OnOk result (page.new ≡ page.old ++ says_cells is_only benchmark.now) }
{
    page.add(b"<td>")?;
    write_says(page, &benchmark.others, is_only)?;
    page.add(b"<td>")?;
    write_off(page, benchmark.row.height, &benchmark.others)
}

/// Writes what the others say.
fn write_says(page: &mut Page, others: &Option<Others>, is_only: bool) -> Result<(), AllocError>
    ensures { OnOk result (page.new ≡ page.old ++ says_text is_only others.now) }
{
    match others {
        None | Some(Others::Fits) => Ok(()),
        Some(Others::Nothing) => page.add(nothing_text(is_only)),
        Some(Others::Differ { low, high }) => write_span(page, *low, *high),
    }
}

/// That the others say nothing of a benchmark.
fn nothing_text(is_only: bool) -> &'static [u8]
    ensures { result.now ≡ nothing_text is_only }
{
    if is_only {
        b"nothing: it is the only one"
    } else {
        b"nothing"
    }
}

/// Writes how far a height is off.
fn write_off(page: &mut Page, height: i64, others: &Option<Others>) -> Result<(), AllocError>
    ensures { OnOk result (page.new ≡ page.old ++ off_text height others.now) }
{
    match others {
        None | Some(Others::Nothing) => Ok(()),
        Some(Others::Fits) => page.add(b"fits"),
        Some(Others::Differ { low, high }) => write_size_off(page, outside(height, *low, *high)),
    }
}

/// Writes a size by which a height is off.
fn write_size_off(page: &mut Page, size: u64) -> Result<(), AllocError>
    ensures { OnOk result (page.new ≡ page.old ++ size_off size) }
{
    if size == 0 {
        page.add(b"fits")
    } else {
        write_size(page, size)
    }
}
