//! The table of benchmarks.
ghost use Rattle.std.specs.Prelude.{◌≡◌, ◌++◌, OnOk};
ghost use Rattle.std.specs.List.{flat_map};
ghost use Rattle.th_html.specs.Tables.{benchmark_head, benchmark_row, benchmark_table, benchmark_words};

use crate::cells::{write_height_cell, write_name_cell, write_number_cell, write_words_cell};
use crate::tables::{first_rows, write_close, write_left_out, write_open};
use std::alloc::AllocError;
use th_columns::Page;
use th_reliability::SharedMistake;
use th_review_rows::{BenchmarkRow, shared_mistake_word};

/// Writes the table of some benchmarks.
#[tactic(auto, unfolding(crate::specs::Tables::benchmark_table))]
pub fn write_benchmarks(page: &mut Page, rows: &[BenchmarkRow]) -> Result<(), AllocError>
    ensures { OnOk result (page.new ≡ page.old ++ benchmark_table rows.now) }
{
    write_open(page, head())?;
    write_rows(page, first_rows(rows))?;
    write_close(page)?;
    write_left_out(page, rows.len())
}

/// The names of the columns.
#[tactic(auto, unfolding(crate::specs::Tables::benchmark_head))]
fn head() -> &'static [u8]
    ensures { result.now ≡ benchmark_head }
{
    b"<th>Benchmark<td>Height<td>Sights<td>Weight<th>A mistake"
}

/// Writes the row of each benchmark.
fn write_rows(page: &mut Page, rows: &[BenchmarkRow]) -> Result<(), AllocError>
    ensures { OnOk result (page.new ≡ page.old ++ flat_map benchmark_row rows.now) }
{
    for row in rows {
        write_row(page, row)?;
    }
    Ok(())
}

/// Writes the row of a benchmark.
#[tactic(auto, unfolding(crate::specs::Tables::benchmark_row))]
fn write_row(page: &mut Page, row: &BenchmarkRow) -> Result<(), AllocError>
    ensures { OnOk result (page.new ≡ page.old ++ benchmark_row row.now) }
{
    page.add(b"<tr>")?;
    write_name_cell(page, &row.name)?;
    write_height_cell(page, row.height)?;
    write_number_cell(page, row.sights as u64)?;
    write_number_cell(page, u64::from(row.weight))?;
    write_words_cell(page, benchmark_words(&row.mistake))?;
    page.add(b"\n")
}

/// What a mistake in a benchmark would do, if anything.
fn benchmark_words(mistake: &Option<SharedMistake>) -> &[u8]
    ensures { result.now ≡ benchmark_words mistake.now }
{
    match mistake {
        Some(mistake) => shared_mistake_word(mistake),
        None => b"",
    }
}
