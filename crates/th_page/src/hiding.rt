//! The section of where a mistake could hide.
ghost use Rattle.std.specs.Prelude.{◌≡◌, ◌++◌, OnOk};
ghost use Rattle.th_page.specs.Hiding.{hiding_section, weak_benchmarks, weak_counts, weak_entries, weak_sights};

use crate::facts::write_fact;
use crate::fixed::{
    write_details_end, write_hiding_start, write_section_end, write_weak_benchmarks_start,
    write_weak_entries_start, write_weak_sights_start,
};
use crate::weak::{weak_benchmarks, weak_entries, weak_sights};
use std::alloc::{AllocError, Global};
use th_columns::Page;
use th_html::{write_benchmarks, write_entries, write_sights};
use th_review_rows::{
    BenchmarkRow, EntryRow, ObservationRow, weak_benchmark_count, weak_entry_count,
    weak_observation_count,
};

/// Writes the section of where a mistake could hide.
#[tactic(auto, unfolding(crate::specs::Hiding::hiding_section))]
pub(crate) fn write_hiding(
    alloc: Global,
    page: &mut Page,
    sights: &[ObservationRow],
    benchmarks: &[BenchmarkRow],
    entries: &[EntryRow],
) -> Result<(), AllocError>
    ensures { OnOk result (page.new
        ≡ page.old ++ hiding_section sights.now benchmarks.now entries.now) }
{
    let hidden_sights = weak_sights(alloc, sights)?;
    let hidden_benchmarks = weak_benchmarks(alloc, benchmarks)?;
    let hidden_entries = weak_entries(alloc, entries)?;
    write_hiding_start(page)?;
    write_counts(page, sights, benchmarks, entries)?;
    write_weak_sights(page, &hidden_sights)?;
    write_weak_benchmarks(page, &hidden_benchmarks)?;
    write_weak_entries(page, &hidden_entries)?;
    write_section_end(page)
}

/// Writes how many sights, benchmarks and entries are weak.
#[tactic(auto, unfolding(crate::specs::Hiding::weak_counts))]
fn write_counts(
    page: &mut Page,
    sights: &[ObservationRow],
    benchmarks: &[BenchmarkRow],
    entries: &[EntryRow],
) -> Result<(), AllocError>
    ensures { OnOk result (page.new
        ≡ page.old ++ weak_counts sights.now benchmarks.now entries.now) }
{
    page.add(b"<ul class=\"facts\">\n")?;
    write_fact(page, weak_observation_count(sights) as u64, b"weak sights")?;
    write_fact(
        page,
        weak_benchmark_count(benchmarks) as u64,
        b"weak benchmarks",
    )?;
    write_fact(
        page,
        weak_entry_count(entries) as u64,
        b"weak keyed-in heights",
    )?;
    page.add(b"</ul>\n")
}

/// Writes the weak sights, if there are any.
#[tactic(auto, unfolding(crate::specs::Hiding::weak_sights))]
fn write_weak_sights(page: &mut Page, rows: &[ObservationRow]) -> Result<(), AllocError>
    ensures { OnOk result (page.new ≡ page.old ++ weak_sights rows.now) }
{
    if rows.is_empty() {
        return Ok(());
    }
    write_weak_sights_start(page)?;
    write_sights(page, rows)?;
    write_details_end(page)
}

/// Writes the weak benchmarks, if there are any.
#[tactic(auto, unfolding(crate::specs::Hiding::weak_benchmarks))]
fn write_weak_benchmarks(page: &mut Page, rows: &[BenchmarkRow]) -> Result<(), AllocError>
    ensures { OnOk result (page.new ≡ page.old ++ weak_benchmarks rows.now) }
{
    if rows.is_empty() {
        return Ok(());
    }
    write_weak_benchmarks_start(page)?;
    write_benchmarks(page, rows)?;
    write_details_end(page)
}

/// Writes the weak keyed-in heights, if there are any.
#[tactic(auto, unfolding(crate::specs::Hiding::weak_entries))]
fn write_weak_entries(page: &mut Page, rows: &[EntryRow]) -> Result<(), AllocError>
    ensures { OnOk result (page.new ≡ page.old ++ weak_entries rows.now) }
{
    if rows.is_empty() {
        return Ok(());
    }
    write_weak_entries_start(page)?;
    write_entries(page, rows)?;
    write_details_end(page)
}
