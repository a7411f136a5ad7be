//! The first lines of a review.
ghost use Rattle.std.specs.Prelude.{◌≡◌, ◌++◌, OnOk, codes, count_by};
ghost use Rattle.th_columns.specs.Labels.{label_line};
ghost use Rattle.th_review_rows.specs.Found.{rows_in};
ghost use Rattle.th_review_texts.specs.Heads.{entry_count_lines, head_lines, is_hidden, is_tie, is_unchecked, lesser, loop_count, mistake_lines, survey_lines, title_line, weak_benchmark_line, weakest};
ghost use Rattle.th_review_rows.specs.Words.{number_or_dash};

use itoa::Buffer;
use std::alloc::AllocError;
use th_columns::{Page, write_count, write_label};
use th_network::Network;
use th_reliability::Mistake;
use th_report::benchmark_count;
use th_review_rows::{
    BenchmarkRow, EntryRow, Found, ObservationRow, PointRow, number_or_dash, weak_benchmark_count,
    weak_entry_count,
};

/// Writes the title and the counts.
#[tactic(auto, unfolding(crate::specs::Heads::head_lines))]
pub(crate) fn write_head(page: &mut Page, found: &Found<'_>) -> Result<(), AllocError>
    ensures { OnOk result (page.new ≡ page.old ++ head_lines (rows_in found.now)) }
{
    write_title(page)?;
    write_survey(page, found.network)?;
    write_mistakes(page, &found.observations)?;
    write_entry_counts(page, &found.entries)?;
    write_weak_benchmarks(page, &found.benchmarks)?;
    write_weakest(page, &found.points)
}

/// Writes the title.
#[tactic(auto, unfolding(crate::specs::Heads::title_line))]
fn write_title(page: &mut Page) -> Result<(), AllocError>
    ensures { OnOk result (page.new ≡ page.old ++ title_line) }
{
    page.add(b"HEIGHT NETWORK REVIEW\n")
}

/// Writes the counts of points, benchmarks, observations and loops.
#[tactic(auto, unfolding(crate::specs::Heads::survey_lines))]
fn write_survey(page: &mut Page, network: &Network) -> Result<(), AllocError>
    ensures { OnOk result (page.new ≡ page.old ++ survey_lines network.now) }
{
    write_count(page, b"points", network.points().len())?;
    write_count(page, b"benchmarks", benchmark_count(network))?;
    write_count(page, b"observations", network.observations().len())?;
    write_count(page, b"loops", loop_count(network))
}

/// How many loops the network closes.
fn loop_count(network: &Network) -> usize
    ensures { result ≡ loop_count network.now }
{
    let free = network
        .points()
        .len()
        .saturating_sub(benchmark_count(network));
    network.observations().len().saturating_sub(free)
}

/// Writes how many observations are unchecked, hide a mistake, or tie.
#[tactic(auto, unfolding(crate::specs::Heads::mistake_lines))]
fn write_mistakes(page: &mut Page, observations: &[ObservationRow]) -> Result<(), AllocError>
    ensures { OnOk result (page.new ≡ page.old ++ mistake_lines observations.now) }
{
    write_count(page, b"unchecked", unchecked_count(observations))?;
    write_count(page, b"hidden", hidden_count(observations))?;
    write_count(page, b"ties", tie_count(observations))
}

/// How many observations nothing checks.
fn unchecked_count(observations: &[ObservationRow]) -> usize
    ensures { result ≡ count_by (λ row. is_unchecked row.mistake) observations.now }
{
    let mut count = 0;
    for row in observations {
        if matches!(row.mistake, Mistake::Unchecked) {
            count += 1;
        }
    }
    count
}

/// How many observations hide a mistake.
fn hidden_count(observations: &[ObservationRow]) -> usize
    ensures { result ≡ count_by (λ row. is_hidden row.mistake) observations.now }
{
    let mut count = 0;
    for row in observations {
        if matches!(row.mistake, Mistake::Hides) {
            count += 1;
        }
    }
    count
}

/// How many observations weigh as much as what checks them.
fn tie_count(observations: &[ObservationRow]) -> usize
    ensures { result ≡ count_by (λ row. is_tie row.mistake) observations.now }
{
    let mut count = 0;
    for row in observations {
        if matches!(row.mistake, Mistake::Ties) {
            count += 1;
        }
    }
    count
}

/// Writes how many entries there are, and how many of them are weak.
#[tactic(auto, unfolding(crate::specs::Heads::entry_count_lines))]
fn write_entry_counts(page: &mut Page, entries: &[EntryRow]) -> Result<(), AllocError>
    ensures { OnOk result (page.new ≡ page.old ++ entry_count_lines entries.now) }
{
    write_count(page, b"entries", entries.len())?;
    write_count(page, b"weak entries", weak_entry_count(entries))
}

/// Writes how many benchmarks are weak.
#[tactic(auto, unfolding(crate::specs::Heads::weak_benchmark_line))]
fn write_weak_benchmarks(page: &mut Page, benchmarks: &[BenchmarkRow]) -> Result<(), AllocError>
    ensures { OnOk result (page.new ≡ page.old ++ weak_benchmark_line benchmarks.now) }
{
    write_count(page, b"weak benchmark", weak_benchmark_count(benchmarks))
}

/// Writes the least strength.
fn write_weakest(page: &mut Page, points: &[PointRow]) -> Result<(), AllocError>
    ensures { OnOk result (page.new
        ≡ page.old ++ label_line (codes "weakest point") (number_or_dash (weakest points.now))) }
{
    let mut digits = Buffer::new();
    write_label(
        page,
        b"weakest point",
        number_or_dash(&mut digits, weakest(points)),
    )
}

/// The least strength of some points, none where no point has one.
fn weakest(points: &[PointRow]) -> Option<u32>
    ensures { result ≡ weakest points.now }
{
    let mut least = None;
    for row in points {
        least = lesser(least, row.strength);
    }
    least
}

/// The lesser of two strengths, of which one may be missing.
fn lesser(strength: Option<u32>, other: Option<u32>) -> Option<u32>
    ensures { result ≡ lesser strength other }
{
    match (strength, other) {
        (None, _) => other,
        (Some(strength), None) => Some(strength),
        (Some(strength), Some(other)) => Some(strength.min(other)),
    }
}
