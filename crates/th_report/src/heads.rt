//! The first lines of the report, and the lines that count what follows.
ghost use Rattle.std.specs.Prelude.{◌≡◌, ◌++◌, OnOk, codes, decimal};
ghost use Rattle.th_columns.specs.Labels.{label_line};
ghost use Rattle.th_report.specs.Reports.{benchmark_count, count_lines, head_lines, title_line};

use itoa::Buffer;
use std::alloc::AllocError;
use th_columns::{Page, write_count, write_label, write_limit};
use th_network::Network;

/// Writes the title, the counts, the cost in units of 10 nm, and the limit in metres.
#[tactic(auto, unfolding(crate::specs::Reports::head_lines))]
pub(crate) fn write_head(
    page: &mut Page,
    network: &Network,
    cost: u128,
    limit: i64,
) -> Result<(), AllocError>
    ensures { OnOk result (page.new ≡ page.old ++ head_lines network.now cost limit) }
{
    write_title(page)?;
    write_counts(page, network)?;
    write_cost(page, cost)?;
    write_limit(page, limit)
}

/// Writes the title.
#[tactic(auto, unfolding(crate::specs::Reports::title_line))]
fn write_title(page: &mut Page) -> Result<(), AllocError>
    ensures { OnOk result (page.new ≡ page.old ++ title_line) }
{
    page.add(b"HEIGHT NETWORK REPORT\n")
}

/// Writes the counts of points, benchmarks and observations.
#[tactic(auto, unfolding(crate::specs::Reports::count_lines))]
fn write_counts(page: &mut Page, network: &Network) -> Result<(), AllocError>
    ensures { OnOk result (page.new ≡ page.old ++ count_lines network.now) }
{
    write_count(page, b"points", network.points().len())?;
    write_count(page, b"benchmarks", benchmark_count(network))?;
    write_count(page, b"observations", network.observations().len())
}

/// Writes the cost.
fn write_cost(page: &mut Page, cost: u128) -> Result<(), AllocError>
    ensures { OnOk result (page.new ≡ page.old ++ label_line (codes "cost") (decimal cost)) }
{
    let mut digits = Buffer::new();
    write_label(page, b"cost", digits.format(cost).as_bytes())
}

/// How many points are benchmarks.
pub fn benchmark_count(network: &Network) -> usize
    ensures { result ≡ benchmark_count network.now }
{
    let mut count = 0;
    for k in 0..network.points().len() {
        if network.fixed(k).is_some() {
            count += 1;
        }
    }
    count
}
