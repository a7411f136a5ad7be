//! The rows of the benchmarks.
ghost use Rattle.std.specs.Prelude.{◌≡◌, IfOk, length};
ghost use Rattle.th_review_rows.specs.Rows.{benchmark_row, benchmark_rows, blame_in};

use crate::rows::BenchmarkRow;
use gsi_word::Name;
use std::alloc::{AllocError, Global};
use th_network::Network;
use th_reliability::{BenchmarkEffect, Blame, Effect};

/// The rows of a network's benchmarks, with what a wrong height of each would do, listed in the order of
/// their table.
pub(crate) fn benchmark_rows(
    alloc: Global,
    network: &Network,
    effects: &[BenchmarkEffect],
) -> Result<Vec<BenchmarkRow>, AllocError>
    requires { length effects.now ≡ length network.now.benchmarks }
    ensures { IfOk result (λ rows. rows.items ≡ benchmark_rows network.now effects.now) }
{
    let benchmarks = network.benchmarks();
    let mut rows = Vec::with_capacity(alloc, benchmarks.len())?;
    let mut k = 0;
    'rows: while let Some(row) = benchmarks.entry(k) {
        rows.push(benchmark_row(row.0, row.1, effects[k]))?;
        k += 1;
    }
    Ok(rows)
}

/// The row of a benchmark.
fn benchmark_row(name: Name, height: i64, found: BenchmarkEffect) -> BenchmarkRow
    ensures { result ≡ benchmark_row ((name, height), found) }
{
    BenchmarkRow {
        name,
        height,
        sights: found.sights,
        weight: found.weight,
        strength: found.strength,
        mistake: found.effect.map(|effect| effect.mistake),
        blame: blame_in(found.effect),
    }
}

/// What a wrong height of a benchmark would move and what would be blamed for it.
fn blame_in(effect: Option<Effect>) -> Option<Blame>
    ensures { result ≡ blame_in effect }
{
    match effect {
        Some(effect) => effect.blame,
        None => None,
    }
}
