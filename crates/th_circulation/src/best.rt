//! `settle` and `spans` in one call: the lowest and the highest best heights of a network.
ghost use Rattle.std.specs.Prelude.{◌≡◌, IfOk};
ghost use Rattle.th_circulation.specs.Best.{IsBest};
ghost use Rattle.th_circulation.specs.Settled.{IsSettled};

use crate::settling::settle;
use crate::spanning::spans;
use crate::starts::{Start, settled_from};
use crate::steps::Steps;
use std::alloc::{AllocError, Global};
use std::marker::Model;
use th_network::laws::circulation_shows_least;
use th_network::{Network, Settled};
use th_search::LabelSearch;

/// The lowest and the highest best heights of a network, and a circulation that shows both.
#[derive(Debug, Drop)]
pub struct BestHeights {
    low: Vec<i64>,
    high: Vec<i64>,
    flows: Vec<i64>,
}

impl Model for BestHeights {
    ghost use Rattle.th_circulation.specs.Best.{Best};

    ghost Value = { Best };

    ghost view = { λ best. record {
      low = best.low.items;
      high = best.high.items;
      flows = best.flows.items;
    } };
}

impl BestHeights {
    /// The lowest best height of each point, in point order, in units of 10 nm.
    pub fn low(&self) -> &[i64]
        ensures { result.now ≡ self.now.low }
    {
        &self.low
    }

    /// The highest best height of each point, in point order, in units of 10 nm.
    pub fn high(&self) -> &[i64]
        ensures { result.now ≡ self.now.high }
    {
        &self.high
    }

    /// The flow of each observation, in their order.
    pub fn flows(&self) -> &[i64]
        ensures { result.now ≡ self.now.flows }
    {
        &self.flows
    }
}

/// Finds the best heights of a network: those that cost least among all that keep the benchmarks.
///
/// Many heights may cost least. The answer has the lowest and the highest of them at each point, and a
/// circulation from which anyone can see that both cost least. Every network has an answer: the only
/// error is an allocation failure. `settle` and `spans` are the two steps of the work.
pub fn best_heights(alloc: Global, network: &Network) -> Result<BestHeights, AllocError>
    ensures { IfOk result (IsBest network.now) }
{
    let settled = settle(alloc, network, &mut LabelSearch::new(), &mut Steps::new())?;
    spanned(alloc, network, settled)
}

/// The same. Where these flows and heights show each other, it takes as long as `spans`.
pub fn best_heights_from(
    alloc: Global,
    network: &Network,
    start: Start<'_>,
) -> Result<BestHeights, AllocError>
    ensures { IfOk result (IsBest network.now) }
{
    match settled_from(alloc, network, start)? {
        Some(settled) => spanned(alloc, network, settled),
        None => best_heights(alloc, network),
    }
}

/// The lowest and the highest heights that cost as little as settled ones.
fn spanned(alloc: Global, network: &Network, settled: Settled) -> Result<BestHeights, AllocError>
    requires { IsSettled network.now settled.heights.items settled.flows.items }
    ensures { IfOk result (IsBest network.now) }
{
    circulation_shows_least();
    let spans = spans(alloc, network, &settled)?;
    Ok(BestHeights {
        low: spans.low,
        high: spans.high,
        flows: settled.flows,
    })
}
