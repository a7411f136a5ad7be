//! What a network is settled as, and how long that takes.
ghost use Rattle.std.specs.Prelude.{IfOk};
ghost use Rattle.th_network.specs.Networks.{AreAtPoints};

use crate::times::Watch;
use anyhow::Result;
use std::alloc::Global;
use std::rt::Clock;
use std::time::Duration;
use th_circulation::{Settled, Spans, Steps, settle, spans};
use th_network::Network;
use th_search::LabelSearch;

/// What a network is settled as, its spans, and what both took.
#[derive(Drop)]
pub struct Answer {
    pub settled: Settled,
    pub spans: Spans,
    pub steps: u128,
    pub settling: Duration,
    pub spanning: Duration,
}

/// Settles a network, finds its spans, and takes the time of both.
pub fn timed_answer(clock: &impl Clock, alloc: Global, network: &Network) -> Result<Answer>
    ensures low { IfOk result (λ answer. AreAtPoints network.now answer.spans.low.items) }
    ensures high { IfOk result (λ answer. AreAtPoints network.now answer.spans.high.items) }
{
    let mut steps = Steps::new();
    let watch = Watch::start(clock);
    let settled = settle(alloc, network, &mut LabelSearch::new(), &mut steps)?;
    let settling = watch.time(clock);
    let watch = Watch::start(clock);
    let spans = spans(alloc, network, &settled)?;
    let spanning = watch.time(clock);
    Ok(Answer {
        settled,
        spans,
        steps: steps.count(),
        settling,
        spanning,
    })
}
