//! Certificates written from worked heights and flows, compared with the records of worked surveys.
ghost use Rattle.std.specs.Prelude.{◌<◌, ◌≤◌, All, unsigned_abs};
ghost use Rattle.th_limits.specs.Limits.{max_weight};
ghost use Rattle.th_network.specs.Limits.{height_limit};
ghost use Rattle.th_network.specs.Networks.{AreAtPoints, AreOfObservations};

use crate::certificates::{OF_NOTHING, OF_PAIR, changed};
use crate::surveys::{NOTHING, PAIR, Survey, observations_of, tables_of};
use std::alloc::Global;
use std::process::Abort;
use th_certificate::write_certificate;
use th_network::{Network, Settled, Spans};
use th_tables::{Benchmarks, MAX_WEIGHT, Weights};

/// Lowest heights, highest heights and flows, in the order of the points and of the observations.
#[derive(Drop)]
pub struct Best<'a> {
    pub low: &'a [i64],
    pub high: &'a [i64],
    pub flows: &'a [i64],
}

/// The text that is written of a book and tables, with the lowest heights as the heights.
pub fn written(
    rt: &impl Abort,
    alloc: Global,
    book: &[u8],
    tables: &Survey,
    best: &Best<'_>,
) -> Vec<u8> {
    let tables = tables_of(rt, alloc, tables);
    let network = network_of(rt, alloc, book, &tables);
    let settled = Settled {
        heights: heights_at(rt, alloc, &network, best.low),
        flows: flows_at(rt, alloc, &network, best.flows),
    };
    let spans = Spans {
        low: heights_at(rt, alloc, &network, best.low),
        high: heights_at(rt, alloc, &network, best.high),
    };
    write_certificate(alloc, &network, &settled, &spans).expect(rt, "memory")
}

/// The network of a book and tables.
fn network_of<'a>(
    rt: &impl Abort,
    alloc: Global,
    book: &[u8],
    tables: &'a (Benchmarks, Weights),
) -> Network<'a> {
    let observations = observations_of(rt, alloc, 1, book);
    Network::build(alloc, observations, &tables.0, &tables.1).expect(rt, "a network")
}

/// Heights in range, one for each point.
fn heights_at(rt: &impl Abort, alloc: Global, network: &Network, units: &[i64]) -> Vec<i64>
    ensures { AreAtPoints network.now result.items }
{
    let heights = heights_of(rt, alloc, units);
    assert_eq!(rt; heights.len(), network.points().len());
    heights
}

/// Flows in range, one for each observation.
fn flows_at(rt: &impl Abort, alloc: Global, network: &Network, units: &[i64]) -> Vec<i64>
    ensures { AreOfObservations network.now result.items }
{
    let flows = flows_of(rt, alloc, units);
    assert_eq!(rt; flows.len(), network.observations().len());
    flows
}

/// Heights that are in range.
fn heights_of(rt: &impl Abort, alloc: Global, units: &[i64]) -> Vec<i64>
    ensures { All (λ height. unsigned_abs height < height_limit) result.items }
{
    let mut heights = Vec::new(alloc);
    for height in units {
        assert!(rt; height.unsigned_abs() < 100_000_000_000_000_000);
        heights.push(*height).expect(rt, "memory");
    }
    heights
}

/// Flows that are in range.
fn flows_of(rt: &impl Abort, alloc: Global, units: &[i64]) -> Vec<i64>
    ensures { All (λ flow. unsigned_abs flow ≤ max_weight) result.items }
{
    let mut flows = Vec::new(alloc);
    for flow in units {
        assert!(rt; flow.unsigned_abs() <= u64::from(MAX_WEIGHT));
        flows.push(*flow).expect(rt, "memory");
    }
    flows
}

const OF_THE_PAIR: Best<'static> = Best {
    low: &[10_000_000_000, 10_254_500_000],
    high: &[10_000_000_000, 10_254_700_000],
    flows: &[-1, 1],
};

const OF_NONE: Best<'static> = Best {
    low: &[],
    high: &[],
    flows: &[],
};

#[test]
fn certificates_are_written(rt: HostRuntime) {
    let text = written(&rt, rt.alloc(), PAIR.book, &PAIR, &OF_THE_PAIR);
    let wanted = changed(&rt, rt.alloc(), &OF_PAIR, &[]);
    assert!(rt; text.as_slice() == wanted.as_slice());
    let text = written(&rt, rt.alloc(), NOTHING.book, &NOTHING, &OF_NONE);
    let wanted = changed(&rt, rt.alloc(), &OF_NOTHING, &[]);
    assert!(rt; text.as_slice() == wanted.as_slice());
}
