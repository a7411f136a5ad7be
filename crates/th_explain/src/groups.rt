//! The observations of a case as links, and the ends of them that a number has. Nothing is promised of them.
use gsi_word::Name;
use th_changes::{Case, Number, Run};
use th_detours::{End, Group, Link};
use th_network::Network;
use th_observations::Observation;

/// The ends that a number has, all of them at one vertex, the base, and what flows from there into its links.
#[derive(Clone, Copy)]
pub(crate) struct Ends {
    pub group: Group,
    pub base: u32,
    pub need: i64,
}

/// The observation at a place as a link with its best flow; its length is the size of its residual.
pub(crate) fn link_at(case: &Case<'_>, place: usize) -> Option<Link> {
    let arc = case.network.arcs().get(place)?;
    Some(Link {
        tail: arc.tail,
        head: arc.head,
        weight: *case.network.weights().get(place)?,
        flow: *case.best.flows().get(place)?,
        difference: arc.diff,
        length: case.fit.residuals.get(place)?.unsigned_abs(),
    })
}

/// The ends that a number has, through whose observations so much flows.
pub(crate) fn ends_of(network: &Network, number: &Number, run: Run, net: i64) -> Option<Ends> {
    let Run { start, end, .. } = run;
    let group = Group::Tails { start, end };
    match number {
        Number::Added(_) => Some(Ends {
            group,
            base: network.arcs().get(start)?.tail,
            need: net,
        }),
        Number::Subtracted(_) => Some(Ends {
            group,
            base: network.arcs().get(start)?.tail,
            need: net.checked_neg()?,
        }),
        Number::Benchmark(_) => Some(Ends {
            group: Group::Marked,
            base: 0,
            need: net,
        }),
    }
}

/// The end of an observation that is at a benchmark, if one is.
pub(crate) fn end_at(o: &Observation, benchmark: &Name) -> Option<End> {
    let (station, target) = o.ends();
    if station == *benchmark {
        Some(End::Tail)
    } else if target == *benchmark {
        Some(End::Head)
    } else {
        None
    }
}
