//! Where a benchmark is among the observations, so that what flows through it is summed over few of them. Nothing is
//! promised of the sums: they only say which circulation to look at.
use crate::groups::end_at;
use gsi_word::Name;
use std::alloc::{AllocError, Global};
use th_changes::{KeptFlows, Line};
use th_detours::End;
use th_network::Network;

/// Where the observations of a benchmark are.
#[derive(Drop)]
pub(crate) struct Touching {
    places: Vec<Touched>,
}

/// Where an observation is that has an end at the benchmark, and which one.
#[derive(Clone, Copy)]
struct Touched {
    place: usize,
    end: End,
}

impl Touching {
    /// With room for all observations of a network.
    pub fn new(alloc: Global, network: &Network) -> Result<Touching, AllocError> {
        Ok(Touching {
            places: Vec::with_capacity(alloc, network.observations().len())?,
        })
    }

    /// Finds the observations of a benchmark.
    pub fn find(&mut self, network: &Network, benchmark: &Name) -> Option<()> {
        self.places.clear();
        for (place, o) in network.observations().iter().enumerate() {
            if let Some(end) = end_at(o, benchmark) {
                self.places.push(Touched { place, end }).ok()?;
            }
        }
        Some(())
    }

    /// What flows show of the benchmark.
    pub fn line(&self, kept: &KeptFlows<'_>) -> Option<Line> {
        let mut net = 0i64;
        for own in self.places.iter() {
            let flow = kept.flow(own.place)?;
            net = match own.end {
                End::Head => net.checked_sub(flow)?,
                End::Tail => net.checked_add(flow)?,
            };
        }
        Some(Line {
            lost: kept.lost(),
            net,
        })
    }
}
