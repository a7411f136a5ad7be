//! What is proposed for one number, and whether it holds.
use crate::networks::{Network, Number};
use crate::references::{is_circulation, is_slack, net, parted, settled, value};
use std::alloc::Global;
use std::process::Abort;
use th_freeing::{Found, Seed, Simplex, Start, Task};

/// Flows that were found for a number, and where the simplex goes on from them.
#[derive(Drop)]
pub struct Kept {
    pub flows: Vec<i64>,
    pub seed: Seed,
}

/// A network with its best flows, and a simplex that began with them.
#[derive(Drop)]
pub struct Case {
    pub network: Network,
    pub best: Vec<i64>,
    pub simplex: Simplex,
}

impl Case {
    /// The case of a network.
    pub fn new(rt: &impl Abort, alloc: Global, network: Network) -> Case {
        let best = settled(rt, alloc, &network.links, network.vertices);
        let count = network.links.len();
        let mut simplex = Simplex::new(alloc, network.vertices, count).expect(rt, "memory");
        for (place, (link, flow)) in network.links.iter().zip(&best).enumerate() {
            let mut link = *link;
            link.flow = *flow;
            simplex.set_link(place, link);
        }
        simplex.start().ok_or("no start").expect(rt, "a start");
        Case {
            network,
            best,
            simplex,
        }
    }

    /// What is found of a number, from kept flows if there are some.
    pub fn find(&mut self, number: &Number, task: &Task, kept: Option<&Kept>) -> Option<Found> {
        for place in 0..self.network.links.len() {
            self.simplex.mark(place, number.end(place));
        }
        match kept {
            Some(kept) => {
                let start = Start {
                    flows: &kept.flows,
                    seed: &kept.seed,
                };
                self.simplex
                    .free_from(number.group, number.base, task, start)
            }
            None => self.simplex.free(number.group, number.base, task),
        }
    }

    /// The flows that were found last, for a change of this size.
    pub fn kept(&self, rt: &impl Abort, alloc: Global, size: u64) -> Kept {
        Kept {
            flows: self.simplex.flows().to_vec(alloc).expect(rt, "memory"),
            seed: self.simplex.seed(alloc, size).expect(rt, "memory"),
        }
    }

    /// How much less flows gain than the best ones.
    pub fn lost(&self, flows: &[i64]) -> Option<i64> {
        let links = &self.network.links;
        value(links, &self.best)?.checked_sub(value(links, flows)?)
    }

    /// What a number explains: how much less the best flows without net gain.
    pub fn explained(&self, rt: &impl Abort, alloc: Global, number: &Number) -> Option<i64> {
        let links = parted(rt, alloc, &self.network, number);
        let vertices = self.network.vertices.checked_add(1)?;
        self.lost(&settled(rt, alloc, &links, vertices))
    }

    /// The change of this size by which less flows through a number.
    fn change(&self, number: &Number, size: u64) -> Option<i64> {
        let size = i64::try_from(size).ok()?;
        if net(number, &self.best)? > 0 {
            size.checked_neg()
        } else {
            Some(size)
        }
    }

    /// How much flows through a number in the direction of the best flows.
    pub fn along(&self, number: &Number, flows: &[i64]) -> Option<i64> {
        let own = net(number, flows)?;
        if net(number, &self.best)? > 0 {
            Some(own)
        } else {
            own.checked_neg()
        }
    }

    /// Whether what is proposed holds, if the number explains so much.
    pub fn holds(
        &self,
        rt: &impl Abort,
        alloc: Global,
        number: &Number,
        task: &Task,
        found: Found,
        explained: i64,
    ) -> Option<bool> {
        let flows = self.simplex.flows();
        if !self.is_circulation(rt, alloc, flows)? {
            return Some(false);
        }
        let along = self.along(number, flows)?;
        let lost = self.lost(flows)?;
        match found {
            Found::Mild => {
                let limit = i64::try_from(task.limit?).ok()?;
                let paid = limit.checked_mul(along.checked_neg()?)?;
                let more = lost.checked_sub(i64::try_from(task.least).ok()?)?;
                Some(along < 0 && more <= paid)
            }
            Found::Within => {
                let change = self.change(number, task.limit?)?;
                let heights = self.simplex.near_heights();
                Some(along <= 0 && is_slack(&self.network, number, change, heights, flows)?)
            }
            Found::Costly => {
                let need = self.along(number, &self.best)?;
                let parts = need.checked_sub(along)?;
                let mixed = lost.checked_mul(need)?.checked_div(parts)?;
                let worth = i64::try_from(task.worth?).ok()?;
                Some(along <= 0 && mixed <= worth && explained <= mixed)
            }
            Found::Freed { near, far } => {
                let is_least = along == 0 && lost == explained;
                Some(is_least && self.is_freed(rt, alloc, number, near, far)?)
            }
        }
    }

    /// Whether a number is freed by changes of these sizes.
    fn is_freed(
        &self,
        rt: &impl Abort,
        alloc: Global,
        number: &Number,
        near: u64,
        far: u64,
    ) -> Option<bool> {
        let own = &self.simplex;
        let (before, flat, behind) = (own.before(), own.flows(), own.behind());
        let first = self.change(number, near)?;
        let last = self.change(number, far)?;
        Some(
            near <= far
                && self.is_circulation(rt, alloc, before)?
                && self.is_circulation(rt, alloc, behind)?
                && self.along(number, before)? > 0
                && self.along(number, behind)? < 0
                && is_slack(&self.network, number, first, own.near_heights(), before)?
                && is_slack(&self.network, number, first, own.near_heights(), flat)?
                && is_slack(&self.network, number, last, own.far_heights(), flat)?
                && is_slack(&self.network, number, last, own.far_heights(), behind)?,
        )
    }

    fn is_circulation(&self, rt: &impl Abort, alloc: Global, flows: &[i64]) -> Option<bool> {
        let network = &self.network;
        is_circulation(rt, alloc, &network.links, network.vertices, flows)
    }
}
