//! The guide as its callers see it: links to set, numbers to free, and what it proposes.
use crate::arcs::Places;
use crate::basis::{Basis, Step};
use crate::nets::Net;
use crate::proposals::Proposal;
use crate::seeds::{Seed, Start};
use crate::tasks::{Found, Task};
use std::alloc::{AllocError, Global};
use th_detours::{End, Group, Link, Parted};
use th_guide::{ResidualArc, push_if_room};

/// No ends of links.
const NOTHING: Group = Group::Tails { start: 0, end: 0 };

/// By how much the change of a number grows at first while something flows through it, and how many times as much each
/// next time. A change that is much too large takes flow from arcs to which it comes back later.
const FIRST_STEP: i64 = 10_000;

const GROWTH: i64 = 4;

/// A primal network simplex that frees numbers. Nothing is promised of what it proposes.
#[derive(Drop)]
pub struct Simplex {
    network: Parted,
    basis: Basis,
    /// The best flows as they were given, and those of the best tree, with the places of its links.
    given: Vec<i64>,
    best: Vec<i64>,
    tree: Vec<u32>,
    /// The last step that is not above it is more than any path is long.
    steep: i64,
    proposal: Proposal,
}

/// Why no more pivots are needed.
#[derive(Clone, Copy)]
enum Stop {
    Shown(Found),
    Best,
}

impl Simplex {
    /// For so many vertices and links; it has all the memory that it needs.
    pub fn new(alloc: Global, vertices: u32, links: usize) -> Result<Simplex, AllocError> {
        let all = vertices.saturating_add(1);
        Ok(Simplex {
            network: Parted::new(alloc, vertices, links)?,
            basis: Basis::new(alloc, all, links)?,
            given: vec![in alloc; 0i64; links]?,
            best: vec![in alloc; 0i64; links]?,
            tree: Vec::with_capacity(alloc, all as usize)?,
            steep: 0,
            proposal: Proposal::new(alloc, all as usize, links)?,
        })
    }

    /// Sets the link at a place, from 0, with a best flow.
    pub fn set_link(&mut self, place: usize, link: Link) {
        self.network.set_link(place, link);
    }

    /// Begins with the links that were set: makes a tree for their flows. `None` if these are not the best.
    pub fn start(&mut self) -> Option<()> {
        self.tree.clear();
        self.network.start()?;
        self.network.part(NOTHING, 0)?;
        self.steep = FIRST_STEP;
        for (place, link) in self.network.links().iter().enumerate() {
            *self.given.get_mut(place)? = link.flow;
            self.steep = self
                .steep
                .checked_add(link.difference.checked_abs()?.checked_mul(GROWTH)?)?;
        }
        self.basis.arcs.load(&self.network, &self.given)?;
        self.basis.begin(0)?;
        self.basis.choose_free()?;
        self.basis.choose_rest()?;
        self.basis.plant(self.network.spare() as usize)?;
        if self.gain_all()? != 0 {
            return None;
        }
        self.basis.arcs.write_flows(&self.network, &mut self.best)?;
        for node in self.basis.tree.nodes() {
            if node.up != ResidualArc::NONE {
                push_if_room(&mut self.tree, node.up.place())?;
            }
        }
        Some(())
    }

    /// Marks an end of the link at a place, or none.
    pub fn mark(&mut self, place: usize, end: Option<End>) {
        self.network.mark(place, end);
    }

    /// Frees a number with these ends, all of them at a vertex, from the best flows.
    pub fn free(&mut self, group: Group, base: u32, task: &Task) -> Option<Found> {
        self.basis.arcs.load(&self.network, &self.best)?;
        let places = self.part(group, base)?;
        let net = Net::of(
            &self.network,
            &self.basis.arcs,
            places,
            &self.given,
            &self.best,
        )?;
        self.tie(task, &net)?;
        self.basis.choose_all(&self.tree)?;
        self.solve(task, net)
    }

    /// Frees a number with these ends, all of them at a vertex, from other flows than the best ones. The
    /// limit of the task is not tried.
    pub fn free_from(
        &mut self,
        group: Group,
        base: u32,
        task: &Task,
        start: Start<'_>,
    ) -> Option<Found> {
        let Start { flows, seed } = start;
        if flows.len() != self.given.len() {
            return None;
        }
        self.basis.arcs.load(&self.network, flows)?;
        let places = self.part(group, base)?;
        let mut net = Net::of(&self.network, &self.basis.arcs, places, &self.given, flows)?;
        net.lose(&self.basis.arcs, &self.given, flows)?;
        self.tie_as(seed, &net)?;
        self.basis.choose_free()?;
        self.basis.choose_all(&seed.tree)?;
        self.basis.choose_all(&self.tree)?;
        self.basis.choose_rest()?;
        let task = Task {
            limit: None,
            ..*task
        };
        self.solve(&task, net)
    }

    /// The tree of the last flows, and the size of the change of the number that they were found for.
    pub fn seed(&self, alloc: Global, size: u64) -> Result<Seed, AllocError> {
        let nodes = self.basis.tree.nodes();
        let mut tree = Vec::with_capacity(alloc, nodes.len())?;
        for node in nodes {
            if node.up != ResidualArc::NONE && node.up.row() != self.basis.arcs.tie_place() {
                tree.push(node.up.place())?;
            }
        }
        Ok(Seed { tree, size })
    }

    /// The flows that are proposed; if the number is freed, those without net.
    pub fn flows(&self) -> &[i64] {
        &self.proposal.flows
    }

    /// If the number is freed, flows through it as in the best flows, but less.
    pub fn before(&self) -> &[i64] {
        &self.proposal.before
    }

    /// If the number is freed, flows through it the other way.
    pub fn behind(&self) -> &[i64] {
        &self.proposal.behind
    }

    /// The heights of the vertices at which the flows without net and before are best, if the number changes by the
    /// near size.
    pub fn near_heights(&self) -> &[i64] {
        self.of_vertices(&self.proposal.near)
    }

    /// The heights of the vertices at which the flows without net and behind are best, if the number changes by the
    /// far size.
    pub fn far_heights(&self) -> &[i64] {
        self.of_vertices(&self.proposal.far)
    }

    /// Heights without that of the spare vertex.
    fn of_vertices<'a>(&self, heights: &'a [i64]) -> &'a [i64] {
        heights.get(..self.network.spare() as usize).unwrap_or(&[])
    }

    /// Parts the ends of a number, and begins anew to choose arcs. Returns where its links are.
    fn part(&mut self, group: Group, base: u32) -> Option<Places> {
        let places = Places::of(group, self.given.len());
        self.network.part(group, base)?;
        self.basis.arcs.part(&self.network, places)?;
        self.basis.begin(places.start)?;
        Some(places)
    }

    /// Ties the spare vertex to the base, as the task wants it first, and chooses the tie.
    fn tie(&mut self, task: &Task, net: &Net) -> Option<()> {
        if net.need == 0 {
            return None;
        }
        let tie = match task.limit {
            Some(limit) => net.tie_at(limit)?,
            None => net.tie_on(0, FIRST_STEP)?,
        };
        let (base, spare) = (self.network.base(), self.network.spare());
        self.basis.arcs.tie(base, spare, net.now, tie)?;
        self.basis.choose_tie()
    }

    /// Ties them so that the number changes as it did for a seed, and no more flows through it than now. Chooses the tie.
    fn tie_as(&mut self, seed: &Seed, net: &Net) -> Option<()> {
        if net.need == 0 {
            return None;
        }
        let change = net.change(i64::try_from(seed.size).ok()?)?;
        let tie = net.tie_on(change, 0)?;
        let (base, spare) = (self.network.base(), self.network.spare());
        self.basis.arcs.tie(base, spare, net.now, tie)?;
        self.basis.choose_tie()
    }

    /// Pivots from the tree of the arcs that were chosen to what the task asks.
    fn solve(&mut self, task: &Task, net: Net) -> Option<Found> {
        let mut net = net;
        let all = self.basis.tree.nodes().len();
        self.basis.plant(all)?;
        let mut stop = self.run(task, &mut net)?;
        if task.limit.is_some() && matches!(stop, Stop::Best) && net.turned().is_some() {
            self.proposal.tell_heights(&self.basis);
            stop = Stop::Shown(Found::Within);
        }
        if matches!(stop, Stop::Best) {
            stop = self.level(task, &mut net)?;
        }
        self.proposal.tell_flows(&self.network, &self.basis)?;
        match stop {
            Stop::Shown(found) => Some(found),
            Stop::Best if net.now == 0 => self.proposal.free(&mut self.network, &self.basis, &net),
            Stop::Best => None,
        }
    }

    /// Changes the number in growing steps until nothing flows through it, or the flows show enough.
    fn level(&mut self, task: &Task, net: &mut Net) -> Option<Stop> {
        let mut step = FIRST_STEP;
        for _ in 0..i64::BITS {
            if net.now == 0 || step > self.steep {
                break;
            }
            let tie = net.tie_on(self.basis.arcs.change()?, step)?;
            self.basis.set_tie(&self.network, tie)?;
            let stop = self.run(task, net)?;
            if matches!(stop, Stop::Shown(_)) {
                return Some(stop);
            }
            step = step.checked_mul(GROWTH)?;
        }
        Some(Stop::Best)
    }

    /// Pivots until the flows are best, or show enough.
    fn run(&mut self, task: &Task, net: &mut Net) -> Option<Stop> {
        for _ in 0..u32::MAX {
            if let Some(found) = net.shown(task) {
                return Some(Stop::Shown(found));
            }
            match self.step()? {
                Step::Best => return Some(Stop::Best),
                Step::Gained(gain) => net.take(gain, &self.basis.arcs)?,
            }
        }
        None
    }

    /// Pivots until the flows are best. Returns what that gains.
    fn gain_all(&mut self) -> Option<i128> {
        let mut sum = 0i128;
        for _ in 0..u32::MAX {
            match self.step()? {
                Step::Best => return Some(sum),
                Step::Gained(gain) => sum = sum.checked_add(gain)?,
            }
        }
        None
    }

    /// The next pivot.
    fn step(&mut self) -> Option<Step> {
        match self.basis.settle_one()? {
            Step::Best => self.basis.step(&self.network),
            gained => Some(gained),
        }
    }
}
