//! The guide as its callers see it: links to set, flows to find, and cycles that it proposes.
use crate::cycles::Cycles;
use crate::links::Link;
use crate::planting::Planting;
use crate::residual_arcs::ResidualArc;
use crate::scales::Scale;
use crate::simplex::Simplex;
use std::alloc::{AllocError, Global};

/// How many levels a tree has that is planted in chunks.
const MANY_LEVELS: u32 = 64;

/// How many chunks there are then.
const CHUNKS: usize = 16;

/// What proposes cycles to cancel. Nothing is promised of the proposals.
#[derive(Drop)]
pub struct Guide {
    simplex: Simplex,
    planting: Planting,
    cycles: Cycles,
    /// Whether the flows that it aims at were found, with heights at which they are optimal.
    has_solved: bool,
    /// Whether there may be more proposals.
    is_at_work: bool,
}

impl Guide {
    /// A guide for so many vertices and links; it has all the memory that it needs.
    pub fn new(alloc: Global, vertices: u32, links: usize) -> Result<Guide, AllocError> {
        Ok(Guide {
            simplex: Simplex::new(alloc, vertices, links)?,
            planting: Planting::new(alloc, vertices)?,
            cycles: Cycles::new(alloc, vertices)?,
            has_solved: false,
            is_at_work: false,
        })
    }

    /// Sets the link at a place, from 0.
    pub fn set_link(&mut self, place: usize, link: Link) {
        if let Some(row) = self.simplex.links.get_mut(place) {
            *row = link;
        }
    }

    /// Finds flows of greatest gain for the links that were set, and goes to work on the cycles that lead
    /// there.
    pub fn start(&mut self) {
        self.has_solved = self.solve().is_some();
        self.is_at_work = self.has_solved;
    }

    /// Whether flows of greatest gain were found for the links that were set.
    pub fn has_solved(&self) -> bool {
        self.has_solved
    }

    /// Whether there may be more proposals.
    pub fn is_at_work(&self) -> bool {
        self.is_at_work
    }

    /// Proposes nothing more for these links.
    pub fn stop(&mut self) {
        self.is_at_work = false;
    }

    /// Proposes the next cycle that costs less than 0: returns how much is to flow round it, and
    /// `cycle` gives its arcs. `None` if nothing is left or the guide has given up.
    pub fn propose(&mut self) -> Option<u32> {
        if !self.is_at_work {
            return None;
        }
        let simplex = &mut self.simplex;
        for _ in 0..simplex.links.len() {
            let amount = self.cycles.next(&mut simplex.sides)?;
            if self.cycles.gain(&simplex.links)? > 0 {
                return Some(amount);
            }
        }
        None
    }

    /// The residual arcs of the last proposal, in the order in which they lead round.
    pub fn cycle(&self) -> &[ResidualArc] {
        &self.cycles.cycle
    }

    /// The height of a vertex above vertex 0; at these heights the flows that it aims at are
    /// optimal. `None` if it found none.
    pub fn height(&self, vertex: u32) -> Option<i64> {
        if !self.has_solved {
            return None;
        }
        let height = self.simplex.heights.at(vertex)?.height;
        height.checked_sub(self.simplex.heights.at(0)?.height)
    }

    fn solve(&mut self) -> Option<()> {
        self.plant()?;
        self.improve()?;
        let simplex = &mut self.simplex;
        simplex.scale = Scale::PLAIN;
        simplex.gather_all()?;
        simplex.climb()?;
        if !simplex.is_optimal()? {
            simplex.measure(Scale::PLAIN)?;
            self.improve()?;
        }
        let simplex = &mut self.simplex;
        self.cycles
            .start(&simplex.links, &simplex.goals, &mut simplex.sides)
    }

    /// Makes a tree to start from, by a scale with noise.
    fn plant(&mut self) -> Option<()> {
        let simplex = &mut self.simplex;
        simplex.clear()?;
        let levels = self.planting.plant(simplex)?;
        let scale = Scale::noisy(&simplex.sides, simplex.heights.count())?;
        simplex.measure(scale)?;
        if levels < MANY_LEVELS {
            simplex.gather_all()?;
            simplex.climb()?;
        } else {
            let chunk = simplex.heights.count() as usize / CHUNKS + 1;
            simplex.uproot();
            self.planting.plant_in_chunks(simplex, chunk)?;
            simplex.gather_all()?;
        }
        Some(())
    }

    /// Pivots from the tree that there is to optimal flows.
    fn improve(&mut self) -> Option<()> {
        self.simplex.balance()?;
        self.simplex.pivot_all()?;
        self.simplex.write_tree_flows()
    }
}
