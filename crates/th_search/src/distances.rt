//! Distances from vertex 0, by labels that fall along arcs until no arc is shorter than they say.
ghost use Rattle.std.specs.Prelude.{◌≡◌, ◌<◌, ◌+ℤ◌, All, IfOk, MatchBool, length};
ghost use Rattle.th_search.specs.Distances.{AreDistances, AreTight, IsKept};
ghost use Rattle.th_search.specs.Inside.DistanceLabels.{AreLabels, room};
ghost use Rattle.th_search.specs.Inside.Spreading.{AreTails};
ghost use Rattle.th_search.specs.Potentials.{value_at};
ghost use Rattle.th_search.specs.Walks.{arc_at};

use crate::arcs::Arc;
use crate::farthest::FARTHEST;
use crate::spreading::{Queue, Tails};
use crate::sweeps::Sweep;
use std::alloc::{AllocError, Global};

/// How many entries of the queue are taken before the passes, for each vertex that there is.
const LOOKS: usize = 64;

/// Arcs without a negative cycle that lead from vertex 0 to each vertex, and back.
#[derive(Clone, Copy)]
pub struct TightArcs<'a> {
    pub vertices: u32,
    pub arcs: &'a [Arc],
    /// Numbers of the vertices. Any will do; those along which no arc falls by more than its cost make
    /// labels fall seldom.
    pub levels: &'a [i64],
    ghost tight: { AreTight vertices arcs.now },
}

impl<'a> TightArcs<'a> {
    /// The distance of each vertex from vertex 0: the shortest length of the walks to it.
    ///
    /// Labels that begin at or above all distances fall along one arc after another until no arc is
    /// shorter than they say: then they are the distances. They fall from vertex to vertex first, and
    /// then in passes over all arcs, every second one backwards.
    pub fn distances(&self, alloc: Global) -> Result<Vec<i64>, AllocError>
        ensures { IfOk result (λ distances.
            AreDistances self.now.vertices self.now.arcs.now distances.items) }
    {
        let mut labels = vec![in alloc; FARTHEST; self.vertices as usize]?;
        labels[0] = 0;
        self.spread(alloc, &mut labels)?;
        let mut sweep = Sweep::Forwards;
        'passes: while self.lower_all(sweep, &mut labels) {
            sweep = sweep.reversed();
        }
        Ok(labels)
    }

    /// Lowers labels from vertex 0 on, from one vertex to the next, as far as so many looks at vertices
    /// reach. What is left is for the passes, and in most networks nothing is. A vertex whose label fell
    /// again since it was added stands there a second time.
    fn spread(&self, alloc: Global, labels: &mut [i64]) -> Result<(), AllocError>
        requires { AreLabels self.now.vertices self.now.arcs.now labels.old }
        ensures { AreLabels self.now.vertices self.now.arcs.now labels.new }
    {
        let tails = Tails::of(alloc, self.vertices, self.arcs)?;
        let mut queue = Queue::new(alloc, self.vertices)?;
        for _ in 0..LOOKS * self.vertices as usize {
            let Some((vertex, label)) = queue.take() else {
                break;
            };
            if label == labels[vertex as usize] {
                self.lower_from(vertex, &tails, &mut queue, labels)?;
            }
        }
        Ok(())
    }

    /// Lowers the labels along the arcs from a vertex, and lets those wait whose labels fell.
    fn lower_from(
        &self,
        vertex: u32,
        tails: &Tails,
        queue: &mut Queue,
        labels: &mut [i64],
    ) -> Result<(), AllocError>
        requires vertex { vertex < self.now.vertices }
        requires tails { AreTails self.now.vertices (length self.now.arcs.now) tails.now.firsts.items
            tails.now.followings.items }
        requires queue { queue.old.vertices ≡ self.now.vertices }
        requires labels { AreLabels self.now.vertices self.now.arcs.now labels.old }
        ensures queue { queue.new.vertices ≡ self.now.vertices }
        ensures labels { AreLabels self.now.vertices self.now.arcs.now labels.new }
    {
        let mut at = tails.firsts[vertex as usize];
        for _ in 0..self.arcs.len() {
            let Some(number) = at else {
                break;
            };
            if self.lower(number, labels) {
                self.add_head(number, labels, queue)?;
            }
            at = tails.followings[number];
        }
        Ok(())
    }

    /// Adds the head of an arc to a queue: before all others where the arc is as long as the levels say.
    /// Then it is looked at with the vertices that the levels put as far.
    fn add_head(&self, number: usize, labels: &[i64], queue: &mut Queue) -> Result<(), AllocError>
        requires number { number < length self.now.arcs.now }
        requires labels { AreLabels self.now.vertices self.now.arcs.now labels.now }
        requires queue { queue.old.vertices ≡ self.now.vertices }
        ensures { queue.new.vertices ≡ self.now.vertices }
    {
        let arc = self.arcs[number];
        let label = labels[arc.head as usize];
        if self.level(arc.head).checked_add(arc.cost) == Some(self.level(arc.tail)) {
            return queue.add_first(arc.head, label);
        }
        queue.add_last(arc.head, label)
    }

    /// The level of a vertex.
    fn level(&self, vertex: u32) -> i64 {
        self.levels.get(vertex as usize).copied().unwrap_or(0)
    }

    /// Goes over the arcs once and lowers the labels; whether any was lowered. Where none was, each arc
    /// is as long as they say, or longer.
    fn lower_all(&self, sweep: Sweep, labels: &mut [i64]) -> bool
        requires { AreLabels self.now.vertices self.now.arcs.now labels.old }
        ensures labels { AreLabels self.now.vertices self.now.arcs.now labels.new }
        ensures lowered { MatchBool result (room labels.new < room labels.old)
            (All (IsKept (value_at labels.new)) self.now.arcs.now) }
    {
        let mut lowered = false;
        for step in 0..self.arcs.len() {
            let number = sweep.index_at(self.arcs.len(), step);
            if self.lower(number, labels) {
                lowered = true;
            }
        }
        lowered
    }

    /// Lowers the label of an arc's head where the label of its tail and its cost together are lower;
    /// whether they were.
    fn lower(&self, number: usize, labels: &mut [i64]) -> bool
        requires number { number < length self.now.arcs.now }
        requires labels { AreLabels self.now.vertices self.now.arcs.now labels.old }
        ensures labels { AreLabels self.now.vertices self.now.arcs.now labels.new }
        ensures lowered { MatchBool result (room labels.new < room labels.old)
            ((labels.new ≡ labels.old)
            × IsKept (value_at labels.old) (arc_at self.now.arcs.now number)) }
    {
        let head = self.arcs[number].head as usize;
        let label = self.label_at_head(number, labels);
        if label < labels[head] {
            labels[head] = label;
            return true;
        }
        false
    }

    /// The label of an arc's tail and its cost together.
    fn label_at_head(&self, number: usize, labels: &[i64]) -> i64
        requires number { number < length self.now.arcs.now }
        requires labels { AreLabels self.now.vertices self.now.arcs.now labels.now }
        ensures { result ≡ value_at labels.now (arc_at self.now.arcs.now number).tail
            +ℤ (arc_at self.now.arcs.now number).cost }
    {
        let arc = self.arcs[number];
        labels[arc.tail as usize] + arc.cost
    }
}
