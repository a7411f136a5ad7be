//! Arcs listed by their tails, and the queue of vertices whose labels fell.
ghost use Rattle.std.specs.Prelude.{◌≡◌, ◌<◌, ◌≤◌, All, IfOk, IfSome, length};
ghost use Rattle.th_search.specs.Inside.Spreading.{AreTails, AreVertices};
ghost use Rattle.th_search.specs.Walks.{IsArc};

use crate::arcs::Arc;
use std::alloc::{AllocError, Global};
use std::collections::VecDeque;

/// The numbers of arcs by their tails.
#[derive(Drop)]
pub(crate) struct Tails {
    /// For each vertex an arc that leads from it.
    pub firsts: Vec<Option<usize>>,
    /// For each arc another one with the same tail.
    pub followings: Vec<Option<usize>>,
}

impl Tails {
    /// Lists arcs by their tails.
    pub fn of(alloc: Global, vertices: u32, arcs: &[Arc]) -> Result<Tails, AllocError>
        requires { All (IsArc vertices) arcs.now }
        ensures { IfOk result (λ tails.
            AreTails vertices (length arcs.now) tails.firsts.items tails.followings.items) }
    {
        let mut firsts = vec![in alloc; None; vertices as usize]?;
        let mut followings = vec![in alloc; None; arcs.len()]?;
        for (number, arc) in arcs.iter().enumerate() {
            followings[number] = firsts[arc.tail as usize];
            firsts[arc.tail as usize] = Some(number);
        }
        Ok(Tails { firsts, followings })
    }
}

/// Vertices whose labels fell, each with the label that it then had, in the order in which they are to be
/// looked at.
#[derive(Drop)]
pub(crate) struct Queue {
    /// How many vertices there are.
    pub vertices: u32,
    entries: VecDeque<(u32, i64)>,
    ghost within: { AreVertices vertices entries.items },
}

impl Queue {
    /// Vertex 0 alone, of so many, with the label 0.
    pub fn new(alloc: Global, vertices: u32) -> Result<Queue, AllocError>
        requires { 1 ≤ vertices }
        ensures { IfOk result (λ queue. queue.vertices ≡ vertices) }
    {
        let mut entries = VecDeque::new(alloc);
        entries.push_back((0, 0))?;
        Ok(Queue { vertices, entries })
    }

    /// Adds a vertex with its label before all others.
    pub fn add_first(&mut self, vertex: u32, label: i64) -> Result<(), AllocError>
        requires { vertex < self.old.vertices }
        ensures { self.new.vertices ≡ self.old.vertices }
    {
        self.entries.push_front((vertex, label))?;
        Ok(())
    }

    /// Adds a vertex with its label behind all others.
    pub fn add_last(&mut self, vertex: u32, label: i64) -> Result<(), AllocError>
        requires { vertex < self.old.vertices }
        ensures { self.new.vertices ≡ self.old.vertices }
    {
        self.entries.push_back((vertex, label))?;
        Ok(())
    }

    /// Takes the first vertex, and the label that it had when it was added.
    pub fn take(&mut self) -> Option<(u32, i64)>
        ensures vertices { self.new.vertices ≡ self.old.vertices }
        ensures vertex { IfSome result (λ taken. taken.0 < self.old.vertices) }
    {
        self.entries.pop_front()
    }
}
