//! Searches along ways with room, for where more may end or a side that nothing more can leave.
ghost use Rattle.std.specs.Prelude.{◌≡◌, ◌<◌, ◌≤◌, ℕ, false, true, suc, All, Contains, IfOk, IfSome, None, length, map};
ghost use Rattle.th_cuts.specs.Drains.{room_at};
ghost use Rattle.th_cuts.specs.Inside.Trees.{IsFound, IsTree, is_placed, place_at, reached, step_at};

use crate::edges::Way;
use crate::flows::{Flow, least};
use std::alloc::{AllocError, Global};

/// A step of a search, along a way.
#[derive(Clone, Copy, Debug, PartialEq, Eq)]
pub(crate) struct WayStep {
    /// The vertex that it reaches.
    pub vertex: u32,
    /// The place of the step that reached where its way begins.
    pub parent: usize,
    /// The way that it takes.
    pub way: Way,
    /// How much can flow along all ways that lead here from the source.
    pub limit: u32,
}

/// The steps of a search from the source of a flow along ways with room, in the order in which they were
/// taken.
#[derive(Drop)]
pub(crate) struct Tree<'a, 'b> {
    flow: &'a Flow<'b>,
    steps: Vec<WayStep>,
    /// For each vertex that is reached the place of the step that reaches it.
    places: Vec<Option<usize>>,
    ghost tree: { IsTree flow.now.drain.graph.now.vertices flow.now.drain.graph.now.edges.items
        flow.now.flows.items flow.now.drain.source steps.items places.items },
}

impl<'a, 'b> Tree<'a, 'b> {
    ghost use Rattle.th_cuts.specs.Inside.OfFlows.{AreFull, IsFull};

    /// The source alone.
    pub fn new(alloc: Global, flow: &'a Flow<'b>) -> Result<Tree<'a, 'b>, AllocError>
        ensures { IfOk result (λ tree. tree.flow.now ≡ flow.now) }
    {
        let source = flow.drain.source;
        let graph = flow.drain.graph;
        let mut steps = Vec::new(alloc);
        steps.push(first_step(source))?;
        let mut places = vec![in alloc; None; graph.vertices as usize]?;
        places[source as usize] = Some(0);
        Ok(Tree {
            flow,
            steps,
            places,
        })
    }

    /// Whether all of some vertices are reached.
    pub fn has_all(&self, wanted: &[u32]) -> bool
        ensures yes { result ≡ true → All (λ vertex. reached self.now.places.items vertex ≡ true) wanted.now }
        ensures no { result ≡ false → (vertex : ℕ) × Contains wanted.now vertex
            × (reached self.now.places.items vertex ≡ false) }
    {
        for vertex in wanted {
            if self.place_of(*vertex).is_none() {
                return false;
            }
        }
        true
    }

    /// Searches in breadth until some vertices are reached, or as far as the graph lists its ways.
    pub fn spread(&mut self, wanted: &[u32]) -> Result<(), AllocError>
        ensures { IfOk result (λ _. self.new.flow.now ≡ self.old.flow.now) }
    {
        let mut next = 0;
        'steps: while next < self.steps.len() && !self.has_all(wanted) {
            let vertex = self.steps[next].vertex;
            next += 1;
            self.spread_from(vertex)?;
        }
        Ok(())
    }

    /// Searches until no way with room leads on.
    pub fn close(&mut self) -> Result<(), AllocError>
        ensures flow { IfOk result (λ _. self.new.flow.now ≡ self.old.flow.now) }
        ensures full { IfOk result (λ _. AreFull self.new.flow.now (reached self.new.places.items)) }
    {
        'closing: while self.take_any()? {}
        Ok(())
    }

    /// Takes each step that leads on from a vertex.
    fn spread_from(&mut self, vertex: u32) -> Result<(), AllocError>
        ensures flow { IfOk result (λ _. self.new.flow.now ≡ self.old.flow.now) }
        ensures grown { IfOk result (λ _. length self.old.steps.items ≤ length self.new.steps.items) }
    {
        let flow = self.flow;
        let graph = flow.drain.graph;
        let (first, end) = graph.range(vertex);
        for number in first..end {
            let neighbour = graph.way(number);
            if self.place_of(neighbour.finish).is_none() {
                self.reach(neighbour.way)?;
            }
        }
        Ok(())
    }

    /// Takes a step along any way that leads on, and says whether there is one.
    fn take_any(&mut self) -> Result<bool, AllocError>
        ensures flow { IfOk result (λ _. self.new.flow.now ≡ self.old.flow.now) }
        ensures grown { IfOk result (λ grown. grown ≡ true
            → length self.old.steps.items < length self.new.steps.items) }
        ensures kept { IfOk result (λ grown. grown ≡ false
            → self.new.places.items ≡ self.old.places.items) }
        ensures full { IfOk result (λ grown. grown ≡ false
            → AreFull self.new.flow.now (reached self.new.places.items)) }
    {
        let flow = self.flow;
        let graph = flow.drain.graph;
        for number in 0..graph.edges.len() {
            let forward = Way {
                edge: number,
                is_forward: true,
            };
            if self.reach(forward)? {
                return Ok(true);
            }
            let back = Way {
                edge: number,
                is_forward: false,
            };
            if self.reach(back)? {
                return Ok(true);
            }
        }
        Ok(false)
    }

    /// Takes a step along a way, if it leads with room from a vertex that is reached to one that is not,
    /// and says whether it does.
    fn reach(&mut self, way: Way) -> Result<bool, AllocError>
        requires { way.edge < length self.old.flow.now.drain.graph.now.edges.items }
        ensures flow { IfOk result (λ _. self.new.flow.now ≡ self.old.flow.now) }
        ensures grown { IfOk result (λ grown. grown ≡ true
            → length self.new.steps.items ≡ suc (length self.old.steps.items)) }
        ensures kept { IfOk result (λ grown. grown ≡ false → self.new ≡ self.old) }
        ensures full { IfOk result (λ grown. grown ≡ false
            → IsFull self.old.flow.now (reached self.old.places.items) way) }
    {
        let flow = self.flow;
        let graph = flow.drain.graph;
        let edge = graph.edges[way.edge];
        let start = way.start(edge);
        let finish = way.finish(edge);
        let Some(parent) = self.place_of(start) else {
            return Ok(false);
        };
        let None = self.place_of(finish) else {
            return Ok(false);
        };
        let room = flow.room(way);
        if room == 0 {
            return Ok(false);
        }
        let before = self.step(parent);
        let limit = least(room, before.limit);
        let place = self.steps.len();
        self.steps.push(WayStep {
            vertex: finish,
            parent,
            way,
            limit,
        })?;
        self.places[finish as usize] = Some(place);
        Ok(true)
    }

    /// The place of the step that reaches a vertex, if any does.
    fn place_of(&self, vertex: u32) -> Option<usize>
        ensures { result ≡ place_at self.now.places.items vertex }
    {
        match self.places.get(vertex as usize) {
            Some(place) => *place,
            None => None,
        }
    }

    /// The step at a place.
    fn step(&self, place: usize) -> WayStep
        requires { place < length self.now.steps.items }
        ensures { result ≡ step_at self.now.steps.items place }
    {
        self.steps[place]
    }

    /// The place of a step that leads to where more may end, if any does.
    pub fn end(&self) -> Option<usize>
        ensures some { IfSome result (λ last. (last < length self.now.steps.items)
            × (1 ≤ room_at self.now.flow.now.left.items (step_at self.now.steps.items last).vertex)) }
        ensures none { result ≡ None → (vertex : ℕ) → reached self.now.places.items vertex ≡ true
            → room_at self.now.flow.now.left.items vertex ≡ 0 }
    {
        let flow = self.flow;
        for place in 0..self.steps.len() {
            if flow.left_at(self.steps[place].vertex) != 0 {
                return Some(place);
            }
        }
        None
    }

    /// For each vertex whether it is reached.
    pub fn side(&self, alloc: Global) -> Result<Vec<bool>, AllocError>
        ensures { IfOk result (λ side. side.items ≡ map is_placed self.now.places.items) }
    {
        self.places
            .iter()
            .map(|place| place.is_some())
            .collect(alloc)
    }
}

/// What a search for ways to where more may end finds.
#[derive(Drop)]
pub(crate) enum Found {
    /// Steps, and the place of the one that leads there.
    Way(Vec<WayStep>, usize),
    /// A side that nothing more can leave.
    Side(Vec<bool>),
}

/// Searches for ways to where more may end.
pub(crate) fn search(alloc: Global, flow: &Flow<'_>) -> Result<Found, AllocError>
    ensures { IfOk result (IsFound flow.now.drain.graph.now.vertices flow.now.drain.graph.now.edges.items
        flow.now.drain.source flow.now.left.items flow.now.flows.items) }
{
    let mut tree = Tree::new(alloc, flow)?;
    tree.close()?;
    match tree.end() {
        Some(last) => Ok(Found::Way(tree.steps, last)),
        None => Ok(Found::Side(tree.side(alloc)?)),
    }
}

/// The step that reaches the source.
pub(crate) fn first_step(source: u32) -> WayStep
    ensures vertex { result.vertex ≡ source }
    ensures limit { 1 ≤ result.limit }
{
    WayStep {
        vertex: source,
        parent: 0,
        way: Way {
            edge: 0,
            is_forward: true,
        },
        limit: u32::MAX,
    }
}
