//! Flow from a source along the edges of a graph, with room for some of it at each vertex.
ghost use Rattle.std.specs.Prelude.{◌≡◌, ◌+◌, ◌<◌, ◌≤◌, ◌↔◌, ℕ, IfOk, false, length, true};
ghost use Rattle.th_cuts.specs.Drains.{on_side, room_at};
ghost use Rattle.th_cuts.specs.Graphs.{edge_at, finish_of, start_of};
ghost use Rattle.th_cuts.specs.Inside.Flows.{AreBounded, IsFlow};
ghost use Rattle.th_cuts.specs.Inside.Trees.{AreApart, AreSteps, IsSent, step_at};

use crate::edges::Way;
use crate::graphs::Graph;
use crate::guides::Guide;
use crate::paths::Path;
use crate::rooms::{carry, move_room, room};
use crate::trees::WayStep;
use std::alloc::{AllocError, Global};

/// What is to flow: from where, and how much of it may end at each vertex.
#[derive(Clone, Copy)]
pub(crate) struct Drain<'a> {
    pub graph: &'a Graph,
    pub source: u32,
    pub rooms: &'a [u32],
    /// How much is to flow at most.
    pub most: u32,
    ghost source_within: { source < graph.now.vertices },
    ghost each_room: { length rooms.now ≡ graph.now.vertices },
}

/// A flow from the source of a drain.
#[derive(Drop)]
pub(crate) struct Flow<'a> {
    pub drain: Drain<'a>,
    /// The flow along each edge, below zero where it is against the edge.
    pub flows: Vec<i64>,
    /// How much more may end at each vertex.
    pub left: Vec<u32>,
    /// How much flows from the source.
    pub value: u32,
    ghost flow: { IsFlow drain.graph.now.edges.items drain.source drain.rooms.now left.items value flows.items },
    ghost few: { value ≤ drain.most },
}

impl<'a> Flow<'a> {
    ghost use Rattle.th_cuts.specs.Inside.OfFlows.{AreFull, AreStepsOf, CanCarryMore, IsClosedBy, IsFull};

    /// No flow.
    pub fn none(alloc: Global, drain: &Drain<'a>) -> Result<Flow<'a>, AllocError>
        ensures { IfOk result (λ flow. flow.drain ≡ drain.now) }
    {
        let graph = drain.graph;
        let flows = vec![in alloc; 0i64; graph.edges.len()]?;
        let left = drain.rooms.to_vec(alloc)?;
        Ok(Flow {
            drain: *drain,
            flows,
            left,
            value: 0,
        })
    }

    /// How much more can flow along a way.
    pub fn room(&self, way: Way) -> u32
        requires { way.edge < length self.now.drain.graph.now.edges.items }
        ensures { (amount : ℕ) → CanCarryMore self.now amount way ↔ (amount ≤ result) }
    {
        room(self.drain.graph, &self.flows, way)
    }

    /// How much more can flow along a way; nothing along one of no edge.
    pub fn room_along(&self, way: Way) -> u32 {
        if way.edge < self.drain.graph.edges.len() {
            self.room(way)
        } else {
            0
        }
    }

    /// How much more may end at a vertex.
    pub fn left_at(&self, vertex: u32) -> u32
        ensures { result ≡ room_at self.now.left.items vertex }
    {
        match self.left.get(vertex as usize) {
            Some(left) => *left,
            None => 0,
        }
    }

    /// Sends as much as has room along the ways that lead to a step, and may end there.
    pub fn send(&mut self, steps: &[WayStep], last: usize)
        requires steps { AreStepsOf self.old steps.now }
        requires apart { AreApart steps.now }
        requires within { last < length steps.now }
        requires room { 1 ≤ room_at self.old.left.items (step_at steps.now last).vertex }
        requires more { self.old.value < self.old.drain.most }
        ensures drain { self.new.drain ≡ self.old.drain }
        ensures more { self.old.value < self.new.value }
    {
        let end = steps[last].vertex as usize;
        let amount = least(
            least(steps[last].limit, self.left[end]),
            self.drain.most - self.value,
        );
        augment(&self.drain, &mut self.flows, steps, last, amount);
        self.left[end] -= amount;
        self.value += amount;
    }

    /// Sends more along ways that lead one level on, until there is enough, the paths took many steps, or no
    /// such ways lead to where more may end.
    pub fn send_more(&mut self, guide: &mut Guide, path: &mut Path) -> Result<(), AllocError>
        ensures drain { IfOk result (λ _. self.new.drain ≡ self.old.drain) }
        ensures more { IfOk result (λ _. self.old.value ≤ self.new.value) }
    {
        'sending: while self.value < self.drain.most && path.find(self, guide)? {
            self.send(&path.steps, path.steps.len() - 1);
            guide.walk(path.steps.len());
            if guide.has_walked(self.drain.graph) {
                return Ok(());
            }
        }
        Ok(())
    }

    /// Pulls up to an amount back along a way: what may end where the way leads may end where it begins
    /// instead, and flows along the way. As much flows from the source as before.
    pub fn pull(&mut self, way: Way, most: u32)
        ensures drain { self.new.drain ≡ self.old.drain }
        ensures value { self.new.value ≡ self.old.value }
    {
        let graph = self.drain.graph;
        if way.edge >= graph.edges.len() {
            return;
        }
        let start = way.start(graph.edges[way.edge]);
        let finish = way.finish(graph.edges[way.edge]);
        let amount = least(most, least(self.room(way), self.left_at(finish)));
        if amount == 0 || start as usize >= self.left.len() {
            return;
        }
        if self.left_at(start) > u32::MAX - amount {
            return;
        }
        self.pull_just(way, start, finish, amount);
    }

    /// Pulls an amount back along a way.
    fn pull_just(&mut self, way: Way, start: u32, finish: u32, amount: u32)
        requires way { way.edge < length self.old.drain.graph.now.edges.items }
        requires room { CanCarryMore self.old amount way }
        requires start { start ≡ start_of way (edge_at self.old.drain.graph.now.edges.items way.edge) }
        requires finish { finish ≡ finish_of way (edge_at self.old.drain.graph.now.edges.items way.edge) }
        requires within { start < length self.old.left.items }
        requires ends { finish < length self.old.left.items }
        requires enough { amount ≤ room_at self.old.left.items finish }
        requires light { room_at self.old.left.items start + amount ≤ 4294967295 }
        ensures drain { self.new.drain ≡ self.old.drain }
        ensures value { self.new.value ≡ self.old.value }
    {
        carry(self.drain.graph, &mut self.flows, way, amount);
        move_room(&mut self.left, finish, start, amount);
    }

    /// Whether a side holds the source, and nothing more can leave it or end in it.
    pub fn is_closed(&self, side: &[bool]) -> bool
        requires { length side.now ≡ self.now.drain.graph.now.vertices }
        ensures { result ≡ true → IsClosedBy self.now side.now }
    {
        side[self.drain.source as usize] && self.is_full(side) && self.is_used(side)
    }

    /// Whether each way that leads out of a side is full.
    fn is_full(&self, side: &[bool]) -> bool
        requires { length side.now ≡ self.now.drain.graph.now.vertices }
        ensures { result ≡ true → AreFull self.now (on_side side.now) }
    {
        let graph = self.drain.graph;
        for number in 0..graph.edges.len() {
            if !self.is_full_at(side, number) {
                return false;
            }
        }
        true
    }

    /// Whether an edge leads out of a side along full ways only.
    fn is_full_at(&self, side: &[bool], number: usize) -> bool
        requires side { length side.now ≡ self.now.drain.graph.now.vertices }
        requires number { number < length self.now.drain.graph.now.edges.items }
        ensures forward { result ≡ true → IsFull self.now (on_side side.now) (record { edge = number; is_forward = true }) }
        ensures back { result ≡ true → IsFull self.now (on_side side.now) (record { edge = number; is_forward = false }) }
    {
        let graph = self.drain.graph;
        let edge = graph.edges[number];
        let tail = side[edge.tail as usize];
        let head = side[edge.head as usize];
        if tail == head {
            return true;
        }
        let weight = edge.weight as i64;
        if tail {
            self.flows[number] == weight
        } else {
            self.flows[number] == -weight
        }
    }

    /// Whether nothing more may end on a side.
    fn is_used(&self, side: &[bool]) -> bool
        requires { length side.now ≡ self.now.drain.graph.now.vertices }
        ensures { result ≡ true → (vertex : ℕ) → on_side side.now vertex ≡ true
            → room_at self.now.left.items vertex ≡ 0 }
    {
        for vertex in 0..side.len() {
            if side[vertex] && self.left[vertex] != 0 {
                return false;
            }
        }
        true
    }
}

/// Sends an amount from the source along the ways that lead to a step.
fn augment(drain: &Drain<'_>, flows: &mut [i64], steps: &[WayStep], last: usize, amount: u32)
    requires flows { AreBounded drain.now.graph.now.edges.items flows.old }
    requires steps { AreSteps drain.now.graph.now.edges.items flows.old drain.now.source steps.now }
    requires apart { AreApart steps.now }
    requires within { last < length steps.now }
    requires enough { amount ≤ (step_at steps.now last).limit }
    ensures { IsSent drain.now.graph.now.edges.items flows.old drain.now.source (step_at steps.now last).vertex amount
        flows.new }
{
    let mut at = last;
    'back: while at != 0 {
        let step = steps[at];
        carry(drain.graph, flows, step.way, amount);
        at = step.parent;
    }
}

/// The smaller of two amounts.
pub(crate) fn least(a: u32, b: u32) -> u32
    ensures first { result ≤ a }
    ensures second { result ≤ b }
    ensures some { 1 ≤ a → 1 ≤ b → 1 ≤ result }
{
    if a < b { a } else { b }
}
