//! What a mistake that does not show would move, and what would be blamed for it.
ghost use Rattle.std.specs.Prelude.{◌≡◌, ◌+◌, ◌<◌, ◌≤◌, ℕ, List, count_by, get_or, length};
ghost use Rattle.th_cuts.specs.Drains.{on_side};
ghost use Rattle.th_cuts.specs.CutWeights.{separates};
ghost use Rattle.th_network.specs.Networks.{points_of};
ghost use Rattle.th_reliability.specs.Blames.{IsBlame, blamed_weights};
ghost use Rattle.th_reliability.specs.Inside.Blamed.{IsBlamed};
ghost use Rattle.th_reliability.specs.Inside.Sides.{blamed_edge, names_beyond};
ghost use Rattle.th_reliability.specs.Inside.Targets.{AreEdges};

use th_cuts::Edge;
use th_network::Network;

/// What a mistake that does not show would do. The points of a set would move by the whole mistake,
/// and the other observations that cross the set would be blamed: each would have a residual of the
/// mistake's size.
#[derive(Clone, Copy, Debug, PartialEq, Eq)]
pub struct Blame {
    /// How many points would move.
    pub moves: usize,
    /// How many observations would be blamed.
    pub blames: usize,
    /// The number, from 1, of the heaviest of these, the first of equals.
    pub blamed: Option<usize>,
}

/// What is blamed among the first of some observations.
#[derive(Clone, Copy)]
struct Blamed {
    /// How many of them are blamed.
    count: usize,
    /// What the heaviest of these weighs; 0 if there is none.
    most: u32,
    /// The number, from 1, of the heaviest, the first of equals.
    number: Option<usize>,
}

impl Blamed {
    /// Adds an observation at a place, which is blamed with this weight, or not at all if it is 0.
    fn add(&mut self, place: usize, weight: u32)
        requires few { self.old.count ≤ place }
        requires place { place < 9223372036854775807 }
        ensures { (weights : List ℕ) → place < length weights → weight ≡ get_or weights place 0
            → IsBlamed weights place self.old → IsBlamed weights (place + 1) self.new }
    {
        if weight > 0 {
            self.count += 1;
        }
        if weight > self.most {
            self.most = weight;
            self.number = Some(place + 1);
        }
    }
}

/// What would move and be blamed, if the vertices move that a side separates from vertex 0. Which of
/// the observations have a part in the mistake is listed in their order.
pub(crate) fn blame_of(network: &Network, edges: &[Edge], mistaken: &[bool], side: &[bool]) -> Blame
    requires edges { AreEdges network.now edges.now }
    requires each { length mistaken.now ≡ length network.now.observations }
    ensures { IsBlame network.now mistaken.now (names_beyond network.now (on_side side.now)) result }
{
    let blamed = blamed_of(network, edges, mistaken, side);
    Blame {
        moves: moved_points(network, side),
        blames: blamed.count,
        blamed: blamed.number,
    }
}

/// How many points have vertices that a side separates from vertex 0.
fn moved_points(network: &Network, side: &[bool]) -> usize
    ensures { result ≡ count_by (names_beyond network.now (on_side side.now)) (points_of network.now) }
{
    let mut count = 0;
    let vertices = network.point_vertices();
    for vertex in vertices {
        if are_apart(side, *vertex, 0) {
            count += 1;
        }
    }
    count
}

/// What is blamed among all observations.
fn blamed_of(network: &Network, edges: &[Edge], mistaken: &[bool], side: &[bool]) -> Blamed
    requires edges { AreEdges network.now edges.now }
    requires each { length mistaken.now ≡ length network.now.observations }
    ensures { IsBlamed (blamed_weights network.now mistaken.now (names_beyond network.now (on_side side.now)))
        (length network.now.observations) result }
{
    let mut blamed = Blamed {
        count: 0,
        most: 0,
        number: None,
    };
    for i in 0..network.observations().len() {
        blamed.add(i, blamed_edge(mistaken[i], side, edges[i]));
    }
    blamed
}

/// The weight with which the observation of an edge is blamed.
fn blamed_edge(mistaken: bool, side: &[bool], edge: Edge) -> u32
    ensures { result ≡ blamed_edge mistaken (on_side side.now) edge }
{
    if mistaken {
        0
    } else if are_apart(side, edge.tail, edge.head) {
        edge.weight
    } else {
        0
    }
}

/// Whether exactly one of two vertices is on a side.
pub(crate) fn are_apart(side: &[bool], first: u32, second: u32) -> bool
    ensures { result ≡ separates (on_side side.now) first second }
{
    is_on(side, first) != is_on(side, second)
}

/// Whether a vertex is on a side.
fn is_on(side: &[bool], vertex: u32) -> bool
    ensures { result ≡ on_side side.now vertex }
{
    match side.get(vertex as usize) {
        Some(on) => *on,
        None => false,
    }
}
