//! A point from which heights are counted, and how vertices change places so that its vertex is vertex 0.
ghost use Rattle.std.specs.Prelude.{◌≡◌, ◌<◌, ◌≤◌, ℕ, List, Some, length, slice_get, unsigned_abs};
ghost use Rattle.th_network.specs.Networks.{points_of, vertices_of};
ghost use Rattle.th_names.specs.Inside.Rooted.{exchanged, root_of, step};
ghost use Rattle.th_search.specs.Limits.{farthest};
ghost use Rattle.th_units.specs.Limits.{max_len};

use th_network::Network;

/// A point of a network.
#[derive(Clone, Copy)]
pub(crate) struct Root {
    pub vertex: u32,
    /// Its height if it is a benchmark, or else 0.
    pub base: i64,
}

/// Whether a distance counts down or up.
#[derive(Clone, Copy)]
pub(crate) enum Way {
    Down,
    Up,
}

impl Way {
    /// A distance down or up.
    pub fn step(self, distance: i64) -> i64
        requires { unsigned_abs distance ≤ farthest }
        ensures step { result ≡ step self distance }
        ensures small { unsigned_abs result ≤ farthest }
    {
        match self {
            Way::Down => -distance,
            Way::Up => distance,
        }
    }
}

/// The point at a place of a network.
pub(crate) fn root_at(network: &Network, place: usize) -> Root
    requires { place < length (points_of network.now) }
    ensures root { (name : List ℕ) → slice_get (points_of network.now) place ≡ Some name
        → result ≡ root_of network.now name }
    ensures within { result.vertex < vertices_of network.now }
    ensures small { unsigned_abs result.base ≤ max_len }
{
    Root {
        vertex: network.point_vertices()[place],
        base: network.fixed(place).unwrap_or(0),
    }
}

/// The root in place of vertex 0, and vertex 0 in place of the root.
pub(crate) fn exchanged(root: u32, vertex: u32) -> u32
    ensures { result ≡ exchanged root vertex }
{
    if vertex == 0 {
        root
    } else if vertex == root {
        0
    } else {
        vertex
    }
}
