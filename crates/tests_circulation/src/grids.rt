//! The best heights of at most three vertices, found by trying all whole millimetres in reach.
ghost use Rattle.std.specs.Prelude.{◌≤ℤ◌, pos};

use th_network::Network;

/// One millimetre, in units of 10 nm.
const MILLIMETRE: i64 = 100_000;

/// The most vertices of a network whose heights are all tried.
pub const MOST_VERTICES: u32 = 3;

/// The least cost of the heights that were tried, and how low and how high those of that cost are at
/// vertex 1 and vertex 2.
#[derive(Clone, Copy)]
pub struct Best {
    pub cost: u128,
    pub low: [i64; 2],
    pub high: [i64; 2],
}

impl Best {
    /// Takes heights of a cost.
    fn take(&mut self, cost: u128, first: i64, second: i64) {
        if cost < self.cost {
            *self = Best {
                cost,
                low: [first, second],
                high: [first, second],
            };
        } else if cost == self.cost {
            self.low = [self.low[0].min(first), self.low[1].min(second)];
            self.high = [self.high[0].max(first), self.high[1].max(second)];
        }
    }
}

/// The best of all heights of at most three vertices that are whole millimetres, as far from vertex 0
/// as two of the largest differences: where all differences are whole millimetres, the lowest and the
/// highest best heights are among these.
pub fn best_on_grid(network: &Network) -> Best {
    let mut best = Best {
        cost: u128::MAX,
        low: [0, 0],
        high: [0, 0],
    };
    let reach = reach_of(network);
    for first in -reach..=reach {
        for second in -reach..=reach {
            let first = first.wrapping_mul(MILLIMETRE);
            let second = second.wrapping_mul(MILLIMETRE);
            best.take(cost_at(network, first, second), first, second);
        }
    }
    best
}

/// How many millimetres two of the largest differences are, up to a metre.
fn reach_of(network: &Network) -> i64
    ensures least { pos 0 ≤ℤ result }
    ensures most { result ≤ℤ pos 1000 }
{
    let mut largest = 0i64;
    for link in network.arcs() {
        largest = largest.max((link.diff / MILLIMETRE).wrapping_abs());
    }
    largest.wrapping_mul(2).clamp(0, 1_000)
}

/// What it costs that vertex 1 and vertex 2 are at these heights.
fn cost_at(network: &Network, first: i64, second: i64) -> u128 {
    let mut cost = 0u128;
    for (i, link) in network.arcs().iter().enumerate() {
        let rise = height_at(link.head, first, second).wrapping_sub(height_at(
            link.tail, first, second,
        ));
        let residual = link.diff.wrapping_sub(rise).unsigned_abs() as u128;
        cost = cost.wrapping_add(residual.wrapping_mul(network.weight(i) as u128));
    }
    cost
}

/// The height of a vertex.
fn height_at(vertex: u32, first: i64, second: i64) -> i64 {
    match vertex {
        0 => 0,
        1 => first,
        _ => second,
    }
}
