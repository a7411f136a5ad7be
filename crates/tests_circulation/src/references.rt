//! A plain reference for lowest and highest heights: shortest walks over residual arcs of flows.
use std::alloc::Global;
use std::process::Abort;
use th_network::Network;

/// Which way residual arcs are walked.
#[derive(Clone, Copy, PartialEq, Eq)]
pub enum Walk {
    /// From the benchmarks.
    Away,
    /// To the benchmarks.
    Back,
}

/// The lengths of the shortest walks over the residual arcs of flows between the benchmarks and each
/// vertex, by as many passes over all arcs as there are vertices.
pub fn shortest(
    rt: &impl Abort,
    alloc: Global,
    network: &Network,
    flows: &[i64],
    walk: Walk,
) -> Vec<Option<i64>> {
    let vertices = network.vertices();
    let mut lengths = vec![in alloc; None; vertices as usize].expect(rt, "memory");
    if let Some(first) = lengths.get_mut(0) {
        *first = Some(0);
    }
    for _ in 0..vertices {
        shorten_all(network, flows, walk, &mut lengths);
    }
    lengths
}

/// Shortens lengths along the residual arcs of all links, once: forward where less flows than the
/// weight, backward where less flows against it.
fn shorten_all(network: &Network, flows: &[i64], walk: Walk, lengths: &mut [Option<i64>]) {
    for (i, link) in network.arcs().iter().enumerate() {
        let (tail, head) = match walk {
            Walk::Away => (link.tail, link.head),
            Walk::Back => (link.head, link.tail),
        };
        let weight = i64::from(network.weight(i));
        let flow = flows.get(i).copied().unwrap_or(0);
        if flow < weight {
            shorten(lengths, tail, head, link.diff.wrapping_neg());
        }
        if weight.wrapping_neg() < flow {
            shorten(lengths, head, tail, link.diff);
        }
    }
}

/// Shortens the length of the walk to an arc's head to that over its tail.
fn shorten(lengths: &mut [Option<i64>], tail: u32, head: u32, cost: i64) {
    let Some(Some(length)) = lengths.get(tail as usize).copied() else {
        return;
    };
    let over = length.wrapping_add(cost);
    if let Some(known) = lengths.get_mut(head as usize) {
        match *known {
            Some(shorter) if shorter <= over => {}
            _ => *known = Some(over),
        }
    }
}

/// Whether heights are those of the benchmarks, and of each other point as far below them as the
/// shortest walk from them is long, or as far above as the shortest walk back is.
pub fn are_lengths(
    network: &Network,
    lengths: &[Option<i64>],
    walk: Walk,
    heights: &[i64],
) -> bool {
    let mut vertex = 0usize;
    for k in 0..network.points().len() {
        let wanted = match network.fixed(k) {
            Some(height) => Some(height),
            None => {
                vertex = vertex.wrapping_add(1);
                height_of(lengths.get(vertex).copied().unwrap_or(None), walk)
            }
        };
        if wanted != heights.get(k).copied() {
            return false;
        }
    }
    heights.len() == network.points().len()
}

/// The height of a vertex by the length of its shortest walk.
fn height_of(length: Option<i64>, walk: Walk) -> Option<i64> {
    let length = length?;
    match walk {
        Walk::Away => Some(length.wrapping_neg()),
        Walk::Back => Some(length),
    }
}
