//! The pricing rule: which arc enters the tree in the next pivot.
use crate::arcs::{Arc, Arcs};
use crate::trees::Tree;
use th_detours::Parted;
use th_guide::ResidualArc;

/// How many links of a vertex are priced first, if the arc that left last ends there.
const NEAR: usize = 64;

/// How many arcs of a block are priced together at least.
const LEAST_BLOCK: usize = 100;

/// The pricing rule. First come the links at the ends of the arc that left last: in loops and lines they are
/// nearly the only ones that gain. Then come blocks of arcs, up to the first with one that gains.
#[derive(Drop)]
pub(crate) struct Pricing {
    /// Where the next block begins.
    next: usize,
    /// How many arcs a block has.
    block: usize,
    /// The place of the arc that left last.
    left: usize,
}

/// An arc with room, and what a unit gains along it.
#[derive(Clone, Copy)]
pub(crate) struct Entering {
    /// The arc; that of no link if none gains.
    pub arc: ResidualArc,
    pub gain: i64,
}

impl Entering {
    const NONE: Entering = Entering {
        arc: ResidualArc::NONE,
        gain: 0,
    };

    /// Whether no arc gains.
    pub fn is_none(&self) -> bool {
        self.arc == ResidualArc::NONE
    }

    /// Takes the arc at a place, one way or the other, if it gains more.
    #[inline]
    fn price(&mut self, tree: &Tree, place: usize, row: &Arc) -> Option<()> {
        let gain = gain_of(tree, row)?;
        if gain > self.gain && row.ahead > 0 {
            self.arc = ResidualArc::along(u32::try_from(place).ok()?)?;
            self.gain = gain;
        } else if gain < 0 && row.back > 0 {
            let back = gain.checked_neg()?;
            if back > self.gain {
                self.arc = ResidualArc::along(u32::try_from(place).ok()?)?.reversed();
                self.gain = back;
            }
        }
        Some(())
    }
}

impl Pricing {
    /// Begins with the first arc of so many.
    pub fn new(arcs: usize) -> Pricing {
        let root = (arcs as u64).isqrt();
        Pricing {
            next: 0,
            block: usize::try_from(root)
                .unwrap_or(LEAST_BLOCK)
                .max(LEAST_BLOCK),
            left: usize::MAX,
        }
    }

    /// Begins with the arc at a place, as if it had left.
    pub fn begin(&mut self, place: usize) {
        self.next = place;
        self.left = place;
    }

    /// Notes which arc left.
    pub fn leave(&mut self, arc: ResidualArc) {
        self.left = arc.row();
    }

    /// The arc that enters next.
    pub fn entering(&mut self, network: &Parted, arcs: &Arcs, tree: &Tree) -> Option<Entering> {
        let best = self.near(network, arcs, tree)?;
        if !best.is_none() {
            return Some(best);
        }
        self.in_blocks(arcs, tree)
    }

    /// The arc that gains most at the ends of the one that left.
    fn near(&self, network: &Parted, arcs: &Arcs, tree: &Tree) -> Option<Entering> {
        let mut best = Entering::NONE;
        let Some(link) = network.links().get(self.left) else {
            return Some(best);
        };
        for vertex in [link.tail, link.head] {
            for side in network.sides_of(vertex)?.iter().take(NEAR) {
                let place = side.arc.row();
                best.price(tree, place, arcs.rows().get(place)?)?;
            }
        }
        Some(best)
    }

    /// The arc that gains most in the first block with one that gains. A block ends with the last arc.
    fn in_blocks(&mut self, arcs: &Arcs, tree: &Tree) -> Option<Entering> {
        let rows = arcs.rows();
        let mut best = Entering::NONE;
        let mut left = rows.len();
        for _ in 0..rows.len() {
            if left == 0 || !best.is_none() {
                break;
            }
            let start = if self.next < rows.len() { self.next } else { 0 };
            let end = start.saturating_add(self.block.min(left)).min(rows.len());
            for (place, row) in (start..end).zip(rows.get(start..end)?) {
                best.price(tree, place, row)?;
            }
            left = left.checked_sub(end.checked_sub(start)?)?;
            self.next = end;
        }
        Some(best)
    }
}

/// What a unit gains along an arc, by the heights of the tree: less than nothing if it gains the other way.
#[inline]
pub(crate) fn gain_of(tree: &Tree, row: &Arc) -> Option<i64> {
    let rise = tree
        .node(row.head)?
        .height
        .checked_sub(tree.node(row.tail)?.height)?;
    row.difference.checked_sub(rise)
}
