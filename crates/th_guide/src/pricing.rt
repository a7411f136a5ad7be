//! Which way up leaves the tree in the next pivot, chosen block by block.
use crate::trees::{Tree, Up};

/// How many vertices, one after another, are priced together.
const BLOCK: usize = 128;

/// Excesses above this are not told apart, so that squares of them can be multiplied.
const MOST_EXCESS: u64 = 1 << 22;

/// The pricing rule: among a block of vertices, the one whose flow up is above the weight by most.
///
/// An excess counts squared, for each side that its pivot would look at: about as much as a pivot gains
/// for what it costs.
#[derive(Drop)]
pub(crate) struct Pricing {
    /// The vertex that was priced last.
    last: usize,
}

/// The best vertex so far.
#[derive(Clone, Copy)]
struct Best {
    /// Vertex 0, which has no way up, stands for none.
    vertex: u32,
    /// Its excess squared, and for how many sides.
    square: u64,
    sides: u64,
}

impl Best {
    const NONE: Best = Best {
        vertex: 0,
        square: 0,
        sides: 1,
    };

    /// Takes a vertex with this way up, if it is better.
    #[inline]
    fn price(&mut self, place: usize, up: &Up, total: u32) -> Option<()> {
        let excess = up
            .flow
            .unsigned_abs()
            .saturating_sub(u64::from(up.weight))
            .min(MOST_EXCESS);
        if excess == 0 {
            return Some(());
        }
        let square = excess.checked_mul(excess)?;
        let sides = u64::from(up.size.min(total.checked_sub(up.size)?));
        if square.checked_mul(self.sides)? > self.square.checked_mul(sides)? {
            self.vertex = u32::try_from(place).ok()?;
            self.square = square;
            self.sides = sides;
        }
        Some(())
    }
}

impl Pricing {
    /// Begins behind vertex 0.
    pub fn new() -> Pricing {
        Pricing { last: 0 }
    }

    /// Begins behind vertex 0.
    pub fn clear(&mut self) {
        self.last = 0;
    }

    /// The vertex whose way up is to leave the tree, in the first block that has one; 0 where none has.
    pub fn leaving(&mut self, tree: &Tree) -> Option<u32> {
        let ups = tree.ups();
        let total = ups.first()?.size;
        let mut best = Best::NONE;
        let mut left_in_block = BLOCK;
        for _ in 0..ups.len() {
            let next = self.last.checked_add(1)?;
            self.last = if next < ups.len() { next } else { 0 };
            best.price(self.last, ups.get(self.last)?, total)?;
            left_in_block = left_in_block.checked_sub(1)?;
            if left_in_block == 0 {
                if best.vertex != 0 {
                    return Some(best.vertex);
                }
                left_in_block = BLOCK;
            }
        }
        Some(best.vertex)
    }
}
