//! What all searches go by: links, sides, the parted ends, and which way flow goes.
use crate::groups::Ends;
use crate::links::Link;
use crate::sides::{Side, Sides};
use th_guide::ResidualArc;

/// Which way flow goes from the vertex that a search begins at.
#[derive(Clone, Copy, PartialEq, Eq)]
pub(crate) enum Way {
    /// From it.
    Out,
    /// To it.
    In,
}

impl Way {
    /// The arc along which flow goes, where a search goes along another.
    #[inline]
    pub fn along(self, arc: ResidualArc) -> ResidualArc {
        match self {
            Way::Out => arc,
            Way::In => arc.reversed(),
        }
    }

    /// How much flow rises from a height here and one there, or from there to here.
    #[inline]
    pub fn rise(self, here: i64, there: i64) -> Option<i64> {
        match self {
            Way::Out => there.checked_sub(here),
            Way::In => here.checked_sub(there),
        }
    }
}

/// What a search goes by.
#[derive(Clone, Copy)]
pub(crate) struct Ground<'a> {
    pub links: &'a [Link],
    pub sides: &'a Sides,
    /// The ends that are parted from their vertex.
    pub ends: &'a Ends,
    /// The vertex from which they are parted, and the one that has them instead.
    pub base: u32,
    pub spare: u32,
    /// The sides of the spare vertex; if there are none here, they are among those of the base.
    pub own: &'a [Side],
    /// What each link counts more than its length.
    pub toll: u64,
}

impl Ground<'_> {
    /// The sides from among which those of a vertex are.
    #[inline]
    pub fn sides(&self, vertex: u32) -> Option<&[Side]> {
        if vertex != self.spare {
            return self.sides.of(vertex);
        }
        if self.own.is_empty() {
            return self.sides.of(self.base);
        }
        Some(self.own)
    }

    /// The vertex that an arc leaves.
    pub fn start(&self, arc: ResidualArc) -> Option<u32> {
        if self.ends.has(arc) {
            return Some(self.spare);
        }
        let link = self.links.get(arc.row())?;
        Some(if arc.is_forward() {
            link.tail
        } else {
            link.head
        })
    }

    /// Where a side of a vertex leads, if it is the vertex's own and has room.
    #[inline]
    pub fn other(&self, way: Way, vertex: u32, side: &Side) -> Option<u32> {
        let is_spare = vertex == self.spare;
        if (is_spare || vertex == self.base) && self.ends.has(side.arc) != is_spare {
            return None;
        }
        let link = self.links.get(side.arc.row())?;
        if link.room(way.along(side.arc))? == 0 {
            return None;
        }
        if side.other == self.base && self.ends.has(side.arc.reversed()) {
            Some(self.spare)
        } else {
            Some(side.other)
        }
    }
}
