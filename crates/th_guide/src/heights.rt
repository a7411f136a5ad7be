//! The heights of vertices, which are their potentials, and what a unit of flow gains by them.
use crate::links::Link;
use crate::scales::MOST_APART;
use std::alloc::{AllocError, Global};

/// How far a vertex is known.
#[derive(Clone, Copy, PartialEq, Eq)]
pub enum Stage {
    /// No side was found that leads to it.
    Unseen,
    /// It waits for its height.
    Queued,
    /// It has a height, and a place in the tree.
    Planted,
}

/// What the line search reads of a vertex.
#[derive(Clone, Copy)]
pub struct Vertex {
    /// Its height, by the scale that is used.
    pub height: i64,
    /// The number of the last part that it was in.
    pub part: u32,
    pub stage: Stage,
}

impl Vertex {
    const UNSEEN: Vertex = Vertex {
        height: 0,
        part: 0,
        stage: Stage::Unseen,
    };
}

/// The heights of vertices: their potentials.
#[derive(Drop)]
pub struct Heights {
    rows: Vec<Vertex>,
}

impl Heights {
    /// Each vertex at height 0, and unseen.
    pub fn new(alloc: Global, vertices: u32) -> Result<Heights, AllocError> {
        let rows = vec![in alloc; Vertex::UNSEEN; vertices as usize]?;
        Ok(Heights { rows })
    }

    /// Each vertex at height 0, and unseen.
    pub fn clear(&mut self) {
        self.rows.fill(Vertex::UNSEEN);
    }

    /// How many vertices there are.
    pub fn count(&self) -> u32 {
        u32::try_from(self.rows.len()).unwrap_or(u32::MAX)
    }

    /// The state of a vertex, `None` behind the last.
    #[inline]
    pub fn at(&self, vertex: u32) -> Option<Vertex> {
        self.rows.get(vertex as usize).copied()
    }

    /// The state of a vertex, to be changed, `None` behind the last.
    #[inline]
    pub fn at_mut(&mut self, vertex: u32) -> Option<&mut Vertex> {
        self.rows.get_mut(vertex as usize)
    }

    /// Moves all heights so that vertex 0 is at 0 again, where it is too far from there.
    pub fn settle_down(&mut self) -> Option<()> {
        let level = self.rows.first()?.height;
        if level.checked_abs()? <= MOST_APART {
            return Some(());
        }
        for row in self.rows.iter_mut() {
            if row.stage == Stage::Planted {
                row.height = row.height.checked_sub(level)?;
            }
        }
        Some(())
    }

    /// A link's difference, less the height of its head above its tail: what a unit of flow along it
    /// gains, by these heights. (The reduced cost of its residual arc backwards.)
    #[inline]
    pub fn reduced(&self, link: &Link, difference: i64) -> Option<i64> {
        let tail = self.at(link.tail)?;
        let head = self.at(link.head)?;
        difference.checked_sub(head.height.checked_sub(tail.height)?)
    }
}
