//! The ways up a spanning tree with their flows, and how a pivot exchanges an arc.
use crate::families::Families;
use crate::residual_arcs::ResidualArc;
use std::alloc::{AllocError, Global};

/// The arc of the tree from a vertex up to its parent.
#[derive(Clone, Copy)]
pub struct Up {
    pub parent: u32,
    /// The residual arc that leads up.
    pub arc: ResidualArc,
    /// How many sides the vertices of the branch have: the vertex, and all below it.
    pub size: u32,
    /// The weight of the arc's link.
    pub weight: u32,
    /// What flows up.
    pub flow: i64,
}

impl Up {
    /// That of vertex 0, which leads nowhere.
    pub const NONE: Up = Up {
        parent: 0,
        arc: ResidualArc::NONE,
        size: 0,
        weight: 0,
        flow: 0,
    };
}

/// A spanning tree whose root is vertex 0, with the flows on it.
#[derive(Drop)]
pub struct Tree {
    ups: Vec<Up>,
    pub families: Families,
}

impl Tree {
    /// No vertex is in the tree but vertex 0.
    pub fn new(alloc: Global, vertices: u32) -> Result<Tree, AllocError> {
        let ups = vec![in alloc; Up::NONE; vertices as usize]?;
        let families = Families::new(alloc, vertices)?;
        Ok(Tree { ups, families })
    }

    /// No vertex is in the tree but vertex 0.
    pub fn clear(&mut self) {
        self.ups.fill(Up::NONE);
        self.families.clear();
    }

    /// The way up from each vertex, that of vertex 0 first.
    #[inline]
    pub fn ups(&self) -> &[Up] {
        &self.ups
    }

    /// The way up from a vertex, `None` behind the last.
    #[inline]
    pub fn up(&self, vertex: u32) -> Option<Up> {
        self.ups.get(vertex as usize).copied()
    }

    #[inline]
    fn up_mut(&mut self, vertex: u32) -> Option<&mut Up> {
        self.ups.get_mut(vertex as usize)
    }

    /// Hangs a vertex below the parent that the way up leads to.
    #[inline]
    pub fn attach(&mut self, vertex: u32, up: Up) -> Option<()> {
        *self.up_mut(vertex)? = up;
        self.families.attach(vertex, up.parent);
        Some(())
    }

    /// Begins to sum up: a branch of so many sides, and no flow.
    #[inline]
    pub fn reset(&mut self, vertex: u32, size: u32) -> Option<()> {
        let up = self.up_mut(vertex)?;
        up.size = size;
        up.flow = 0;
        Some(())
    }

    /// So much more arrives at a vertex, and goes on up.
    #[inline]
    pub fn arrive(&mut self, vertex: u32, more: i64) -> Option<()> {
        let up = self.up_mut(vertex)?;
        up.flow = up.flow.checked_add(more)?;
        Some(())
    }

    /// Adds the flow and the size of a vertex's branch to those of its parent.
    #[inline]
    pub fn add_to_parent(&mut self, vertex: u32) -> Option<()> {
        let up = self.up(vertex)?;
        let parent = self.up_mut(up.parent)?;
        parent.flow = parent.flow.checked_add(up.flow)?;
        parent.size = parent.size.checked_add(up.size)?;
        Some(())
    }

    /// Sends `more` from vertex `tail` to vertex `head` along an arc outside the tree, and back
    /// through the tree. Returns the join, where the ways up from both meet.
    pub fn send_round(&mut self, tail: u32, head: u32, more: i64) -> Option<u32> {
        let mut tail = tail;
        let mut head = head;
        for _ in 0..self.ups.len() {
            for _ in 0..2 {
                if tail == head {
                    return Some(tail);
                }
                if self.up(tail)?.size < self.up(head)?.size {
                    tail = self.send_up(tail, more.checked_neg()?)?;
                } else {
                    head = self.send_up(head, more)?;
                }
            }
        }
        None
    }

    /// Sends `more` from a vertex to its parent, and returns the parent.
    #[inline]
    fn send_up(&mut self, vertex: u32, more: i64) -> Option<u32> {
        let up = self.up_mut(vertex)?;
        up.flow = up.flow.checked_add(more)?;
        Some(up.parent)
    }

    /// Hangs the branch of `top` below another vertex, from its vertex `inner`, by this way up: what led
    /// from there up to the top leads down afterwards. `join` is where both ways up meet.
    pub fn exchange(&mut self, top: u32, inner: u32, entering: Up, join: u32) -> Option<()> {
        let old = self.up(top)?;
        self.shrink_up(old.parent, join, old.size)?;
        self.grow_up(entering.parent, join, old.size)?;
        self.turn_round(top, inner, entering)
    }

    /// Takes from the sizes from a vertex up to below another.
    fn shrink_up(&mut self, from: u32, to: u32, size: u32) -> Option<()> {
        let mut vertex = from;
        for _ in 0..self.ups.len() {
            if vertex == to {
                return Some(());
            }
            let up = self.up_mut(vertex)?;
            up.size = up.size.checked_sub(size)?;
            vertex = up.parent;
        }
        None
    }

    /// Adds to the sizes from a vertex up to below another.
    fn grow_up(&mut self, from: u32, to: u32, size: u32) -> Option<()> {
        let mut vertex = from;
        for _ in 0..self.ups.len() {
            if vertex == to {
                return Some(());
            }
            let up = self.up_mut(vertex)?;
            up.size = up.size.checked_add(size)?;
            vertex = up.parent;
        }
        None
    }

    /// Turns round what leads from `inner` up to `top`, and hangs `inner` up by this way.
    fn turn_round(&mut self, top: u32, inner: u32, entering: Up) -> Option<()> {
        let mut vertex = inner;
        let mut set = entering;
        for _ in 0..self.ups.len() {
            let old = self.up(vertex)?;
            self.families.detach(vertex, old.parent);
            self.attach(vertex, set)?;
            if vertex == top {
                return Some(());
            }
            set = Up {
                parent: vertex,
                arc: old.arc.reversed(),
                size: entering.size.checked_sub(old.size)?,
                weight: old.weight,
                flow: old.flow.checked_neg()?,
            };
            vertex = old.parent;
        }
        None
    }
}
