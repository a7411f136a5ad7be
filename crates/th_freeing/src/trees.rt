//! The spanning tree, with the heights of its vertices, and how a pivot exchanges an arc of it.
use crate::arcs::Arcs;
use std::alloc::{AllocError, Global};
use th_guide::{ResidualArc, push_if_room};

/// A vertex of the tree. The root is vertex 0, which is nobody's child, so 0 stands for no child.
#[derive(Clone, Copy)]
pub(crate) struct Node {
    pub parent: u32,
    /// The residual arc up to the parent; that of no link for the root, and for what is not in the tree.
    pub up: ResidualArc,
    /// How many arcs up the root is.
    pub depth: u32,
    /// The first child, and the children of the parent after and before this one.
    child: u32,
    after: u32,
    before: u32,
    /// The height of the vertex, its potential.
    pub height: i64,
}

impl Node {
    const NONE: Node = Node {
        parent: 0,
        up: ResidualArc::NONE,
        depth: 0,
        child: 0,
        after: 0,
        before: 0,
        height: 0,
    };
}

/// The way up from a vertex.
#[derive(Clone, Copy)]
pub(crate) struct WayUp {
    pub parent: u32,
    pub arc: ResidualArc,
}

/// A spanning tree from vertex 0.
#[derive(Drop)]
pub(crate) struct Tree {
    nodes: Vec<Node>,
    /// Vertices of a branch that are still to be looked at.
    open: Vec<u32>,
}

impl Tree {
    /// Vertex 0 alone, of so many.
    pub fn new(alloc: Global, vertices: usize) -> Result<Tree, AllocError> {
        Ok(Tree {
            nodes: vec![in alloc; Node::NONE; vertices]?,
            open: Vec::with_capacity(alloc, vertices)?,
        })
    }

    /// Takes all vertices out of the tree but vertex 0.
    pub fn clear(&mut self) {
        self.nodes.fill(Node::NONE);
    }

    /// The vertices.
    pub fn nodes(&self) -> &[Node] {
        &self.nodes
    }

    /// The node of a vertex, `None` behind the last.
    #[inline]
    pub fn node(&self, vertex: u32) -> Option<&Node> {
        self.nodes.get(vertex as usize)
    }

    #[inline]
    fn node_mut(&mut self, vertex: u32) -> Option<&mut Node> {
        self.nodes.get_mut(vertex as usize)
    }

    /// Whether a vertex is in the tree.
    pub fn has(&self, vertex: u32) -> bool {
        vertex == 0
            || self
                .node(vertex)
                .is_some_and(|node| node.up != ResidualArc::NONE)
    }

    /// Plants a vertex below another by the residual arc that leads up, at the height at which that is tight.
    pub fn plant(&mut self, arcs: &Arcs, vertex: u32, parent: u32, up: ResidualArc) -> Option<()> {
        let above = self.node(parent)?;
        let depth = above.depth.checked_add(1)?;
        let height = above.height.checked_sub(arcs.difference(up)?)?;
        let node = self.node_mut(vertex)?;
        node.depth = depth;
        node.height = height;
        self.attach(vertex, parent, up)
    }

    /// Where the ways up from two vertices meet.
    pub fn join(&self, one: u32, other: u32) -> Option<u32> {
        let mut one = one;
        let mut other = other;
        for _ in 0..self.nodes.len() {
            for _ in 0..2 {
                if one == other {
                    return Some(one);
                }
                let left = self.node(one)?;
                let right = self.node(other)?;
                if left.depth >= right.depth {
                    one = left.parent;
                } else {
                    other = right.parent;
                }
            }
        }
        None
    }

    /// Hangs the branch of `top` up by another way, from its vertex `inner`: what led from there up to the top leads
    /// down afterwards.
    pub fn exchange(&mut self, arcs: &Arcs, top: u32, inner: u32, way: WayUp) -> Option<()> {
        let above = self.node(way.parent)?.height;
        let height = above.checked_sub(arcs.difference(way.arc)?)?;
        let rise = height.checked_sub(self.node(inner)?.height)?;
        self.turn_round(top, inner, way)?;
        self.raise(inner, rise)
    }

    /// Turns round what leads from `inner` up to `top`.
    fn turn_round(&mut self, top: u32, inner: u32, way: WayUp) -> Option<()> {
        let mut vertex = inner;
        let mut way = way;
        for _ in 0..self.nodes.len() {
            let old = *self.node(vertex)?;
            self.detach(vertex)?;
            self.attach(vertex, way.parent, way.arc)?;
            if vertex == top {
                return Some(());
            }
            way = WayUp {
                parent: vertex,
                arc: old.up.reversed(),
            };
            vertex = old.parent;
        }
        None
    }

    /// Raises the branch of a vertex, and counts anew how far the root is.
    pub fn raise(&mut self, top: u32, rise: i64) -> Option<()> {
        self.open.clear();
        push_if_room(&mut self.open, top)?;
        for _ in 0..self.nodes.len() {
            let Some(vertex) = self.open.pop() else {
                return Some(());
            };
            let depth = self.node(self.node(vertex)?.parent)?.depth.checked_add(1)?;
            let node = self.node_mut(vertex)?;
            node.depth = depth;
            node.height = node.height.checked_add(rise)?;
            let child = node.child;
            self.open_children(child)?;
        }
        Some(())
    }

    /// Opens a child of a vertex, and those after it.
    fn open_children(&mut self, child: u32) -> Option<()> {
        let mut child = child;
        for _ in 0..self.nodes.len() {
            if child == 0 {
                break;
            }
            push_if_room(&mut self.open, child)?;
            child = self.node(child)?.after;
        }
        Some(())
    }

    /// Puts a vertex in front of the children of a parent.
    fn attach(&mut self, vertex: u32, parent: u32, up: ResidualArc) -> Option<()> {
        let above = self.node_mut(parent)?;
        let after = above.child;
        above.child = vertex;
        let node = self.node_mut(vertex)?;
        node.parent = parent;
        node.up = up;
        node.before = 0;
        node.after = after;
        if after != 0 {
            self.node_mut(after)?.before = vertex;
        }
        Some(())
    }

    /// Takes a vertex from among the children of its parent.
    fn detach(&mut self, vertex: u32) -> Option<()> {
        let Node {
            parent,
            after,
            before,
            ..
        } = *self.node(vertex)?;
        if before == 0 {
            self.node_mut(parent)?.child = after;
        } else {
            self.node_mut(before)?.after = after;
        }
        if after != 0 {
            self.node_mut(after)?.before = before;
        }
        Some(())
    }
}
