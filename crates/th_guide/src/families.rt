//! The children of vertices, in doubly linked lists: a child is removed without a search.
use std::alloc::{AllocError, Global};

/// The first child of a vertex, and the children of its parent after and before it. No vertex is a
/// parent of vertex 0, so 0 stands for none.
#[derive(Clone, Copy)]
struct Family {
    first: u32,
    next: u32,
    previous: u32,
}

impl Family {
    const NONE: Family = Family {
        first: 0,
        next: 0,
        previous: 0,
    };
}

/// The children of each vertex of a tree, as lists from which any child can be removed.
#[derive(Drop)]
pub struct Families {
    rows: Vec<Family>,
}

impl Families {
    /// No vertex has a child.
    pub fn new(alloc: Global, vertices: u32) -> Result<Families, AllocError> {
        let rows = vec![in alloc; Family::NONE; vertices as usize]?;
        Ok(Families { rows })
    }

    /// No vertex has a child.
    pub fn clear(&mut self) {
        self.rows.fill(Family::NONE);
    }

    /// The first child of a vertex; 0 where it has none.
    #[inline]
    pub fn first(&self, vertex: u32) -> u32 {
        match self.rows.get(vertex as usize) {
            Some(row) => row.first,
            None => 0,
        }
    }

    /// The child of its parent that comes after a vertex; 0 where it is the last.
    #[inline]
    pub fn next(&self, vertex: u32) -> u32 {
        match self.rows.get(vertex as usize) {
            Some(row) => row.next,
            None => 0,
        }
    }

    /// Puts a vertex in front of the children of another.
    pub fn attach(&mut self, vertex: u32, parent: u32) {
        let first = self.first(parent);
        if let Some(row) = self.rows.get_mut(vertex as usize) {
            row.next = first;
            row.previous = 0;
        }
        self.set_previous(first, vertex);
        self.set_first(parent, vertex);
    }

    /// Takes a vertex from among the children of its parent.
    pub fn detach(&mut self, vertex: u32, parent: u32) {
        let Some(row) = self.rows.get(vertex as usize).copied() else {
            return;
        };
        if row.previous == 0 {
            self.set_first(parent, row.next);
        } else if let Some(previous) = self.rows.get_mut(row.previous as usize) {
            previous.next = row.next;
        }
        self.set_previous(row.next, row.previous);
    }

    #[inline]
    fn set_first(&mut self, vertex: u32, first: u32) {
        if let Some(row) = self.rows.get_mut(vertex as usize) {
            row.first = first;
        }
    }

    #[inline]
    fn set_previous(&mut self, vertex: u32, previous: u32) {
        if let Some(row) = self.rows.get_mut(vertex as usize) {
            row.previous = previous;
        }
    }
}
