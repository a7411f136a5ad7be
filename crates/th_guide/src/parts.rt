//! The vertices that a pivot moves: a branch of the tree, or all that are not in it.
use crate::families::Families;
use crate::heights::Heights;
use crate::rows::push_if_room;
use std::alloc::{AllocError, Global};

/// The part of a tree that a pivot moves against the rest.
#[derive(Drop)]
pub struct Part {
    /// Its vertices, each behind its parent.
    pub vertices: Vec<u32>,
    /// Its number, which its vertices have as that of their last part.
    pub number: u32,
}

impl Part {
    /// No part yet, of at most so many vertices.
    pub fn new(alloc: Global, vertices: u32) -> Result<Part, AllocError> {
        let vertices = Vec::with_capacity(alloc, vertices as usize)?;
        Ok(Part {
            vertices,
            number: 0,
        })
    }

    /// Begins to number parts anew.
    pub fn clear(&mut self) {
        self.vertices.clear();
        self.number = 0;
    }

    /// Takes the branch of a vertex.
    pub fn gather_branch(
        &mut self,
        families: &Families,
        heights: &mut Heights,
        top: u32,
    ) -> Option<()> {
        // Vertex 0 is no child, so no branch is left out.
        self.gather(families, heights, top, 0)
    }

    /// Takes all that is not in the branch of a vertex.
    pub fn gather_rest(
        &mut self,
        families: &Families,
        heights: &mut Heights,
        top: u32,
    ) -> Option<()> {
        self.gather(families, heights, 0, top)
    }

    fn gather(
        &mut self,
        families: &Families,
        heights: &mut Heights,
        top: u32,
        except: u32,
    ) -> Option<()> {
        self.number = self.number.checked_add(1)?;
        self.vertices.clear();
        self.take(heights, top)?;
        for place in 0..self.vertices.capacity() {
            let Some(parent) = self.vertices.get(place).copied() else {
                return Some(());
            };
            self.take_children(families, heights, parent, except)?;
        }
        Some(())
    }

    fn take_children(
        &mut self,
        families: &Families,
        heights: &mut Heights,
        parent: u32,
        except: u32,
    ) -> Option<()> {
        let mut child = families.first(parent);
        for _ in 0..self.vertices.capacity() {
            if child == 0 {
                return Some(());
            }
            if child != except {
                self.take(heights, child)?;
            }
            child = families.next(child);
        }
        None
    }

    #[inline]
    fn take(&mut self, heights: &mut Heights, vertex: u32) -> Option<()> {
        heights.at_mut(vertex)?.part = self.number;
        push_if_room(&mut self.vertices, vertex)
    }

    /// Raises all its vertices by a rise.
    pub fn raise(&self, heights: &mut Heights, rise: i64) -> Option<()> {
        for vertex in &self.vertices {
            let row = heights.at_mut(*vertex)?;
            row.height = row.height.checked_add(rise)?;
        }
        Some(())
    }
}
