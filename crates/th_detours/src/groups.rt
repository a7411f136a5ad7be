//! Which ends of links a number has: the tails of a range of links, or ends that were marked.
use std::alloc::{AllocError, Global};
use th_guide::ResidualArc;

/// An end of a link.
#[derive(Clone, Copy, PartialEq, Eq)]
pub enum End {
    Tail,
    Head,
}

/// Which ends of links a number has.
#[derive(Clone, Copy)]
pub enum Group {
    /// The tails of the links from a place up to another, without the second.
    Tails { start: usize, end: usize },
    /// The ends that were marked.
    Marked,
}

/// The ends that a number has.
#[derive(Drop)]
pub(crate) struct Ends {
    pub group: Group,
    marks: Vec<Option<End>>,
}

impl Ends {
    /// None, of so many links.
    pub fn new(alloc: Global, links: usize) -> Result<Ends, AllocError> {
        Ok(Ends {
            group: Group::Marked,
            marks: vec![in alloc; None; links]?,
        })
    }

    /// Marks an end of the link at a place, and unmarks its other one.
    pub fn mark(&mut self, place: usize, end: Option<End>) {
        if let Some(mark) = self.marks.get_mut(place) {
            *mark = end;
        }
    }

    /// Whether the number has the end that an arc leaves.
    #[inline]
    pub fn has(&self, arc: ResidualArc) -> bool {
        match self.group {
            Group::Tails { start, end } => {
                arc.is_forward() && start <= arc.row() && arc.row() < end
            }
            Group::Marked => {
                let own = if arc.is_forward() {
                    End::Tail
                } else {
                    End::Head
                };
                self.marks.get(arc.row()).copied() == Some(Some(own))
            }
        }
    }
}
