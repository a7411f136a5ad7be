//! The search for a short path, by two balls that grow from its ends until they meet.
use crate::balls::Ball;
use crate::grounds::{Ground, Way};
use crate::parted::Parted;
use crate::reached::{Course, trace};
use std::alloc::{AllocError, Global};
use th_guide::ResidualArc;

/// Which paths a search looks for.
#[derive(Clone, Copy)]
pub struct Bounds {
    /// The first path that is found is taken if it is no longer than this.
    pub good: u64,
    /// No path is longer than this.
    pub far: u64,
    /// What each link counts more than its length.
    pub toll: u64,
    /// The balls grow so many times at most.
    pub steps: u32,
}

/// A search for a short path, from both of its ends.
#[derive(Drop)]
pub struct Search {
    out: Ball,
    into: Ball,
}

/// Where two balls meet.
#[derive(Clone, Copy)]
struct Meeting {
    vertex: u32,
    distance: u64,
}

impl Search {
    /// A search among so many vertices.
    pub fn new(alloc: Global, vertices: usize) -> Result<Search, AllocError> {
        Ok(Search {
            out: Ball::new(alloc, Way::Out, vertices)?,
            into: Ball::new(alloc, Way::In, vertices)?,
        })
    }

    /// Finds a path from one vertex to another, as far as it has room for arcs.
    pub fn run(
        &mut self,
        path: &mut Vec<ResidualArc>,
        network: &Parted,
        ends: (u32, u32),
        bounds: Bounds,
    ) -> Option<()> {
        let (from, to) = ends;
        let ground = network.ground(bounds.toll);
        self.out.clear();
        self.into.clear();
        self.out.begin(ground, from)?;
        self.into.begin(ground, to)?;
        let vertex = self.meet(ground, bounds)?;
        let course = Course {
            from,
            middle: vertex,
            to,
        };
        trace(path, ground, &self.out.reached, &self.into.reached, course)
    }

    /// How many vertices the last search reached.
    pub fn touched(&self) -> usize {
        self.out.count().saturating_add(self.into.count())
    }

    /// The vertex where the two balls meet.
    fn meet(&mut self, ground: Ground, bounds: Bounds) -> Option<u32> {
        let mut best: Option<Meeting> = None;
        for _ in 0..bounds.steps {
            let most = match best {
                Some(meeting) if meeting.distance <= bounds.good => break,
                Some(meeting) => bounds.far.min(meeting.distance),
                None => bounds.far,
            };
            let (Some(out), Some(into)) = (self.out.radius(), self.into.radius()) else {
                break;
            };
            if out.checked_add(into)? > most {
                break;
            }
            if let Some(meeting) = self.grow(ground)? {
                best = match best {
                    Some(other) if other.distance <= meeting.distance => Some(other),
                    _ => Some(meeting),
                };
            }
        }
        Some(best?.vertex)
    }

    /// Lets the ball with fewer vertices grow; returns where it meets the other.
    fn grow(&mut self, ground: Ground) -> Option<Option<Meeting>> {
        let grown = if self.out.count() <= self.into.count() {
            self.out.grow(ground)?
        } else {
            self.into.grow(ground)?
        };
        let Some(vertex) = grown else {
            return Some(None);
        };
        let (Some(one), Some(two)) = (
            self.out.reached.distance(vertex),
            self.into.reached.distance(vertex),
        ) else {
            return Some(None);
        };
        let distance = one.checked_add(two)?;
        Some(Some(Meeting { vertex, distance }))
    }
}
