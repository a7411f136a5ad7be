//! Flow that is still to be sent, taken apart cycle by cycle.
use crate::goals::Goals;
use crate::links::Link;
use crate::residual_arcs::ResidualArc;
use crate::rows::push_if_room;
use crate::sides::{Side, Sides};
use std::alloc::{AllocError, Global};

/// Among how many ways out of a vertex the next one is chosen.
const NEAR: u32 = 8;

/// What is still to flow, and the cycles into which it is taken apart (the flow decomposition theorem).
///
/// The ways out of a vertex are kept in front of its sides, which nobody needs then: the rise of each is
/// the amount that is still to flow by it. All vertices balance, so that a walk along ways ends only where
/// it closes a cycle.
#[derive(Drop)]
pub(crate) struct Cycles {
    /// Where the ways out of each vertex end, among all sides.
    ends: Vec<u32>,
    /// For each vertex the step of the walk, from 1, that leaves it; 0 where none does.
    steps: Vec<u32>,
    /// The ways of the walk, by their places among all sides.
    walk: Vec<u32>,
    /// Where the walk is, and where it began.
    here: u32,
    begin: u32,
    /// The last cycle.
    pub cycle: Vec<ResidualArc>,
}

impl Cycles {
    /// Rows for so many vertices.
    pub fn new(alloc: Global, vertices: u32) -> Result<Cycles, AllocError> {
        Ok(Cycles {
            ends: vec![in alloc; 0u32; vertices as usize]?,
            steps: vec![in alloc; 0u32; vertices as usize]?,
            walk: Vec::with_capacity(alloc, vertices as usize)?,
            here: 0,
            begin: 0,
            cycle: Vec::with_capacity(alloc, vertices as usize)?,
        })
    }

    /// Begins with what these goals are above the links' flows.
    pub fn start(&mut self, links: &[Link], goals: &Goals, sides: &mut Sides) -> Option<()> {
        self.clear(sides)?;
        for (place, link) in links.iter().enumerate() {
            let along = ResidualArc::along(u32::try_from(place).ok()?)?;
            let more = goals.along(along)?.checked_sub(link.flow)?;
            if more > 0 {
                self.add_way(sides, link.tail, link.head, along, more)?;
            } else if more < 0 {
                let back = more.checked_neg()?;
                self.add_way(sides, link.head, link.tail, along.reversed(), back)?;
            }
        }
        Some(())
    }

    /// No ways, and a walk that begins at vertex 0.
    fn clear(&mut self, sides: &Sides) -> Option<()> {
        for (vertex, end) in self.ends.iter_mut().enumerate() {
            *end = sides.start(u32::try_from(vertex).ok()?)?;
        }
        self.steps.fill(0);
        self.walk.clear();
        self.here = 0;
        self.begin = 0;
        Some(())
    }

    fn add_way(
        &mut self,
        sides: &mut Sides,
        vertex: u32,
        other: u32,
        arc: ResidualArc,
        amount: i64,
    ) -> Option<()> {
        let end = self.ends.get_mut(vertex as usize)?;
        let place = *end;
        *end = end.checked_add(1)?;
        sides.set(
            place,
            Side {
                other,
                arc,
                rise: amount,
            },
        )
    }

    /// Walks on to the next cycle, and removes from it as much as can flow all round. Returns that
    /// amount, or `None` if nothing is left.
    pub fn next(&mut self, sides: &mut Sides) -> Option<u32> {
        for _ in 0..self.ends.len() {
            for _ in 0..2 {
                let start = sides.start(self.here)?;
                let end = self.ends.get(self.here as usize).copied()?;
                if start == end {
                    self.begin_again()?;
                } else {
                    self.walk_on(sides, start, end)?;
                    if self.step(self.here)? != 0 {
                        return self.close(sides);
                    }
                }
            }
        }
        None
    }

    #[inline]
    fn step(&self, vertex: u32) -> Option<u32> {
        self.steps.get(vertex as usize).copied()
    }

    /// Begins a walk where there may be ways.
    fn begin_again(&mut self) -> Option<()> {
        if !self.walk.is_empty() {
            return None;
        }
        if self.here == self.begin {
            self.begin = self.begin.checked_add(1)?;
        }
        self.here = self.begin;
        Some(())
    }

    /// Goes by one of the last ways out of a vertex: the one that leads back least far on the walk.
    fn walk_on(&mut self, sides: &Sides, start: u32, end: u32) -> Option<()> {
        let from = start.max(end.saturating_sub(NEAR));
        let mut chosen = end.checked_sub(1)?;
        let mut nearest = 0u32;
        for way in (from..end).rev() {
            let step = self.step(sides.at(way)?.other)?;
            if step > nearest {
                nearest = step;
                chosen = way;
            }
        }
        push_if_room(&mut self.walk, chosen)?;
        let length = u32::try_from(self.walk.len()).ok()?;
        *self.steps.get_mut(self.here as usize)? = length;
        self.here = sides.at(chosen)?.other;
        Some(())
    }

    /// Takes the cycle from the walk that has closed, and what is to flow all round it.
    fn close(&mut self, sides: &mut Sides) -> Option<u32> {
        let from = self.step(self.here)?.checked_sub(1)? as usize;
        let mut least = i64::MAX;
        self.cycle.clear();
        for way in self.walk.iter().skip(from) {
            let side = sides.at(*way)?;
            least = least.min(side.rise);
            push_if_room(&mut self.cycle, side.arc)?;
        }
        self.take(sides, from, least)?;
        u32::try_from(least).ok()
    }

    /// What a unit of flow round the last cycle gains.
    pub fn gain(&self, links: &[Link]) -> Option<i64> {
        let mut gain = 0i64;
        for arc in &self.cycle {
            let difference = links.get(arc.row())?.difference;
            gain = if arc.is_forward() {
                gain.checked_add(difference)?
            } else {
                gain.checked_sub(difference)?
            };
        }
        Some(gain)
    }

    /// Takes an amount from all ways of the walk from a place on. The walk is kept up to the first way that
    /// is used up.
    fn take(&mut self, sides: &mut Sides, from: usize, amount: i64) -> Option<()> {
        let mut kept = self.walk.len();
        let mut vertex = self.here;
        for place in from..self.walk.len() {
            let way = self.walk.get(place).copied()?;
            let side = sides.at(way)?;
            let rise = side.rise.checked_sub(amount)?;
            if rise == 0 {
                self.remove_way(sides, vertex, way)?;
                if kept == self.walk.len() {
                    kept = place;
                    self.here = vertex;
                }
            } else {
                sides.set(way, Side { rise, ..side })?;
            }
            if kept < self.walk.len() {
                *self.steps.get_mut(vertex as usize)? = 0;
            }
            vertex = side.other;
        }
        self.walk.truncate(kept);
        Some(())
    }

    /// Puts the last way out of a vertex in the place of one that is used up.
    fn remove_way(&mut self, sides: &mut Sides, vertex: u32, way: u32) -> Option<()> {
        let end = self.ends.get_mut(vertex as usize)?;
        *end = end.checked_sub(1)?;
        let last = sides.at(*end)?;
        sides.set(way, last)
    }
}
