//! The flows that are aimed at on links outside the tree, and how much more can flow there.
use crate::links::Link;
use crate::residual_arcs::ResidualArc;
use std::alloc::{AllocError, Global};

/// The flow that is aimed at on a link; 0 for a link of the tree, whose flow the tree has.
#[derive(Clone, Copy)]
pub struct Goal {
    pub flow: i32,
    /// The most that can flow, either way.
    pub weight: i32,
}

impl Goal {
    const NONE: Goal = Goal { flow: 0, weight: 0 };

    /// How much more can flow along the link, or against it.
    #[inline]
    pub fn room(self, is_forward: bool) -> Option<i32> {
        if is_forward {
            self.weight.checked_sub(self.flow)
        } else {
            self.weight.checked_add(self.flow)
        }
    }
}

/// The flows that are aimed at.
#[derive(Drop)]
pub struct Goals {
    rows: Vec<Goal>,
}

impl Goals {
    /// No flow, on so many links of weight 0.
    pub fn new(alloc: Global, links: usize) -> Result<Goals, AllocError> {
        let rows = vec![in alloc; Goal::NONE; links]?;
        Ok(Goals { rows })
    }

    /// No flow, on links with the weights of these.
    pub fn clear(&mut self, links: &[Link]) -> Option<()> {
        for (place, link) in links.iter().enumerate() {
            let weight = i32::try_from(link.weight).ok()?;
            *self.rows.get_mut(place)? = Goal { flow: 0, weight };
        }
        Some(())
    }

    /// The goal of an arc's link, `None` for an arc of no link.
    #[inline]
    pub fn at(&self, arc: ResidualArc) -> Option<Goal> {
        self.rows.get(arc.row()).copied()
    }

    /// The flow along a residual arc: that of its link, or the opposite.
    #[inline]
    pub fn along(&self, arc: ResidualArc) -> Option<i64> {
        let flow = i64::from(self.at(arc)?.flow);
        if arc.is_forward() {
            Some(flow)
        } else {
            flow.checked_neg()
        }
    }

    /// Sets the flow along a residual arc.
    #[inline]
    pub fn set(&mut self, arc: ResidualArc, flow: i64) -> Option<()> {
        let flow = i32::try_from(flow).ok()?;
        let flow = if arc.is_forward() {
            flow
        } else {
            flow.checked_neg()?
        };
        self.rows.get_mut(arc.row())?.flow = flow;
        Some(())
    }

    /// Sends so much more along a residual arc.
    #[inline]
    pub fn send(&mut self, arc: ResidualArc, more: i32) -> Option<()> {
        let goal = self.rows.get_mut(arc.row())?;
        goal.flow = if arc.is_forward() {
            goal.flow.checked_add(more)?
        } else {
            goal.flow.checked_sub(more)?
        };
        Some(())
    }

    /// Sets the flow of a link to the bound that gains most if a unit gains this much, and returns
    /// it.
    #[inline]
    pub fn fill(&mut self, place: usize, gained: i64) -> Option<i64> {
        let goal = self.rows.get_mut(place)?;
        goal.flow = if gained > 0 {
            goal.weight
        } else if gained < 0 {
            goal.weight.checked_neg()?
        } else {
            0
        };
        Some(i64::from(goal.flow))
    }
}
