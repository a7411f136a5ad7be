//! The flows and heights that are proposed.
use crate::basis::Basis;
use crate::nets::Net;
use crate::tasks::Found;
use std::alloc::{AllocError, Global};
use th_detours::{Lifting, Parted};
use th_guide::ResidualArc;

/// The flows and heights of the last answer.
#[derive(Drop)]
pub(crate) struct Proposal {
    pub flows: Vec<i64>,
    /// Flows whose net has the sign of the need, and the other.
    pub before: Vec<i64>,
    pub behind: Vec<i64>,
    /// Heights of the vertices and the spare one, at which those flows are best.
    pub near: Vec<i64>,
    pub far: Vec<i64>,
    lifting: Lifting,
    path: Vec<ResidualArc>,
    heights: Vec<i64>,
}

impl Proposal {
    /// For so many vertices, with the spare one, and links.
    pub fn new(alloc: Global, vertices: usize, links: usize) -> Result<Proposal, AllocError> {
        Ok(Proposal {
            flows: vec![in alloc; 0i64; links]?,
            before: vec![in alloc; 0i64; links]?,
            behind: vec![in alloc; 0i64; links]?,
            near: vec![in alloc; 0i64; vertices]?,
            far: vec![in alloc; 0i64; vertices]?,
            lifting: Lifting::new(alloc, vertices, links)?,
            path: Vec::with_capacity(alloc, vertices.saturating_mul(2))?,
            heights: vec![in alloc; 0i64; vertices]?,
        })
    }

    /// Proposes the flows of a basis.
    pub fn tell_flows(&mut self, network: &Parted, basis: &Basis) -> Option<()> {
        basis.arcs.write_flows(network, &mut self.flows)
    }

    /// Proposes its heights as the near ones.
    pub fn tell_heights(&mut self, basis: &Basis) {
        write_heights(basis, &mut self.near);
    }

    /// Proposes what frees a number, from the best flows without net and heights at which they are best.
    pub fn free(&mut self, network: &mut Parted, basis: &Basis, net: &Net) -> Option<Found> {
        write_heights(basis, &mut self.heights);
        for (place, flow) in self.flows.iter().enumerate() {
            network.set_flow(place, *flow)?;
        }
        let (from, to) = if net.need > 0 {
            (network.spare(), network.base())
        } else {
            (network.base(), network.spare())
        };
        self.turn(network, from, to)?;
        self.lifting.tell_heights(&mut self.near);
        copy(&mut self.before, &self.flows);
        send(&mut self.before, network, &self.path)?;
        self.turn(network, to, from)?;
        self.lifting.tell_heights(&mut self.far);
        copy(&mut self.behind, &self.flows);
        send(&mut self.behind, network, &self.path)?;
        Some(Found::Freed {
            near: net.size(change_at(network, &self.near)?)?,
            far: net.size(change_at(network, &self.far)?)?,
        })
    }

    /// Finds a shortest path for the flows without net, and heights at which what goes along it is best.
    fn turn(&mut self, network: &Parted, from: u32, to: u32) -> Option<()> {
        self.lifting.begin(&self.heights);
        self.lifting.run(&mut self.path, network, from, to)?;
        Some(())
    }
}

/// How much a number changes at these heights: how far the spare vertex is above the base.
fn change_at(network: &Parted, heights: &[i64]) -> Option<i64> {
    let base = heights.get(network.base() as usize)?;
    let spare = heights.get(network.spare() as usize)?;
    spare.checked_sub(*base)
}

/// Sends along a path as much as there is room for.
fn send(flows: &mut [i64], network: &Parted, path: &[ResidualArc]) -> Option<()> {
    let amount = i64::try_from(network.room(path)?).ok()?;
    for arc in path {
        let flow = flows.get_mut(arc.row())?;
        *flow = if arc.is_forward() {
            flow.checked_add(amount)?
        } else {
            flow.checked_sub(amount)?
        };
    }
    Some(())
}

/// Writes the heights of the vertices into a row.
fn write_heights(basis: &Basis, row: &mut [i64]) {
    for (height, node) in row.iter_mut().zip(basis.tree.nodes()) {
        *height = node.height;
    }
}

/// Copies flows into a row that is as long.
fn copy(row: &mut [i64], flows: &[i64]) {
    for (own, flow) in row.iter_mut().zip(flows) {
        *own = *flow;
    }
}
