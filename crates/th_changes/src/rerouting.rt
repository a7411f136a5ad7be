//! Flows of a network that are sent other ways, and what they then show.
//!
//! Best flows show what the network costs. If some of what flows through a number is sent round closed
//! walks instead, less flows through the number, and the flows show less by what the walks cost. Once
//! none is left, or some flows the other way, they bound what the network costs if the number changes.
ghost use Rattle.std.specs.Prelude.{◌≡◌, ◌<◌, ◌≤◌, ◌+ℤ◌, ◌-ℤ◌, ◌*ℤ◌, IfOk, IfSome, length, pos, slice_index, slice_index_or, unsigned_abs};
ghost use Rattle.th_changes.specs.Kept.{IsKept};
ghost use Rattle.th_changes.specs.Lines.{IsLine};
ghost use Rattle.th_changes.specs.Rerouted.{HoldsNumber, IsNext, IsRerouted};
ghost use Rattle.th_network.specs.Links.{link_of};
ghost use Rattle.th_network.specs.Networks.{weights_of};
ghost use Rattle.th_observations.specs.Observed.{Observed};
ghost use Rattle.th_tables.specs.Limits.{max_weight};

use crate::cases::Case;
use crate::kept::KeptFlows;
use crate::lines::Line;
use crate::nets::net_in;
use crate::numbers::Number;
use crate::runs::Run;
use std::alloc::{AllocError, Global};
use th_guide::ResidualArc;
use th_network::Link;

/// Flows of a network, and a walk round which an amount is being sent.
#[derive(Drop)]
pub struct Rerouted<'a> {
    pub case: &'a Case<'a>,
    flows: Vec<i64>,
    /// By how much the value of the flows is less than the cost.
    lost: i64,
    /// The vertex where the walk began, the one where it is, and how much goes along it.
    start: u32,
    at: u32,
    amount: u32,
    ghost rerouted: { IsRerouted case.now.network.now case.now.cost flows.items lost start at amount },
}

/// What a step changes.
#[derive(Clone, Copy)]
struct Next {
    /// The flow of the observation, what is then lost, and the vertex where the walk then is.
    flow: i64,
    lost: i64,
    at: u32,
}

impl<'a> Rerouted<'a> {
    /// The best flows of a network.
    pub fn of(alloc: Global, case: &'a Case<'a>) -> Result<Rerouted<'a>, AllocError>
        ensures { IfOk result (λ own. own.case.now ≡ case.now) }
    {
        let flows = Vec::from_slice(alloc, case.best.flows())?;
        Ok(Rerouted {
            case,
            flows,
            lost: 0,
            start: 0,
            at: 0,
            amount: 0,
        })
    }

    /// Takes flows that were kept, in place of its own.
    pub fn take(&mut self, kept: &KeptFlows<'_>)
        requires { kept.now.case.now ≡ self.old.case.now }
        ensures { self.new.case.now ≡ self.old.case.now }
    {
        kept.write_flows(&mut self.flows);
        self.lost = kept.lost;
        self.start = 0;
        self.at = 0;
        self.amount = 0;
    }

    /// The flows as they are.
    pub fn flows(&self) -> &[i64] {
        &self.flows
    }

    /// Begins a walk at a vertex with an amount, if the walk before is closed.
    pub fn begin(&mut self, start: u32, amount: u32)
        ensures case { self.new.case.now ≡ self.old.case.now }
    {
        if self.start == self.at {
            self.start = start;
            self.at = start;
            self.amount = amount;
        }
    }

    /// Goes on along an arc, if it leaves the vertex where the walk is and has room.
    pub fn step(&mut self, arc: ResidualArc)
        ensures case { self.new.case.now ≡ self.old.case.now }
    {
        let place = arc.row();
        if let Some(Next { flow, lost, at }) = self.next(arc, place) {
            self.flows[place] = flow;
            self.lost = lost;
            self.at = at;
        }
    }

    /// The step along an arc of the observation at a place.
    fn next(&self, arc: ResidualArc, place: usize) -> Option<Next>
        ensures { IfSome result (λ next. IsNext self.now.case.now.network.now self.now.flows.items self.now.lost
            self.now.at self.now.amount place next.flow next.lost next.at) }
    {
        if place >= self.flows.len() {
            return None;
        }
        if arc.is_forward() {
            self.along(place)
        } else {
            self.against(place)
        }
    }

    /// The step along an observation.
    fn along(&self, place: usize) -> Option<Next>
        requires { place < length self.now.flows.items }
        ensures { IfSome result (λ next. IsNext self.now.case.now.network.now self.now.flows.items self.now.lost
            self.now.at self.now.amount place next.flow next.lost next.at) }
    {
        let link = self.link(place);
        if link.tail != self.at {
            return None;
        }
        let (flow, lost) = self.moved(place, i64::from(self.amount), link.diff)?;
        let at = link.head;
        Some(Next { flow, lost, at })
    }

    /// The step against an observation.
    fn against(&self, place: usize) -> Option<Next>
        requires { place < length self.now.flows.items }
        ensures { IfSome result (λ next. IsNext self.now.case.now.network.now self.now.flows.items self.now.lost
            self.now.at self.now.amount place next.flow next.lost next.at) }
    {
        let link = self.link(place);
        if link.head != self.at {
            return None;
        }
        let (flow, lost) = self.moved(place, -i64::from(self.amount), link.diff)?;
        let at = link.tail;
        Some(Next { flow, lost, at })
    }

    /// The observation at a place as a link.
    fn link(&self, place: usize) -> Link
        requires { place < length self.now.flows.items }
        ensures { (o : Observed) → slice_index_or self.now.case.now.network.now.observations place o ≡ o
            → result ≡ link_of self.now.case.now.network.now.observations self.now.case.now.network.now.benchmarks o }
    {
        self.case.network.arcs()[place]
    }

    /// The flow of an observation after a change by which a unit gains so much, and what is then lost; if
    /// its weight allows that.
    fn moved(&self, place: usize, change: i64, gain: i64) -> Option<(i64, i64)>
        requires { place < length self.now.flows.items }
        ensures flow { IfSome result (λ own. own.0
            ≡ slice_index_or self.now.flows.items place (pos 0) +ℤ change) }
        ensures bounded { IfSome result (λ own.
            unsigned_abs own.0 ≤ slice_index (weights_of self.now.case.now.network.now) place) }
        ensures light { IfSome result (λ own. unsigned_abs own.0 ≤ max_weight) }
        ensures lost { IfSome result (λ own. own.1 ≡ self.now.lost -ℤ change *ℤ gain) }
    {
        let flow = self.flows[place].checked_add(change)?;
        if flow.unsigned_abs() > u64::from(self.case.network.weight(place)) {
            return None;
        }
        let lost = self.lost.checked_sub(change.checked_mul(gain)?)?;
        Some((flow, lost))
    }

    /// A line below what the network costs as a number changes, whose observations are in a run, if the walk is
    /// closed.
    pub fn line(&self, number: &Number, run: Run) -> Option<Line>
        requires { HoldsNumber self.now.case.now.network.now.observations number.now run }
        ensures { IfSome result (IsLine self.now.case.now.network.now number.now self.now.case.now.cost) }
    {
        if self.start != self.at {
            return None;
        }
        Some(Line {
            lost: self.lost,
            net: net_in(self.case.network, number, &self.flows, run),
        })
    }

    /// The flows as they are, and what they lose, if the walk is closed.
    pub(crate) fn closed(&self) -> Option<(&[i64], i64)>
        ensures { IfSome result (λ own. IsKept self.now.case.now.network.now self.now.case.now.cost own.0.now own.1) }
    {
        if self.start != self.at {
            return None;
        }
        Some((&self.flows, self.lost))
    }
}
