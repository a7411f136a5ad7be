//! Circulations of a network that are kept, to bound what it costs whatever a number is changed by.
ghost use Rattle.std.specs.Prelude.{◌≡◌, ◌<◌, ◌≤◌, ◌+ℤ◌, ◌*ℤ◌, pos, All, IfOk, IfSome, length, slice_index, slice_index_or, slice_set, true, unsigned_abs, ℕ};
ghost use Rattle.th_changes.specs.Flows.{net, value};
ghost use Rattle.th_changes.specs.Inside.Sums.{AreSums, flows_of};
ghost use Rattle.th_changes.specs.Kept.{IsKept};
ghost use Rattle.th_changes.specs.Lines.{IsLine};
ghost use Rattle.th_changes.specs.Rerouted.{HoldsNumber};
ghost use Rattle.th_network.specs.Networks.{AreOfObservations};
ghost use Rattle.th_tables.specs.Limits.{max_weight};

use crate::cases::Case;
use crate::lines::Line;
use crate::numbers::Number;
use crate::prices::signed;
use crate::rerouting::Rerouted;
use crate::runs::Run;
use crate::summing::{flow_at, sum_up, sums_of, write_flows};
use std::alloc::{AllocError, Global};
use th_circulation::is_circulation;
use th_network::Network;

/// A circulation of a network.
#[derive(Drop)]
pub struct KeptFlows<'a> {
    pub case: &'a Case<'a>,
    /// What the flows before each place come to together, and behind these what all come to. The flows themselves would
    /// take three times the memory.
    sums: Vec<i32>,
    /// By how much the value of the flows is less than what the network costs.
    pub(crate) lost: i64,
    ghost are_sums: { AreSums (flows_of sums.items) sums.items },
    ghost kept: { IsKept case.now.network.now case.now.cost (flows_of sums.items) lost },
}

impl<'a> KeptFlows<'a> {
    /// The best flows of a case.
    pub fn best(alloc: Global, case: &'a Case<'a>) -> Result<KeptFlows<'a>, AllocError>
        ensures { IfOk result (λ own. own.case.now ≡ case.now) }
    {
        KeptFlows::with_sums(alloc, case, case.best.flows(), 0)
    }

    /// These flows of the observations, if they are a circulation.
    pub fn of(
        alloc: Global,
        case: &'a Case<'a>,
        flows: &[i64],
    ) -> Result<Option<KeptFlows<'a>>, AllocError>
        ensures { IfOk result (λ own. IfSome own (λ own. own.case.now ≡ case.now)) }
    {
        let network = case.network;
        if !is_circulation(alloc, network, flows)? {
            return Ok(None);
        }
        let Some(lost) = lost_by(case, flows) else {
            return Ok(None);
        };
        let kept = KeptFlows::with_sums(alloc, case, flows, lost)?;
        Ok(Some(kept))
    }

    /// A circulation with what it loses, and its sums.
    fn with_sums(
        alloc: Global,
        case: &'a Case<'a>,
        flows: &[i64],
        lost: i64,
    ) -> Result<KeptFlows<'a>, AllocError>
        requires { IsKept case.now.network.now case.now.cost flows.now lost }
        ensures { IfOk result (λ own. own.case.now ≡ case.now) }
    {
        let sums = sums_of(alloc, case.network, flows)?;
        Ok(KeptFlows { case, sums, lost })
    }

    /// Takes flows that were sent other ways, in place of its own, if their walk is closed.
    pub fn take(&mut self, rerouted: &Rerouted<'_>)
        requires { rerouted.now.case.now ≡ self.old.case.now }
        ensures { self.new.case.now ≡ self.old.case.now }
    {
        if let Some((flows, lost)) = rerouted.closed() {
            self.lost = lost;
            sum_up(&mut self.sums, self.case.network, flows);
        }
    }

    /// Writes the flows of the observations, in their order, over others.
    pub(crate) fn write_flows(&self, flows: &mut [i64])
        requires { length flows.old ≡ length self.now.case.now.network.now.observations }
        ensures { IsKept self.now.case.now.network.now self.now.case.now.cost flows.new self.now.lost }
    {
        write_flows(&self.sums, flows);
    }

    /// The flow of the observation at a place, if there is one. Nothing is promised of it.
    pub fn flow(&self, place: usize) -> Option<i64> {
        if place >= self.case.network.observations().len() {
            return None;
        }
        Some(self.flow_at(place))
    }

    /// The flow of an observation.
    fn flow_at(&self, place: usize) -> i64
        requires { place < length self.now.case.now.network.now.observations }
        ensures flow { result ≡ slice_index_or (flows_of self.now.sums.items) place (pos 0) }
        ensures light { unsigned_abs result ≤ max_weight }
    {
        flow_at(&self.sums, place)
    }

    /// By how much the value of the flows is less than what the network costs.
    pub fn lost(&self) -> i64 {
        self.lost
    }

    /// A line below what the network costs as a number changes, whose observations are in a run.
    pub fn line(&self, number: &Number, run: Run) -> Line
        requires { HoldsNumber self.now.case.now.network.now.observations number.now run }
        ensures { IsLine self.now.case.now.network.now number.now self.now.case.now.cost result }
    {
        Line {
            lost: self.lost,
            net: self.net(number, run),
        }
    }

    /// What flows through a number, whose observations are in a run.
    fn net(&self, number: &Number, run: Run) -> i64
        requires { HoldsNumber self.now.case.now.network.now.observations number.now run }
        ensures { result ≡ net number.now self.now.case.now.network.now (flows_of self.now.sums.items) }
    {
        if run.is_whole {
            let between = i64::from(self.sums[run.end]) - i64::from(self.sums[run.start]);
            return number.signed(between);
        }
        self.net_by_touch(number, run)
    }

    /// The same, with a look at how much the number touches each of the observations.
    fn net_by_touch(&self, number: &Number, run: Run) -> i64
        requires { HoldsNumber self.now.case.now.network.now.observations number.now run }
        ensures { result ≡ net number.now self.now.case.now.network.now (flows_of self.now.sums.items) }
    {
        let observations = self.case.network.observations();
        let mut net = 0;
        for i in run.start..run.end {
            net += number.times(&observations[i], self.flow_at(i));
        }
        net
    }
}

/// By how much the value of the flows is less than what the network costs.
fn lost_by(case: &Case<'_>, flows: &[i64]) -> Option<i64>
    requires { AreOfObservations case.now.network.now flows.now }
    ensures { IfSome result (λ lost. value case.now.network.now flows.now +ℤ lost ≡ pos case.now.cost) }
{
    let value = value_of(case.network, flows)?;
    let lost = signed(case.cost)?.checked_sub(value)?;
    let lost = i64::try_from(lost).ok()?;
    Some(lost)
}

/// The sum of the flows times the differences, without the heights of benchmarks.
fn value_of(network: &Network, flows: &[i64]) -> Option<i128>
    requires { AreOfObservations network.now flows.now }
    ensures { IfSome result (λ own. own ≡ value network.now flows.now) }
{
    let arcs = network.arcs();
    let mut value = 0i128;
    for k in 0..flows.len() {
        value = more_by(value, flows[k], arcs[k].diff)?;
    }
    Some(value)
}

/// A sum with what one more flow gains along a difference.
fn more_by(sum: i128, flow: i64, difference: i64) -> Option<i128>
    ensures { IfSome result (λ more. more ≡ sum +ℤ flow *ℤ difference) }
{
    let gain = i128::from(flow).checked_mul(i128::from(difference))?;
    let more = sum.checked_add(gain)?;
    Some(more)
}
