//! What flows through a number.
ghost use Rattle.std.specs.Prelude.{◌≡◌, ◌≤◌, ◌*◌, All, length, unsigned_abs};
ghost use Rattle.th_changes.specs.Flows.{net};
ghost use Rattle.th_changes.specs.Inside.Sums.{sum_between};
ghost use Rattle.th_changes.specs.Rerouted.{HoldsNumber};
ghost use Rattle.th_network.specs.Limits.{max_observations};
ghost use Rattle.th_network.specs.Networks.{AreOfObservations};
ghost use Rattle.th_tables.specs.Limits.{max_weight};

use crate::numbers::Number;
use crate::runs::Run;
use th_network::Network;

/// What flows through the observations that a number touches, all of which are in a run.
pub fn net_in(network: &Network, number: &Number, flows: &[i64], run: Run) -> i64
    requires flows { AreOfObservations network.now flows.now }
    requires run { HoldsNumber network.now.observations number.now run }
    ensures net { result ≡ net number.now network.now flows.now }
    ensures small { unsigned_abs result ≤ max_weight * max_observations }
{
    if run.is_whole {
        // Asked for its promise that observations are few: so their flows come to a number of 64 bits.
        let _all = network.observations();
        return number.signed(sum_between(flows, run.start, run.end));
    }
    net_by_touch(network, number, flows, run)
}

/// The same, with a look at how much the number touches each of the observations.
fn net_by_touch(network: &Network, number: &Number, flows: &[i64], run: Run) -> i64
    requires flows { AreOfObservations network.now flows.now }
    requires run { HoldsNumber network.now.observations number.now run }
    ensures net { result ≡ net number.now network.now flows.now }
    ensures small { unsigned_abs result ≤ max_weight * max_observations }
{
    let observations = network.observations();
    let mut net = 0;
    for i in run.start..run.end {
        net += number.times(&observations[i], flows[i]);
    }
    net
}

/// What the flows from a place up to another come to together, without that at the second.
fn sum_between(flows: &[i64], start: usize, end: usize) -> i64
    requires ordered { start ≤ end }
    requires within { end ≤ length flows.now }
    requires few { length flows.now ≤ max_observations }
    requires light { All (λ flow. unsigned_abs flow ≤ max_weight) flows.now }
    ensures sum { result ≡ sum_between flows.now start end }
    ensures small { unsigned_abs result ≤ max_weight * max_observations }
{
    let mut sum = 0;
    for i in start..end {
        sum += flows[i];
    }
    sum
}
