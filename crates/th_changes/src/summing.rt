//! Sums of flows. Each flow is the difference of two of them, and so is what flows through a whole run of observations.
ghost use Rattle.std.specs.Prelude.{◌≡◌, ◌<◌, ◌+◌, ◌-ℤ◌, pos, IfOk, length, slice_index_or};
ghost use Rattle.th_changes.specs.Inside.Sums.{AreSums, flows_of};
ghost use Rattle.th_network.specs.Networks.{AreOfObservations};

use std::alloc::{AllocError, Global};
use th_network::Network;

/// What the flows of the observations before each place come to together, and behind these what all come to.
pub fn sums_of(alloc: Global, network: &Network, flows: &[i64]) -> Result<Vec<i32>, AllocError>
    requires { AreOfObservations network.now flows.now }
    ensures { IfOk result (λ own. AreSums flows.now own.items) }
{
    let mut sums = vec![in alloc; 0i32; flows.len() + 1]?;
    sum_up(&mut sums, network, flows);
    Ok(sums)
}

/// The same, in place of the sums of other flows.
pub fn sum_up(sums: &mut [i32], network: &Network, flows: &[i64])
    requires flows { AreOfObservations network.now flows.now }
    requires each { length sums.old ≡ length flows.now + 1 }
    ensures { AreSums flows.now sums.new }
{
    // Asked for its promise that observations are few: so their flows come to numbers of 32 bits.
    let _all = network.observations();
    let mut sum = 0;
    sums[0] = sum;
    for k in 0..flows.len() {
        sum += flows[k] as i32;
        sums[k + 1] = sum;
    }
}

/// Writes the flows that have these sums.
pub fn write_flows(sums: &[i32], flows: &mut [i64])
    requires { length sums.now ≡ length flows.old + 1 }
    ensures { flows.new ≡ flows_of sums.now }
{
    for k in 0..flows.len() {
        flows[k] = flow_at(sums, k);
    }
}

/// The flow of the observation at a place.
pub fn flow_at(sums: &[i32], place: usize) -> i64
    requires { place + 1 < length sums.now }
    ensures { result ≡ slice_index_or sums.now (place + 1) (pos 0) -ℤ slice_index_or sums.now place (pos 0) }
{
    i64::from(sums[place + 1]) - i64::from(sums[place])
}
