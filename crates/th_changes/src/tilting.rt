//! Networks in which the change of a number was moved to the differences that it touches.
ghost use Rattle.std.specs.Prelude.{◌≡◌, ◌≢◌, ◌+◌, ◌≤◌, All, IfOk, map, pos, unsigned_abs};
ghost use Rattle.th_observations.specs.Observed.{largest_difference};
ghost use Rattle.th_changes.specs.Reach.{nearer, reach_of};
ghost use Rattle.th_changes.specs.Tilted.{tilted, tilted_observation};
ghost use Rattle.th_changes.specs.Numbers.{touch};

use crate::numbers::Number;
use std::alloc::{AllocError, Global};
use th_limits::LARGEST_DIFFERENCE;
use th_network::Network;
use th_observations::Observation;

/// How far a number may change before a difference that it touches could be more than a book can
/// say.
pub fn reach_of(number: &Number, network: &Network) -> u64
    ensures reach { result ≡ reach_of number.now network.now.observations }
    ensures small { result ≤ largest_difference }
{
    let mut reach = LARGEST_DIFFERENCE;
    for o in network.observations() {
        reach = nearer(number, reach, o);
    }
    reach
}

/// The lesser of a reach and how much the observation's difference may change, if the number touches
/// it.
fn nearer(number: &Number, reach: u64, o: &Observation) -> u64
    ensures nearer { result ≡ nearer number.now reach o.now }
    ensures less { result ≤ reach }
{
    if number.touch(o) == 0 {
        reach
    } else {
        reach.min(LARGEST_DIFFERENCE - o.difference().unsigned_abs())
    }
}

/// The network in which a number's change was moved to the differences that it touches.
pub fn tilted<'a>(
    alloc: Global,
    network: &'a Network,
    number: &Number,
    change: i64,
) -> Result<Network<'a>, AllocError>
    requires { unsigned_abs change ≤ reach_of number.now network.now.observations }
    ensures { IfOk result (λ own. own ≡ tilted number.now change network.now) }
{
    let observations = tilted_observations(alloc, network.observations(), number, change)?;
    network.with_differences(alloc, observations)
}

/// The observations with a number's change in the differences that it touches.
fn tilted_observations(
    alloc: Global,
    observations: &[Observation],
    number: &Number,
    change: i64,
) -> Result<Vec<Observation>, AllocError>
    requires low { All (λ o. unsigned_abs o.difference ≤ largest_difference) observations.now }
    requires reach { unsigned_abs change ≤ reach_of number.now observations.now }
    ensures { IfOk result (λ own.
        own.items ≡ map (tilted_observation number.now change) observations.now) }
{
    let mut own = Vec::with_capacity(alloc, observations.len())?;
    for o in observations {
        own.push(tilted_observation(o, number, change))?;
    }
    Ok(own)
}

/// The observation with a number's change in its difference, where the number touches it.
fn tilted_observation(o: &Observation, number: &Number, change: i64) -> Observation
    requires change { unsigned_abs change ≤ largest_difference }
    requires room { touch number.now o.now ≢ pos 0
        → (unsigned_abs o.now.difference + unsigned_abs change) ≤ largest_difference }
    ensures { result ≡ tilted_observation number.now change o.now }
{
    let (station, target) = o.ends();
    Observation {
        station,
        target,
        diff: o.difference() + number.times(o, change),
        book: o.book,
        line: o.line,
    }
}
