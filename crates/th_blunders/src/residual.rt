//! Observed differences less the differences of heights, in units of 10 nm.
ghost use Rattle.std.specs.Prelude.{◌≡◌, ◌<◌, ◌≤◌, ◌-ℤ◌, All, IfOk, length, unsigned_abs};
ghost use Rattle.th_network.specs.Heights.{heights_at};
ghost use Rattle.th_network.specs.Limits.{height_limit};
ghost use Rattle.th_network.specs.Networks.{points_of};
ghost use Rattle.th_blunders.specs.Residuals.{residual_limit, residuals as residuals_of};

use std::alloc::{AllocError, Global};
use th_network::Network;
use th_observations::Observation;

/// The residuals of a network's observations, in their order, at heights that are listed in the
/// order of its points: the observed difference, less the height of the target above the station.
///
/// Heights and residuals are in units of 10 nm.
pub fn residuals(alloc: Global, network: &Network, heights: &[i64]) -> Result<Vec<i64>, AllocError>
    requires one_for_each { length heights.now ≡ length (points_of network.now) }
    requires in_range { All (λ height. unsigned_abs height < height_limit) heights.now }
    ensures residuals { IfOk result (λ residuals. residuals.items
        ≡ residuals_of network.now.observations (heights_at (points_of network.now) heights.now)) }
    ensures small { IfOk result (λ residuals.
        All (λ residual. unsigned_abs residual < residual_limit) residuals.items) }
{
    let observations = network.observations();
    let ends = network.ends();
    let mut residuals = Vec::with_capacity(alloc, observations.len())?;
    for (i, o) in observations.iter().enumerate() {
        let (station, target) = ends[i];
        residuals.push(residual(o, heights[station], heights[target]))?;
    }
    Ok(residuals)
}

/// The residual of an observation between two heights.
fn residual(o: &Observation, from: i64, to: i64) -> i64
    requires from { unsigned_abs from < height_limit }
    requires to { unsigned_abs to < height_limit }
    ensures value { result ≡ o.now.difference -ℤ (to -ℤ from) }
    ensures small { unsigned_abs result < residual_limit }
{
    o.difference() - (to - from)
}
