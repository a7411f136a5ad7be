//! What a survey costs as one number grows, and how steeply.
ghost use Rattle.std.specs.Prelude.{◌≡◌, ◌≤◌, ◌*◌, ℤ, pos, All, IfOk, length, unsigned_abs, zip};
ghost use Rattle.th_changes.specs.Reach.{reach_of};
ghost use Rattle.th_changes.specs.Flows.{net};
ghost use Rattle.th_changes.specs.Slopes.{IsSloped};
ghost use Rattle.th_network.specs.Networks.{AreOfObservations};
ghost use Rattle.th_tables.specs.Limits.{max_weight};
ghost use Rattle.th_network.specs.Limits.{max_observations};

use crate::cases::Case;
use crate::numbers::Number;
use crate::tilting::tilted;
use std::alloc::{AllocError, Global};
use th_blunders::Fit;
use th_circulation::best_heights;
use th_network::Network;

/// What a survey costs at least if one number grows by so much. For each unit that it grows further,
/// the survey costs at least the slope more.
#[derive(Clone, Copy, Debug)]
pub struct Sloped {
    /// By how much the number grows, in units of 10 nm.
    pub change: i64,
    /// The least cost, in units of 10 nm times weight.
    pub cost: u128,
    /// What flows through the observations that the number touches.
    pub slope: i64,
}

/// What a network costs as it is, and how steeply that rises as a number grows.
pub fn slope_as_given(case: &Case<'_>, number: &Number) -> Sloped
    ensures at { result.change ≡ pos 0 }
    ensures sloped { IsSloped case.now.network.now number.now result }
{
    Sloped {
        change: 0,
        cost: case.cost,
        slope: net_of(case.network, number, case.best.flows()),
    }
}

/// What a network costs if a number grows by so much, and how steeply that rises.
pub fn slope_at(
    alloc: Global,
    network: &Network,
    number: &Number,
    change: i64,
) -> Result<Sloped, AllocError>
    requires { unsigned_abs change ≤ reach_of number.now network.now.observations }
    ensures at { IfOk result (λ own. own.change ≡ change) }
    ensures sloped { IfOk result (IsSloped network.now number.now) }
{
    let own = tilted(alloc, network, number, change)?;
    let best = best_heights(alloc, &own)?;
    let fit = Fit::of(alloc, &own, best.low())?;
    Ok(Sloped {
        change,
        cost: fit.cost,
        slope: net_of(network, number, best.flows()),
    })
}

/// What flows through the observations that a number touches.
fn net_of(network: &Network, number: &Number, flows: &[i64]) -> i64
    requires { AreOfObservations network.now flows.now }
    ensures net { result ≡ net number.now network.now flows.now }
    ensures small { unsigned_abs result ≤ max_weight * max_observations }
{
    let mut net = 0;
    for (i, o) in network.observations().iter().enumerate() {
        net += number.times(o, flows[i]);
    }
    net
}
