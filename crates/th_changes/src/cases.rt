//! A network whose numbers are looked at.
ghost use Rattle.std.specs.Prelude.{◌≡◌, pos};
ghost use Rattle.th_blunders.specs.Fits.{IsFit};
ghost use Rattle.th_circulation.specs.Best.{IsBest};
ghost use Rattle.th_circulation.specs.Extremes.{AreLowest};
ghost use Rattle.th_changes.specs.Freed.{Keeps, cost_of};
ghost use Rattle.th_changes.specs.Kept.{IsKept};
ghost use Rattle.th_network.specs.Networks.{AreAtPoints, at_points_of};

use th_blunders::Fit;
use th_circulation::BestHeights;
use th_network::Network;

/// A network, its best heights, and how the lowest of them fit.
#[derive(Drop)]
pub struct Case<'a> {
    pub network: &'a Network<'a>,
    pub best: &'a BestHeights,
    pub fit: &'a Fit,
    /// What the network costs, in units of 10 nm times weight.
    pub cost: u128,
    ghost lowest: { AreLowest network.now (at_points_of network.now best.now.low) },
    ghost at_points: { AreAtPoints network.now best.now.low },
    ghost fits: { IsFit network.now (at_points_of network.now best.now.low) fit.now },
    ghost circulate: { IsKept network.now cost best.now.flows (pos 0) },
    ghost keep: { Keeps network.now (at_points_of network.now best.now.low) },
    ghost least: { cost ≡ cost_of network.now (at_points_of network.now best.now.low) },
}

impl<'a> Case<'a> {
    /// A network with its best heights, and how the lowest of them fit.
    pub fn of(network: &'a Network<'a>, best: &'a BestHeights, fit: &'a Fit) -> Case<'a>
        requires best { IsBest network.now best.now }
        requires fit { IsFit network.now (at_points_of network.now best.now.low) fit.now }
        ensures network { result.network.now ≡ network.now }
        ensures best { result.best.now ≡ best.now }
        ensures fit { result.fit.now ≡ fit.now }
    {
        Case {
            network,
            best,
            fit,
            cost: fit.cost,
        }
    }
}
