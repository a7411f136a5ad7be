//! The least heights of a network, and how far they reach without costing more.
ghost use Rattle.std.specs.Prelude.{IfOk};
ghost use Rattle.th_circulation.specs.Extremes.{High, Low};
ghost use Rattle.th_network.specs.Heights.{heights_at};
ghost use Rattle.th_network.specs.Networks.{AreAtPoints, points_of};

use std::alloc::{AllocError, Global};
use th_circulation::{BestHeights, best_heights};
use th_network::Network;

/// The lowest and the highest of all heights that cost least, in point order.
pub fn least_heights(alloc: Global, network: &Network) -> Result<BestHeights, AllocError>
    ensures low { IfOk result (λ best. Low network.now.observations network.now.benchmarks
        network.now.weights (heights_at (points_of network.now) best.low)) }
    ensures high { IfOk result (λ best. High network.now.observations network.now.benchmarks
        network.now.weights (heights_at (points_of network.now) best.high)) }
    ensures each { IfOk result (λ best. AreAtPoints network.now best.low
        × AreAtPoints network.now best.high) }
{
    best_heights(alloc, network)
}
