//! How heights fit a network: the residuals that they leave, and what these cost.
ghost use Rattle.std.specs.Prelude.{IfOk};
ghost use Rattle.th_network.specs.Networks.{AreAtPoints, at_points_of};
ghost use Rattle.th_blunders.specs.Fits.{IsFit};

use crate::costs::cost;
use crate::residual::residuals;
use std::alloc::{AllocError, Global};
use th_network::Network;

/// How heights fit the observations of a network.
#[derive(Debug, Drop)]
pub struct Fit {
    /// The residual of each observation, in their order and in units of 10 nm.
    pub residuals: Vec<i64>,
    /// What the residuals cost: the sum of weight times size.
    pub cost: u128,
}

impl Fit {
    /// The fit of heights that are listed in the order of a network's points, in units of 10 nm.
    pub fn of(alloc: Global, network: &Network, heights: &[i64]) -> Result<Fit, AllocError>
        requires { AreAtPoints network.now heights.now }
        ensures { IfOk result (IsFit network.now (at_points_of network.now heights.now)) }
    {
        let residuals = residuals(alloc, network, heights)?;
        let cost = cost(network, &residuals);
        Ok(Fit { residuals, cost })
    }
}
