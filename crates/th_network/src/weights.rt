//! The weight of each observation, looked up in the table of weights.
ghost use Rattle.std.specs.Prelude.{◌≡◌, All, IfOk, map};
ghost use Rattle.th_network.specs.Networks.{IsWeight};
ghost use Rattle.th_tables.specs.Rows.{weight_of};

use std::alloc::{AllocError, Global};
use th_observations::Observation;
use th_tables::Weights;

/// The weights of some observations, in their order.
pub(crate) fn weights_of(
    alloc: Global,
    observations: &[Observation],
    weights: &Weights,
) -> Result<Vec<u32>, AllocError>
    ensures value { IfOk result (λ listed. listed.items
        ≡ map (λ o. weight_of weights.now o.station o.target) observations.now) }
    ensures in_range { IfOk result (λ listed. All IsWeight listed.items) }
{
    let mut listed = Vec::with_capacity(alloc, observations.len())?;
    for o in observations {
        listed.push(weights.of(&o.station, &o.target))?;
    }
    Ok(listed)
}
