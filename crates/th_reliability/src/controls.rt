//! The controls of observations: the least cut between the ends of each, less its own weight.
ghost use Rattle.std.specs.Prelude.{◌≡◌, ◌<◌, ℕ, All, IfOk, Some, length, slice_get};
ghost use Rattle.th_observations.specs.Observed.{IsBetweenPoints, Observed};
ghost use Rattle.th_reliability.specs.Inside.Graphs.{IsGraphOf};
ghost use Rattle.th_reliability.specs.Numbers.{AreControls, HasControl};

use std::alloc::{AllocError, Global};
use th_cuts::CutTree;
use th_network::Network;

/// The control of each observation, in order; `None` between two benchmarks.
pub(crate) fn controls_of(
    alloc: Global,
    network: &Network,
    tree: &CutTree,
) -> Result<Vec<Option<u32>>, AllocError>
    requires { IsGraphOf network.now tree.now }
    ensures { IfOk result (λ controls. AreControls network.now controls.items) }
{
    let observations = network.observations();
    let mut controls = Vec::with_capacity(alloc, observations.len())?;
    for number in 0..observations.len() {
        controls.push(control_of(alloc, network, tree, number)?)?;
    }
    Ok(controls)
}

/// The control of an observation, none where both ends are benchmarks.
fn control_of(
    alloc: Global,
    network: &Network,
    tree: &CutTree,
    number: usize,
) -> Result<Option<u32>, AllocError>
    requires graph { IsGraphOf network.now tree.now }
    requires between { All IsBetweenPoints network.now.observations }
    requires number { number < length network.now.observations }
    ensures { IfOk result (λ control. (o : Observed)
        → slice_get network.now.observations number ≡ Some o → HasControl network.now o control) }
{
    let arc = network.arcs()[number];
    if arc.tail == arc.head {
        return Ok(None);
    }
    let total = tree.least(alloc, arc.tail, arc.head)?;
    Ok(Some(total - network.weight(number)))
}
