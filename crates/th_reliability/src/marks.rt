//! Which of the observations share a mistake.
ghost use Rattle.std.specs.Prelude.{◌≡◌, IfOk, ◌==◌, ◌<◌, length, map};
ghost use Rattle.th_reliability.specs.Effects.{only_at};
ghost use Rattle.th_reliability.specs.Sights.{in_sights};

use crate::runs::Runs;
use crate::sights::Sights;
use std::alloc::{AllocError, Global};
use th_network::Network;

/// For each observation whether it is one of some sights.
pub(crate) fn marks_of(
    alloc: Global,
    runs: &Runs<'_>,
    sights: &Sights,
) -> Result<Vec<bool>, AllocError>
    ensures { IfOk result (λ marks. marks.items ≡ map (in_sights sights.now) runs.now.observations.now) }
{
    let observations = runs.observations;
    let (start, end) = runs.run_of(sights);
    let mut marks = vec![in alloc; false; observations.len()]?;
    for i in start..end {
        marks[i] = sights.hold(&observations[i]);
    }
    Ok(marks)
}

/// For each observation whether it is the one at a place.
pub(crate) fn mark_at(
    alloc: Global,
    network: &Network,
    place: usize,
) -> Result<Vec<bool>, AllocError>
    ensures { IfOk result (λ marks. marks.items ≡ only_at network.now place) }
{
    let count = network.observations().len();
    let mut marks = Vec::with_capacity(alloc, count)?;
    for i in 0..count {
        marks.push(i == place)?;
    }
    Ok(marks)
}
