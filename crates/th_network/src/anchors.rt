//! The walk from the benchmarks along observations, and the first point that it does not reach.
ghost use Rattle.std.specs.Prelude.{◌≡◌, All, IfOk, MatchOption, length};
ghost use Rattle.th_network.specs.Faults.{IsFirstUntied};
ghost use Rattle.th_points.specs.Ends.{AreBelow};
ghost use Rattle.th_network.specs.Inside.Reached.{AreReached, IsFirstUnreached};
ghost use Rattle.th_network.specs.Walks.{Anchored};

use crate::marks::Marks;
use crate::neighbours::Neighbours;
use crate::sites::Sites;
use gsi_word::Name;
use std::alloc::{AllocError, Global};

/// The first point from which no chain of observations leads to a benchmark.
pub(crate) fn first_untied(alloc: Global, sites: &Sites<'_>) -> Result<Option<Name>, AllocError>
    ensures { IfOk result (λ found. MatchOption found
        (Anchored sites.now.observations sites.now.benchmarks)
        (IsFirstUntied sites.now.observations sites.now.benchmarks)) }
{
    first_unreached(
        alloc,
        sites.points.names.as_slice(),
        &sites.heights,
        &sites.points.ends,
    )
}

/// The first name whose place is not reached from those that have a height.
fn first_unreached(
    alloc: Global,
    names: &[Name],
    heights: &[Option<i64>],
    ends: &[(usize, usize)],
) -> Result<Option<Name>, AllocError>
    requires each { length heights.now ≡ length names.now }
    requires within { All (AreBelow (length heights.now)) ends.now }
    ensures { IfOk result (IsFirstUnreached heights.now ends.now names.now) }
{
    let reached = reached_places(alloc, heights, ends)?;
    let Some(place) = reached.iter().position(|mark| !*mark) else {
        return Ok(None);
    };
    Ok(Some(names[place]))
}

/// Which places are reached from those that have a height, by observations that end at these places.
///
/// Each place waits once for its neighbours to be marked, so the time is near the number of
/// observations and places.
fn reached_places(
    alloc: Global,
    heights: &[Option<i64>],
    ends: &[(usize, usize)],
) -> Result<Vec<bool>, AllocError>
    requires { All (AreBelow (length heights.now)) ends.now }
    ensures { IfOk result (λ marked. AreReached heights.now ends.now marked.items) }
{
    let neighbours = Neighbours::of(alloc, ends, heights.len())?;
    let mut marks = Marks::of(alloc, heights)?;
    while let Some(place) = marks.waiting.pop() {
        marks.mark_all(neighbours.of_place(place))?;
    }
    Ok(marks.marked)
}
