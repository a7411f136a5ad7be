//! Observations that were repeated with their ends exchanged, and how far the two disagree.
ghost use Rattle.std.specs.Prelude.{◌≡◌, ◌≤◌, ℕ, List, IfOk, IfSome, OnOk, Some, length, option_map, unsigned_abs, if◌then◌else◌};
ghost use Rattle.indexmap.specs.IndexMap.{get};
ghost use Rattle.gsi_word.specs.Names.{same_pair};
ghost use Rattle.th_observations.specs.Observed.{largest_difference};
ghost use Rattle.th_network.specs.Limits.{max_observations};
ghost use Rattle.th_blunders.specs.Opposites.{opposite_to, opposites as opposites_of};

use gsi_word::Name;
use indexmap::IndexMap;
use std::alloc::{AllocError, Global};
use th_observations::Observation;

/// An observation, and the last earlier one with its ends exchanged.
#[derive(Clone, Copy, Debug, PartialEq, Eq)]
pub struct Opposite {
    /// The observation's number, from 1.
    pub number: u32,
    /// The earlier one's number.
    pub earlier: u32,
    /// The sum of the two differences, in units of 10 nm: zero where they agree.
    pub sum: i64,
}

/// The last observation so far of each ordered pair of points: its number and its difference.
type Latest = IndexMap<(Name, Name), (u32, i64)>;

/// The observations that have an earlier one with the ends exchanged, in their order, each with the
/// last such one.
pub fn opposites(alloc: Global, observations: &[Observation]) -> Result<Vec<Opposite>, AllocError>
    requires { length observations.now ≤ max_observations }
    ensures { IfOk result (λ opposites. opposites.items ≡ opposites_of observations.now) }
{
    let mut opposites = Vec::new(alloc);
    let mut latest = IndexMap::with_capacity(alloc, observations.len())?;
    for (i, o) in observations.iter().enumerate() {
        let number = i as u32 + 1;
        if let Some(opposite) = opposite_in(number, o, &latest) {
            opposites.push(opposite)?;
        }
        latest.insert(o.ends(), (number, o.difference()))?;
    }
    Ok(opposites)
}

/// An observation with the last one so far that has its ends exchanged.
fn opposite_in(number: u32, o: &Observation, latest: &Latest) -> Option<Opposite>
    requires { (ends : List ℕ × List ℕ) → IfSome (get same_pair latest.now ends) (λ last. unsigned_abs last.1 ≤ largest_difference) }
    ensures { result ≡ option_map (opposite_to number o.now.difference) (get same_pair latest.now (o.now.target, o.now.station)) }
{
    let (station, target) = o.ends();
    let (earlier, difference) = *latest.get(&(target, station))?;
    Some(Opposite {
        number,
        earlier,
        sum: o.difference() + difference,
    })
}
