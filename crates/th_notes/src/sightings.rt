//! How points are sighted.
ghost use Rattle.std.specs.Prelude.{◌≡◌, ℕ, List, IfOk};
ghost use Rattle.th_notes.specs.Inside.Sets.{has_name};
ghost use Rattle.th_notes.specs.Seen.{is_station};

use crate::tables::{Names, Pairs, pairs_of};
use crate::uses::UsedNames;
use gsi_word::Name;
use std::alloc::{AllocError, Global};
use std::collections::BTreeSet;
use th_observations::Observation;

/// How points are sighted: how often they are used, which are stations, and between which two an
/// observation runs.
#[derive(Drop)]
pub(crate) struct Sightings {
    pub uses: UsedNames,
    pub stations: Names,
    pub pairs: Pairs,
}

impl Sightings {
    ghost use Rattle.std.specs.Prelude.{◌||◌};
    ghost use Rattle.th_observations.specs.Observed.{Observed};
    ghost use Rattle.th_notes.specs.Inside.Sightings.{AreSightings};
    ghost use Rattle.th_notes.specs.Seen.{was_observed};

    /// What observations say.
    pub fn of(alloc: Global, observations: &[Observation]) -> Result<Sightings, AllocError>
        ensures { IfOk result (AreSightings observations.now) }
    {
        Ok(Sightings {
            uses: UsedNames::of_sights(alloc, observations)?,
            stations: stations_of(alloc, observations)?,
            pairs: pairs_of(alloc, observations)?,
        })
    }

    /// Whether a point is a station.
    pub fn has_station(&self, name: &Name) -> bool
        ensures { (observations : List Observed) → AreSightings observations self.now
            → result ≡ is_station observations name.now }
    {
        self.stations.contains(name)
    }

    /// Whether an observation runs between two points, in either direction.
    pub fn joins(&self, name: Name, other: Name) -> bool
        ensures { (observations : List Observed) → AreSightings observations self.now
            → result ≡ (was_observed observations (name, other) || was_observed observations (other, name)) }
    {
        self.pairs.contains(&(name, other)) || self.pairs.contains(&(other, name))
    }
}

/// The stations of observations.
fn stations_of(alloc: Global, observations: &[Observation]) -> Result<Names, AllocError>
    ensures { IfOk result (λ stations. (name : List ℕ)
        → has_name stations name ≡ is_station observations.now name) }
{
    let mut stations = BTreeSet::new(alloc);
    for o in observations {
        let (station, _) = o.ends();
        stations.insert(station)?;
    }
    Ok(stations)
}
