//! The finding of a network's points, in a set of names that gets a seed once there are many.
ghost use Rattle.std.specs.Prelude.{◌≡◌, ◌↔◌, [], ◌∷◌, ◌++◌, IfOk, IsTrue, OnOk, Some, bytes_eq, flat_map, map, slice_get};
ghost use Rattle.indexmap.specs.IndexSet.{insert_all, insert_key};
ghost use Rattle.th_points.specs.Ends.{ArePoints};
ghost use Rattle.th_points.specs.Inside.NameLines.{name_line};
ghost use Rattle.th_points.specs.Places.{place_of};
ghost use Rattle.th_points.specs.Points.{ends};

use gsi_word::Name;
use std::alloc::{AllocError, Global};
use th_hash::{FEW_NAMES, HashSeed, NameSet, reseed_set};
use th_observations::Observation;
use th_tables::Benchmarks;

/// The points of a network in order of first sight, and where among them each observation ends.
#[derive(Debug, Drop)]
pub struct Points {
    /// The points' names: the ends of the observations, then the benchmarks that are no end.
    pub names: NameSet<Name>,
    /// For each observation the places of its station and its target among the names, from 0.
    pub ends: Vec<(usize, usize)>,
}

impl Points {
    /// Finds the points of some observations and benchmarks. Only an allocation can fail.
    pub fn of(
        alloc: Global,
        observations: &[Observation],
        benchmarks: &Benchmarks,
    ) -> Result<Points, AllocError>
        ensures { IfOk result (λ points. ArePoints observations.now benchmarks.now
            points.names.keys points.ends.items) }
    {
        let mut points = Points {
            names: NameSet::with_hasher(alloc, HashSeed::none()),
            ends: Vec::with_capacity(alloc, observations.len())?,
        };
        for o in observations {
            points.add(o)?;
            reseed_many(alloc, &mut points.names, observations, benchmarks)?;
        }
        add_benchmarks(alloc, &mut points.names, observations, benchmarks)?;
        Ok(points)
    }

    /// Adds the ends of one more observation, the station before the target.
    fn add(&mut self, o: &Observation) -> Result<(), AllocError>
        ensures names { OnOk result (self.new.names.keys
            ≡ insert_all bytes_eq self.old.names.keys (o.now.station ∷ o.now.target ∷ [])) }
        ensures ends { OnOk result (self.new.ends.items ≡ self.old.ends.items
            ++ (
              place_of self.old.names.keys o.now.station,
              place_of (insert_key bytes_eq self.old.names.keys o.now.station) o.now.target,
            ) ∷ []) }
    {
        let (near_station, near_target) = self.ends.last().copied().unwrap_or((0, 0));
        let station = place_near(&mut self.names, o.station, near_station)?;
        let target = place_near(&mut self.names, o.target, near_target)?;
        self.ends.push((station, target))?;
        Ok(())
    }
}

/// The place of a name, which goes last where it is not there yet. It is sought first at a place and
/// the next one: sights follow one another from one station, and go round the same targets again.
fn place_near(names: &mut NameSet<Name>, name: Name, near: usize) -> Result<usize, AllocError>
    ensures keys { OnOk result (names.new.keys ≡ insert_key bytes_eq names.old.keys name) }
    ensures place { IfOk result (λ place. place ≡ place_of names.old.keys name) }
{
    let next = near.saturating_add(1);
    if stands_at(names.as_slice(), &name, near) {
        Ok(near)
    } else if stands_at(names.as_slice(), &name, next) {
        Ok(next)
    } else {
        place_in(names, name)
    }
}

/// Whether a name stands at this place.
fn stands_at(names: &[Name], name: &Name, place: usize) -> bool
    ensures { IsTrue result ↔ (slice_get names.now place ≡ Some name.now) }
{
    match names.get(place) {
        Some(there) => there == name,
        None => false,
    }
}

/// The place of a name, which goes last where it is not there yet.
fn place_in(names: &mut NameSet<Name>, name: Name) -> Result<usize, AllocError>
    ensures keys { OnOk result (names.new.keys ≡ insert_key bytes_eq names.old.keys name) }
    ensures place { IfOk result (λ place. place ≡ place_of names.old.keys name) }
{
    let (place, _) = names.insert_full(name)?;
    Ok(place)
}

/// Adds the names of the benchmarks that are not there yet, in table order.
fn add_benchmarks(
    alloc: Global,
    names: &mut NameSet<Name>,
    observations: &[Observation],
    benchmarks: &Benchmarks,
) -> Result<(), AllocError>
    ensures { OnOk result (names.new.keys
        ≡ insert_all bytes_eq names.old.keys (map (λ row. row.0) benchmarks.now)) }
{
    let mut k = 0;
    while let Some(row) = benchmarks.entry(k) {
        place_in(names, row.0)?;
        reseed_many(alloc, names, observations, benchmarks)?;
        k += 1;
    }
    Ok(())
}

/// Gives the names a seed once there are many. The seed covers all names of observations and
/// benchmarks, since those still to come could be chosen to share hashes under any other.
fn reseed_many(
    alloc: Global,
    names: &mut NameSet<Name>,
    observations: &[Observation],
    benchmarks: &Benchmarks,
) -> Result<(), AllocError>
    ensures { names.new.keys ≡ names.old.keys }
{
    if names.len() > FEW_NAMES && names.hasher().is_none() {
        let content = all_names(alloc, observations, benchmarks)?;
        reseed_set(alloc, names, HashSeed::of(&content))?;
    }
    Ok(())
}

/// The names of all ends and then of the benchmarks, each with a line feed, which no name has.
fn all_names(
    alloc: Global,
    observations: &[Observation],
    benchmarks: &Benchmarks,
) -> Result<Vec<u8>, AllocError>
    ensures { IfOk result (λ content. content.items
        ≡ flat_map name_line (ends observations.now ++ map (λ row. row.0) benchmarks.now)) }
{
    let mut content = Vec::new(alloc);
    for o in observations {
        add_line(&mut content, &o.station)?;
        add_line(&mut content, &o.target)?;
    }
    let mut k = 0;
    'rows: while let Some(row) = benchmarks.entry(k) {
        add_line(&mut content, &row.0)?;
        k += 1;
    }
    Ok(content)
}

/// Adds a name and a line feed.
fn add_line(content: &mut Vec<u8>, name: &Name) -> Result<(), AllocError>
    ensures { OnOk result (content.new.items ≡ content.old.items ++ name_line name.now) }
{
    content.extend_from_slice(name.as_bytes())?;
    content.push(b'\n')?;
    Ok(())
}
