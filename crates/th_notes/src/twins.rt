//! The notes of points that may be one: their names differ in one character, and their heights hardly at
//! all.
ghost use Rattle.std.specs.Prelude.{◌≡◌, ◌++◌, [], List, IfOk, OnOk, map, option_to_list};
ghost use Rattle.th_observations.specs.Observed.{Observed};
ghost use Rattle.th_entries.specs.Listed.{IsListed};
ghost use Rattle.th_network.specs.Heights.{heights_at};
ghost use Rattle.th_network.specs.Networks.{AreAtPoints, points_of};
ghost use Rattle.th_notes.specs.Inside.Sightings.{AreSightings};
ghost use Rattle.th_notes.specs.Limited.{rest_note};
ghost use Rattle.th_notes.specs.Twins.{first_place, may_be_one, pair_if, pair_with, pairs_after, pairs_with, spots_of, twin_note, twin_notes};
ghost use Rattle.th_notes.specs.declared.notes.Kind.TheVariants.{Twins};
ghost use Rattle.th_notes.specs.declared.notes.Pair.{Pair};

use crate::differences::differ_once;
use crate::limited::add_rest;
use crate::notes::{Kind, Note, Pair};
use crate::sightings::Sightings;
use gsi_word::Name;
use std::alloc::{AllocError, Global};
use th_entries::Listed;
use th_network::Network;
use th_observations::Observation;

/// Heights that are less than 0.05 m apart may be those of one point, in units of 10 nm.
const TWIN_LIMIT: u64 = 5_000_000;

/// A point with its height, in units of 10 nm.
#[derive(Clone, Copy, Debug)]
pub(crate) struct Spot {
    pub name: Name,
    pub height: i64,
}

/// Adds a note of each two points that may be one, given a height of each point in units of 10 nm: the
/// first ones, and how many more there are.
///
/// The time is that of comparing the heights of each two points. Names are compared where these are less
/// than 0.05 m apart.
pub(crate) fn add_twin_notes(
    alloc: Global,
    notes: &mut Vec<Note>,
    network: &Network,
    low: &[i64],
) -> Result<(), AllocError>
    requires { AreAtPoints network.now low.now }
    ensures { OnOk result (notes.new.items
        ≡ notes.old.items ++ twin_notes network.now (heights_at (points_of network.now) low.now)) }
{
    let observations = network.observations();
    let spots = spots_of(alloc, network, low)?;
    let sightings = Sightings::of(alloc, observations)?;
    let pairs = pairs_of(alloc, &sightings, &spots)?;
    add_pair_notes(notes, observations, &pairs)
}

/// The points with their heights.
fn spots_of(alloc: Global, network: &Network, low: &[i64]) -> Result<Vec<Spot>, AllocError>
    requires { AreAtPoints network.now low.now }
    ensures { IfOk result (λ spots. spots.items
        ≡ spots_of network.now (heights_at (points_of network.now) low.now)) }
{
    let names = network.points();
    let mut spots = Vec::with_capacity(alloc, names.len())?;
    for (k, name) in names.iter().enumerate() {
        spots.push(Spot {
            name: *name,
            height: low[k],
        })?;
    }
    Ok(spots)
}

/// The pairs of points that may be one.
fn pairs_of(
    alloc: Global,
    sightings: &Sightings,
    spots: &[Spot],
) -> Result<Listed<Pair>, AllocError>
    ensures { IfOk result (λ pairs. (observations : List Observed) → AreSightings observations sightings.now
        → IsListed (pairs_after observations [] spots.now) pairs) }
{
    let mut pairs = Listed::new(alloc);
    for (k, spot) in spots.iter().enumerate() {
        add_pairs(&mut pairs, sightings, &spots[..k], spot)?;
    }
    Ok(pairs)
}

/// Adds the pairs of a point with those before it.
fn add_pairs(
    pairs: &mut Listed<Pair>,
    sightings: &Sightings,
    before: &[Spot],
    spot: &Spot,
) -> Result<(), AllocError>
    ensures { OnOk result ((observations : List Observed) (so_far : List Pair)
        → AreSightings observations sightings.now → IsListed so_far pairs.old
        → IsListed (so_far ++ pairs_with observations before.now spot.now) pairs.new) }
{
    for earlier in before {
        add_pair(pairs, sightings, spot, earlier)?;
    }
    Ok(())
}

/// Adds the pair of a point and an earlier one, if there is one.
fn add_pair(
    pairs: &mut Listed<Pair>,
    sightings: &Sightings,
    spot: &Spot,
    earlier: &Spot,
) -> Result<(), AllocError>
    ensures { OnOk result ((observations : List Observed) (so_far : List Pair)
        → AreSightings observations sightings.now → IsListed so_far pairs.old
        → IsListed (so_far ++ option_to_list (pair_with observations spot.now earlier.now)) pairs.new) }
{
    if let Some(pair) = pair_with(sightings, spot, earlier) {
        pairs.push(pair)?;
    }
    Ok(())
}

/// The pair of a point and an earlier one that may be one, if one of them is used once. If both are, the
/// later one comes first.
fn pair_with(sightings: &Sightings, spot: &Spot, earlier: &Spot) -> Option<Pair>
    ensures { (observations : List Observed) → AreSightings observations sightings.now
        → result ≡ pair_with observations spot.now earlier.now }
{
    let apart = spot.height.abs_diff(earlier.height);
    pair_if(sightings, apart, spot.name, earlier.name)
}

/// The same, by how far their heights are apart.
fn pair_if(sightings: &Sightings, apart: u64, name: Name, earlier: Name) -> Option<Pair>
    ensures { (observations : List Observed) → AreSightings observations sightings.now
        → result ≡ pair_if observations apart name earlier }
{
    if apart >= TWIN_LIMIT {
        return None;
    }
    if !may_be_one(sightings, name, earlier) {
        return None;
    }
    let apart = apart as u32;
    if sightings.uses.has_once(&name) {
        return Some(Pair {
            name,
            other: earlier,
            apart,
        });
    }
    if sightings.uses.has_once(&earlier) {
        return Some(Pair {
            name: earlier,
            other: name,
            apart,
        });
    }
    None
}

/// Whether two points of nearly one height may be one.
fn may_be_one(sightings: &Sightings, name: Name, other: Name) -> bool
    ensures { (observations : List Observed) → AreSightings observations sightings.now
        → result ≡ may_be_one observations name other }
{
    differ_once(name.as_bytes(), other.as_bytes())
        && (sightings.has_station(&name) || sightings.has_station(&other))
        && !sightings.joins(name, other)
}

/// Adds a note of each pair that is listed, and how many more there are.
fn add_pair_notes(
    notes: &mut Vec<Note>,
    observations: &[Observation],
    pairs: &Listed<Pair>,
) -> Result<(), AllocError>
    ensures { OnOk result (notes.new.items ≡ notes.old.items
        ++ map (twin_note observations.now) pairs.now.first.items ++ rest_note Twins pairs.now.count) }
{
    for pair in &pairs.first {
        notes.push(twin_note(observations, pair))?;
    }
    add_rest(notes, Kind::Twins, u64::from(pairs.count))
}

/// The note of a pair.
fn twin_note(observations: &[Observation], pair: &Pair) -> Note
    ensures { result ≡ twin_note observations.now pair.now }
{
    let (book, line) = first_place(observations, &pair.name);
    Note::Twin {
        book,
        line,
        pair: *pair,
    }
}

/// The book and the line of the first observation that has a point as an end.
fn first_place(observations: &[Observation], name: &Name) -> (u32, u32)
    ensures { result ≡ first_place observations.now name.now }
{
    for o in observations {
        let (station, target) = o.ends();
        if station == *name || target == *name {
            return (o.book, o.line);
        }
    }
    (0, 0)
}
