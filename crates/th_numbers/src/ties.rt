//! Which benchmarks are tied to another one.
//!
//! Points that chains of observations join are one part of the network, and have one label.
ghost use Rattle.std.specs.Prelude.{◌≡◌, ◌↔◌, ◌<◌, ◌≤◌, IfOk, get_or, length, map, true};
ghost use Rattle.th_network.specs.Limits.{max_points};
ghost use Rattle.th_network.specs.Networks.{points_of};
ghost use Rattle.th_numbers.specs.Inside.Parts.{AreApart, AreParts, HasOther, relabelled};
ghost use Rattle.th_numbers.specs.Ties.{AreTiedRows, IsTiedOn};

use gsi_word::Name;
use std::alloc::{AllocError, Global};
use th_network::Network;
use th_reliability::place_in;

/// A row of the benchmarks' table, and whether a chain of observations leads from there to another
/// benchmark.
#[derive(Clone, Copy, Debug)]
pub struct TiedRow {
    pub name: Name,
    pub tied: bool,
}

/// The rows of the benchmarks' table.
pub fn tied_rows(alloc: Global, network: &Network) -> Result<Vec<TiedRow>, AllocError>
    ensures rows { IfOk result (λ rows. AreTiedRows network.now rows.items) }
    ensures few { IfOk result (λ rows. length rows.items ≤ max_points) }
{
    let parts = parts_of(alloc, network)?;
    let benchmarks = network.benchmarks();
    let mut rows = Vec::with_capacity(alloc, network.points().len())?;
    let mut k = 0;
    'rows: while let Some(row) = benchmarks.entry(k) {
        let tied = is_tied(network, &parts, &row.0);
        rows.push(TiedRow { name: row.0, tied })?;
        k += 1;
    }
    Ok(rows)
}

/// Whether a chain of observations leads from a point to another benchmark.
fn is_tied(network: &Network, parts: &[usize], name: &Name) -> bool
    requires { AreParts network.now (length network.now.observations) parts.now }
    ensures { (result ≡ true) ↔ IsTiedOn network.now name.now }
{
    let place = place_in(network.points(), name);
    if place >= parts.len() {
        return false;
    }
    has_other(network, parts, place)
}

/// Whether another benchmark has the label of the point at a place.
fn has_other(network: &Network, parts: &[usize], place: usize) -> bool
    requires each { length parts.now ≡ length (points_of network.now) }
    requires within { place < length parts.now }
    ensures { (result ≡ true) ↔ HasOther network.now parts.now place }
{
    let label = parts[place];
    for (k, own) in parts.iter().enumerate() {
        if k != place && *own == label && network.fixed(k).is_some() {
            return true;
        }
    }
    false
}

/// A label for each point: two points have one label just where a chain of observations leads from one
/// to the other.
fn parts_of(alloc: Global, network: &Network) -> Result<Vec<usize>, AllocError>
    ensures { IfOk result (λ parts. AreParts network.now (length network.now.observations) parts.items) }
{
    let mut parts = each_apart(alloc, network.points().len())?;
    for (station, target) in network.ends() {
        parts = join(alloc, parts, *station, *target)?;
    }
    Ok(parts)
}

/// A label of its own for each of so many points.
fn each_apart(alloc: Global, count: usize) -> Result<Vec<usize>, AllocError>
    ensures { IfOk result (λ parts. AreApart count parts.items) }
{
    let mut parts = Vec::with_capacity(alloc, count)?;
    for label in 0..count {
        parts.push(label)?;
    }
    Ok(parts)
}

/// The labels, with that of the station in place of the target's.
fn join(
    alloc: Global,
    parts: Vec<usize>,
    station: usize,
    target: usize,
) -> Result<Vec<usize>, AllocError>
    requires station { station < length parts.items }
    requires target { target < length parts.items }
    ensures { IfOk result (λ own. own.items
        ≡ map (relabelled (get_or parts.items target 0) (get_or parts.items station 0)) parts.items) }
{
    let from = parts[target];
    let to = parts[station];
    if from == to {
        return Ok(parts);
    }
    joined(alloc, parts.as_slice(), from, to)
}

/// The labels, with one in place of another.
fn joined(alloc: Global, parts: &[usize], from: usize, to: usize) -> Result<Vec<usize>, AllocError>
    ensures { IfOk result (λ own. own.items ≡ map (relabelled from to) parts.now) }
{
    let mut own = Vec::with_capacity(alloc, parts.len())?;
    for label in parts {
        own.push(relabelled(from, to, *label))?;
    }
    Ok(own)
}

/// One label in place of another.
fn relabelled(from: usize, to: usize, label: usize) -> usize
    ensures { result ≡ relabelled from to label }
{
    if label == from { to } else { label }
}
