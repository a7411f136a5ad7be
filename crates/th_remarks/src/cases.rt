//! The notes of points whose names differ only in upper and lower case.
ghost use Rattle.std.specs.Prelude.{◌≡◌, ◌++◌, IfOk, OnOk, option_to_list};
ghost use Rattle.th_remarks.specs.Alike.{alike_in, alike_with, first_alike, first_use, point_at, same_letters};

use gsi_word::Name;
use std::alloc::{AllocError, Global};
use th_network::Network;
use th_observations::Observation;

/// A point, and the book and the line where a sight first has it as an end. A benchmark that no sight has
/// as an end is never used.
#[derive(Clone, Copy, Debug)]
pub struct PointAt {
    pub name: Name,
    pub place: Option<(u32, u32)>,
}

/// Two points whose names differ only in upper and lower case, in point order.
#[derive(Clone, Copy, Debug)]
pub struct Alike {
    pub first: PointAt,
    pub second: PointAt,
}

/// The points of a network whose names are those of earlier points, but for upper and lower case: each
/// with the first such point.
///
/// The time is that of comparing each two names.
pub fn alike_in(alloc: Global, network: &Network) -> Result<Vec<Alike>, AllocError>
    ensures { IfOk result (λ found. found.items ≡ alike_in network.now) }
{
    let observations = network.observations();
    let names = network.points();
    let mut found = Vec::new(alloc);
    for (k, name) in names.iter().enumerate() {
        add_alike(&mut found, observations, &names[..k], name)?;
    }
    Ok(found)
}

/// Adds a point with the first of those before it that is alike, if there is one.
fn add_alike(
    found: &mut Vec<Alike>,
    observations: &[Observation],
    before: &[Name],
    name: &Name,
) -> Result<(), AllocError>
    ensures { OnOk result (found.new.items
        ≡ found.old.items ++ option_to_list (alike_with observations.now before.now name.now)) }
{
    if let Some(earlier) = first_alike(before, name) {
        found.push(Alike {
            first: point_at(observations, &earlier),
            second: point_at(observations, name),
        })?;
    }
    Ok(())
}

/// The first of some names that has the same letters as another one.
fn first_alike(names: &[Name], name: &Name) -> Option<Name>
    ensures { result ≡ first_alike names.now name.now }
{
    for earlier in names {
        if same_letters(earlier.as_bytes(), name.as_bytes()) {
            return Some(*earlier);
        }
    }
    None
}

/// Whether two names have the same letters, in upper or lower case, and the same other characters.
fn same_letters(name: &[u8], other: &[u8]) -> bool
    ensures { result ≡ same_letters name.now other.now }
{
    if name.len() != other.len() {
        return false;
    }
    for (i, byte) in name.iter().enumerate() {
        if !byte.eq_ignore_ascii_case(&other[i]) {
            return false;
        }
    }
    true
}

/// A point with its first use.
fn point_at(observations: &[Observation], name: &Name) -> PointAt
    ensures { result ≡ point_at observations.now name.now }
{
    PointAt {
        name: *name,
        place: first_use(observations, name),
    }
}

/// The book and the line of the first sight that has a point as an end.
fn first_use(observations: &[Observation], name: &Name) -> Option<(u32, u32)>
    ensures { result ≡ first_use observations.now name.now }
{
    for o in observations {
        let (station, target) = o.ends();
        if station == *name || target == *name {
            return Some((o.book, o.line));
        }
    }
    None
}
