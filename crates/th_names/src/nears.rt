//! The points that fit in place of a name.
ghost use Rattle.std.specs.Prelude.{◌≡◌, ◌<◌, ◌≤◌, ◌++◌, IfOk, IfSome, OnOk, bytes_eq, fold, length, position, true};
ghost use Rattle.std.specs.List.{AllZip, flat_map, list_any};
ghost use Rattle.th_explain.specs.Explained.{Explains};
ghost use Rattle.th_network.specs.Networks.{points_of};
ghost use Rattle.th_names.specs.Doubts.{number_of};
ghost use Rattle.th_names.specs.Gaps.{number_in};
ghost use Rattle.th_names.specs.Nears.{AreFitting, AreNear, IsLocated, is_farther, is_placed, keep, near_at, nearest, place_for, points_read, sign_nears};

use crate::distances::located_of;
use crate::doubts::Doubt;
use crate::located::Located;
use crate::namings::Naming;
use crate::signs::sign_of;
use gsi_word::Name;
use std::alloc::{AllocError, Global};
use th_explain::Freed;
use th_explain_texts::ReadAs;
use th_network::Network;
use th_numbers::Kinds;
use th_reliability::place_in;

/// So many readings of a number are printed.
const MOST_NAMES: usize = 2;

/// A reading that fits.
#[derive(Clone, Copy, Debug)]
pub struct Near {
    pub read: ReadAs,
    /// How far it is from what is read, in units of 10 nm.
    pub fit: u64,
}

/// A survey with the entries of its books, and how far a name may be from what is read, in units of 10 nm.
#[derive(Clone, Copy)]
pub(crate) struct Searched<'a> {
    pub network: &'a Network<'a>,
    pub kinds: &'a Kinds<'a>,
    pub limit: u64,
}

/// All readings of a number that fit: the other sign, and other names in the order of points.
pub(crate) fn fitting(
    alloc: Global,
    own: &Searched<'_>,
    freed: &Freed,
    doubt: &Doubt,
) -> Result<Vec<Near>, AllocError>
    requires freed { Explains own.now.network.now 0 (number_of doubt.now) freed.now }
    ensures { IfOk result (λ nears.
        AreFitting own.now.network.now own.now.kinds.now.entries.now own.now.limit freed.now doubt.now nears.items) }
{
    let namings = doubt.namings(alloc)?;
    let mut nears = signs(alloc, own, freed, doubt)?;
    for naming in &namings {
        let points = near_points(alloc, own, naming, freed)?;
        nears.extend_from_slice(&points)?;
    }
    Ok(nears)
}

/// The other sign of the word 33 of a sight, if it fits.
fn signs(
    alloc: Global,
    own: &Searched<'_>,
    freed: &Freed,
    doubt: &Doubt,
) -> Result<Vec<Near>, AllocError>
    ensures { IfOk result (λ nears. nears.items
        ≡ sign_nears own.now.network.now own.now.kinds.now.entries.now own.now.limit freed.now doubt.now) }
{
    match sign_of(own.network, own.kinds, own.limit, freed, doubt) {
        Some(near) => Ok(Vec::from_array(alloc, [near])?),
        None => Ok(Vec::new(alloc)),
    }
}

/// The points that fit in place of a name.
fn near_points(
    alloc: Global,
    own: &Searched<'_>,
    naming: &Naming,
    freed: &Freed,
) -> Result<Vec<Near>, AllocError>
    requires freed { Explains own.now.network.now 0 (number_in naming.now) freed.now }
    ensures { IfOk result (λ nears. AreNear own.now.network.now own.now.limit naming.now nears.items) }
{
    let located = points_located(alloc, own.network, naming, freed)?;
    let mut nears = Vec::new(alloc);
    add_nears(&mut nears, own, naming, &located)?;
    Ok(nears)
}

/// Adds the points that fit.
fn add_nears(
    nears: &mut Vec<Near>,
    own: &Searched<'_>,
    naming: &Naming,
    located: &[Located],
) -> Result<(), AllocError>
    ensures { OnOk result (nears.new.items
        ≡ nears.old.items ++ flat_map (near_at own.now.network.now naming.now own.now.limit) located.now) }
{
    for point in located {
        add_near(nears, own, naming, point)?;
    }
    Ok(())
}

/// The points with their distances, if the name is one of the network and of a point.
fn points_located(
    alloc: Global,
    network: &Network,
    naming: &Naming,
    freed: &Freed,
) -> Result<Vec<Located>, AllocError>
    requires freed { Explains network.now 0 (number_in naming.now) freed.now }
    ensures { IfOk result (λ located.
        AllZip (IsLocated network.now naming.now) (points_read network.now naming.now) located.items) }
{
    if is_placed(network, naming) {
        placed_located(alloc, network, naming, freed)
    } else {
        Ok(Vec::new(alloc))
    }
}

/// Whether a name is one of the network and of a point.
fn is_placed(network: &Network, naming: &Naming) -> bool
    ensures { result ≡ is_placed network.now naming.now }
{
    naming.is_of(network) && is_among(&naming.name(), network.points())
}

/// Whether a name is one of some.
fn is_among(name: &Name, names: &[Name]) -> bool
    ensures { result ≡ list_any (bytes_eq name.now) names.now }
{
    names.iter().any(|other| *name == *other)
}

/// The points with their distances, where the name is one of the network and of a point.
fn placed_located(
    alloc: Global,
    network: &Network,
    naming: &Naming,
    freed: &Freed,
) -> Result<Vec<Located>, AllocError>
    requires placed { is_placed network.now naming.now ≡ true }
    requires freed { Explains network.now 0 (number_in naming.now) freed.now }
    ensures { IfOk result (λ located.
        AllZip (IsLocated network.now naming.now) (points_of network.now) located.items) }
{
    let place = place_in(network.points(), &naming.name());
    located_of(alloc, network, naming, place, freed)
}

/// Adds a point, if it fits.
fn add_near(
    nears: &mut Vec<Near>,
    own: &Searched<'_>,
    naming: &Naming,
    located: &Located,
) -> Result<(), AllocError>
    ensures { OnOk result (nears.new.items
        ≡ nears.old.items ++ near_at own.now.network.now naming.now own.now.limit located.now) }
{
    if located.distance <= u128::from(own.limit) && naming.may_be(own.network, &located.point) {
        nears.push(Near {
            read: naming.read_as(located.point),
            fit: located.distance as u64,
        })?;
    }
    Ok(())
}

/// The readings that fit best, the nearer first.
pub(crate) fn nearest(alloc: Global, nears: &[Near]) -> Result<Vec<Near>, AllocError>
    ensures { IfOk result (λ kept. kept.items ≡ nearest nears.now) }
{
    let mut kept = Vec::new(alloc);
    for near in nears {
        keep(&mut kept, *near)?;
    }
    Ok(kept)
}

/// Keeps a reading, if it is among those that fit best.
fn keep(kept: &mut Vec<Near>, near: Near) -> Result<(), AllocError>
    ensures { OnOk result (kept.new.items ≡ keep kept.old.items near) }
{
    let place = place_for(kept, &near);
    kept.insert(place, near)?;
    kept.truncate(MOST_NAMES);
    Ok(())
}

/// Where a reading goes among some: before the first that is farther.
fn place_for(kept: &[Near], near: &Near) -> usize
    ensures place { result ≡ place_for kept.now near.now }
    ensures within { result ≤ length kept.now }
{
    first_farther(kept, near).unwrap_or(kept.len())
}

/// The place of the first of some readings that is farther than another one.
fn first_farther(kept: &[Near], near: &Near) -> Option<usize>
    ensures place { result ≡ position (is_farther near.now) kept.now }
    ensures within { IfSome result (λ place. place < length kept.now) }
{
    kept.iter().position(|own| near.fit < own.fit)
}
