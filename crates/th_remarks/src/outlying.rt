//! The note that a sight is far beyond the usual size of residuals, though the limit does not mark it.
ghost use Rattle.std.specs.Prelude.{◌≡◌, ◌<◌, ◌+◌, ◌*◌, ◌^◌, ◌++◌, ◌∷◌, [], ◌≤ℤ◌, pos, All, IfOk, IfSome, OnOk, if◌then◌else◌, length, min, nat_lt, unsigned_abs};
ghost use Rattle.std.specs.List.{zip};
ghost use Rattle.th_blunders.specs.Residuals.{residual_limit};
ghost use Rattle.th_remarks.specs.Outliers.{IsFarthest, IsMedian, IsOutlierNote, IsUsual, IsUsualOrNone, far_beyond, most, proposed_limit, size_at, sizes_of, times_as_large, weighed, weighted_size};

use crate::residuals::Outlier;
use std::alloc::{AllocError, Global};
use th_blunders::is_blunder;
use th_network::Network;

/// The fewest sizes of which one is called usual.
const FEWEST: usize = 5;

/// A size that is more than so many times the usual one is far beyond it.
const FAR: u128 = 8;

/// How many units of 10 nm a micrometre has.
const UNITS_IN_MICROMETRE: u128 = 100;

/// The note on the unmarked sight of a network whose residual, times its weight, is the largest: it is
/// more than eight times the median of those that are not 0, of which there are five or more.
///
/// Residuals are in the order of the observations. They and the limit are in units of 10 nm.
pub fn outlier_of(
    alloc: Global,
    network: &Network,
    residuals: &[i64],
    limit: i64,
) -> Result<Option<Outlier>, AllocError>
    requires each { length residuals.now ≡ length network.now.observations }
    requires small { All (λ residual. unsigned_abs residual < residual_limit) residuals.now }
    ensures note { IfOk result (λ note. IsOutlierNote network.now residuals.now limit note) }
    // The limit that it proposes marks the sight, and is below the given one.
    ensures marked { IfOk result (λ note. IfSome note (λ own. 100 * own.limit < own.size)) }
    ensures below { IfOk result (λ note. IfSome note (λ own. pos own.size ≤ℤ limit)) }
{
    match usual_of(alloc, network, residuals)? {
        Some(usual) => Ok(outlier_beyond(network, residuals, limit, usual)),
        None => Ok(None),
    }
}

/// The usual weighted size of the residuals of a network's sights: the median of those that are not 0, if
/// there are five or more.
///
/// Residuals are in the order of the observations and in units of 10 nm.
pub fn usual_of(
    alloc: Global,
    network: &Network,
    residuals: &[i64],
) -> Result<Option<u128>, AllocError>
    requires each { length residuals.now ≡ length network.now.observations }
    requires small { All (λ residual. unsigned_abs residual < residual_limit) residuals.now }
    ensures usual { IfOk result (λ usual. IsUsualOrNone (weighed network.now residuals.now) usual) }
    ensures short { IfOk result (λ usual. IfSome usual (λ own. own < 2 ^ 96)) }
    ensures positive { IfOk result (λ usual. IfSome usual (λ own. 0 < own)) }
{
    let mut sizes = sizes_of(alloc, network, residuals)?;
    if sizes.len() < FEWEST {
        return Ok(None);
    }
    Ok(Some(median(&mut sizes)))
}

/// Whether a weighted size is far beyond the usual one: more than eight times as large.
pub fn is_far_beyond(size: u128, usual: u128) -> bool
    requires { usual < 2 ^ 96 }
    ensures { result ≡ nat_lt (far_beyond usual) size }
{
    FAR * usual < size
}

/// The note on the farthest unmarked sight, if it is far beyond this usual weighted size.
fn outlier_beyond(network: &Network, residuals: &[i64], limit: i64, usual: u128) -> Option<Outlier>
    requires each { length residuals.now ≡ length network.now.observations }
    requires small { All (λ residual. unsigned_abs residual < residual_limit) residuals.now }
    requires usual { IsUsual (weighed network.now residuals.now) usual }
    requires short { usual < 2 ^ 96 }
    requires positive { 0 < usual }
    ensures note { IsOutlierNote network.now residuals.now limit result }
    ensures marked { IfSome result (λ own. 100 * own.limit < own.size) }
    ensures below { IfSome result (λ own. pos own.size ≤ℤ limit) }
{
    let weights = network.weights();
    let place = farthest(weights, residuals, limit)?;
    let weight = weights[place];
    let size = residuals[place].unsigned_abs();
    let weighted = weighted_size(weight, residuals[place]);
    if weighted <= FAR * usual {
        return None;
    }
    let o = network.observations()[place];
    Some(Outlier {
        book: o.book,
        line: o.line,
        size,
        times: times_as_large(weighted, usual),
        limit: proposed_limit(weight, usual),
    })
}

/// How many times a size is as large as another one, rounded down; at most 2^32 - 1.
fn times_as_large(size: u128, usual: u128) -> u32
    requires { 0 < usual }
    ensures { result ≡ times_as_large size usual }
{
    capped(size / usual)
}

/// The limit in micrometres at which the size of a residual of this weight is at most eight times the
/// usual weighted size, rounded down; at most 2^32 - 1.
fn proposed_limit(weight: u32, usual: u128) -> u32
    requires weight { 0 < weight }
    requires short { usual < 2 ^ 96 }
    ensures { result ≡ proposed_limit weight usual }
{
    capped(FAR * usual / (UNITS_IN_MICROMETRE * u128::from(weight)))
}

/// The number, or 2^32 - 1 if it is larger.
fn capped(number: u128) -> u32
    ensures { result ≡ min number most }
{
    number.min(u128::from(u32::MAX)) as u32
}

/// The place of the unmarked sight with the largest weighted size, the first such; `None` if all are marked.
fn farthest(weights: &[u32], residuals: &[i64], limit: i64) -> Option<usize>
    requires each { length residuals.now ≡ length weights.now }
    requires small { All (λ residual. unsigned_abs residual < residual_limit) residuals.now }
    ensures { IsFarthest limit (zip weights.now residuals.now) (length residuals.now) result }
{
    let mut found = None;
    for i in 0..residuals.len() {
        found = farther(weights, residuals, limit, found, i);
    }
    found
}

/// That of a sight and those before it, given that of those before it.
fn farther(
    weights: &[u32],
    residuals: &[i64],
    limit: i64,
    before: Option<usize>,
    i: usize,
) -> Option<usize>
    requires each { length residuals.now ≡ length weights.now }
    requires small { All (λ residual. unsigned_abs residual < residual_limit) residuals.now }
    requires within { i < length residuals.now }
    requires before { IfSome before (λ place. place < i) }
    ensures { IsFarthest limit (zip weights.now residuals.now) i before
        → IsFarthest limit (zip weights.now residuals.now) (i + 1) result }
{
    if is_blunder(residuals[i], limit) {
        return before;
    }
    let Some(place) = before else {
        return Some(i);
    };
    if size_at(weights, residuals, i) > size_at(weights, residuals, place) {
        return Some(i);
    }
    before
}

/// The weighted size of the residual of a sight, by its place.
fn size_at(weights: &[u32], residuals: &[i64], place: usize) -> u128
    requires each { length residuals.now ≡ length weights.now }
    requires small { All (λ residual. unsigned_abs residual < residual_limit) residuals.now }
    requires within { place < length residuals.now }
    ensures { result ≡ size_at (zip weights.now residuals.now) place }
{
    weighted_size(weights[place], residuals[place])
}

/// The weighted size of the residual of a sight with this weight.
pub fn weighted_size(weight: u32, residual: i64) -> u128
    ensures value { result ≡ weighted_size (weight, residual) }
    ensures short { result < 2 ^ 96 }
{
    u128::from(weight) * u128::from(residual.unsigned_abs())
}

/// The weighted sizes of the residuals of a network's sights that are not 0, in order.
fn sizes_of(alloc: Global, network: &Network, residuals: &[i64]) -> Result<Vec<u128>, AllocError>
    requires each { length residuals.now ≡ length network.now.observations }
    requires small { All (λ residual. unsigned_abs residual < residual_limit) residuals.now }
    ensures sizes { IfOk result (λ sizes. sizes.items ≡ sizes_of (weighed network.now residuals.now)) }
    ensures short { IfOk result (λ sizes. All (λ size. size < 2 ^ 96) sizes.items) }
    ensures positive { IfOk result (λ sizes. All (λ size. 0 < size) sizes.items) }
{
    let weights = network.weights();
    let mut sizes = Vec::with_capacity(alloc, residuals.len())?;
    for (i, residual) in residuals.iter().enumerate() {
        add_size(&mut sizes, weighted_size(weights[i], *residual))?;
    }
    Ok(sizes)
}

/// Adds a size that is not 0.
fn add_size(sizes: &mut Vec<u128>, size: u128) -> Result<(), AllocError>
    ensures { OnOk result (sizes.new.items
        ≡ sizes.old.items ++ (if nat_lt 0 size then size ∷ [] else [])) }
{
    if size > 0 {
        sizes.push(size)?;
    }
    Ok(())
}

/// The median of some sizes, the lower one of the two in the middle. It sorts them.
fn median(sizes: &mut [u128]) -> u128
    requires some { 0 < length sizes.old }
    requires short { All (λ size. size < 2 ^ 96) sizes.old }
    requires positive { All (λ size. 0 < size) sizes.old }
    ensures median { IsMedian sizes.old result }
    ensures short { result < 2 ^ 96 }
    ensures positive { 0 < result }
{
    sizes.sort_unstable();
    sizes[(sizes.len() - 1) / 2]
}
