//! What a survey costs at least while a number changes within reach.
ghost use Rattle.std.specs.Prelude.{◌≡◌, ◌<◌, ◌<ℤ◌, pos, IfOk};
ghost use Rattle.th_explain.specs.Explained.{IsLeastInReach};
ghost use Rattle.th_changes.specs.Reach.{reach_of};
ghost use Rattle.th_changes.specs.Slopes.{IsSloped};

use crate::freed::freed_between;
use crate::sieve::Sieve;
use std::alloc::{AllocError, Global};
use th_changes::{Case, Number, Sloped, reach_of, slope_as_given, slope_at};
use th_network::Network;

/// What the network of a sieve costs at least over all changes of a number that are within reach of what a
/// book can say, in units of 10 nm times weight.
pub fn least_left(alloc: Global, sieve: &mut Sieve<'_>, number: &Number) -> Result<u128, AllocError>
    ensures least { IfOk result (IsLeastInReach sieve.old.case.now.network.now number.now) }
    ensures case { sieve.new.case.now ≡ sieve.old.case.now }
{
    if let Some(freed) = sieve.freed_by_simplex(alloc, number)?
        && freed.low.unsigned_abs() <= reach_of(number, sieve.case.network)
    {
        return Ok(freed.left);
    }
    least_in_reach(alloc, sieve.case, number)
}

/// What a network costs at least over all changes of a number that are within reach of what a book can
/// say, in units of 10 nm times weight.
pub fn least_in_reach(alloc: Global, case: &Case<'_>, number: &Number) -> Result<u128, AllocError>
    ensures { IfOk result (IsLeastInReach case.now.network.now number.now) }
{
    let network = case.network;
    let given = slope_as_given(case, number);
    let reach = reach_of(number, network);
    if reach == 0 {
        return Ok(given.cost);
    }
    if given.slope == 0 {
        return Ok(given.cost);
    }
    if given.slope < 0 {
        least_above(alloc, network, number, given, reach)
    } else {
        least_below(alloc, network, number, given, reach)
    }
}

/// The least cost within reach, where the cost falls as the number grows.
fn least_above(
    alloc: Global,
    network: &Network,
    number: &Number,
    given: Sloped,
    reach: u64,
) -> Result<u128, AllocError>
    requires at { given.change ≡ pos 0 }
    requires given { IsSloped network.now number.now given }
    requires falls { given.slope <ℤ pos 0 }
    requires reach { reach ≡ reach_of number.now network.now.observations }
    requires room { 0 < reach }
    ensures least { IfOk result (IsLeastInReach network.now number.now) }
{
    let far = slope_at(alloc, network, number, reach as i64)?;
    if far.slope <= 0 {
        return Ok(far.cost);
    }
    let freed = freed_between(alloc, network, number, given, far)?;
    Ok(freed.left)
}

/// The least cost within reach, where the cost rises as the number grows.
fn least_below(
    alloc: Global,
    network: &Network,
    number: &Number,
    given: Sloped,
    reach: u64,
) -> Result<u128, AllocError>
    requires at { given.change ≡ pos 0 }
    requires given { IsSloped network.now number.now given }
    requires rises { pos 0 <ℤ given.slope }
    requires reach { reach ≡ reach_of number.now network.now.observations }
    requires room { 0 < reach }
    ensures least { IfOk result (IsLeastInReach network.now number.now) }
{
    let far = slope_at(alloc, network, number, -(reach as i64))?;
    if far.slope >= 0 {
        return Ok(far.cost);
    }
    let freed = freed_between(alloc, network, number, far, given)?;
    Ok(freed.left)
}
