//! The balances of flows at the points, of which all but those of benchmarks must be zero.
ghost use Rattle.std.specs.Prelude.{◌≡◌, ◌&&◌, ◌<◌, ◌≤◌, ◌==◌, ℕ, pos, ◌^◌, ◌+ℤ◌, IfOk, find, get_or, is_none, length, not, slice_get, slice_set, unsigned_abs};
ghost use Rattle.std.specs.List.{zip};
ghost use Rattle.std.specs.Ordering.{int_eq};
ghost use Rattle.th_tables.specs.Rows.{height_of};
ghost use Rattle.th_certificate.specs.Certified.{flow_limit};
ghost use Rattle.th_checker.specs.Inside.Tests.{AreBalances, first_place};

use crate::observations::Tested;
use gsi_word::Name;
use std::alloc::{AllocError, Global};
use th_tables::Benchmarks;

/// For each point how much more flow arrives than leaves, by the places of the ends.
pub(crate) fn balances_of(alloc: Global, tested: &Tested<'_>) -> Result<Vec<i64>, AllocError>
    ensures { IfOk result (λ balances. AreBalances tested.now.points
        (zip tested.now.ends.now tested.now.flows.now) balances.items) }
{
    let mut balances = vec![in alloc; 0; tested.points]?;
    add_all(&mut balances, tested);
    Ok(balances)
}

/// Takes each flow from its station's balance, and gives it to that of its target.
fn add_all(balances: &mut [i64], tested: &Tested<'_>)
    requires size { length balances.old ≡ tested.now.points }
    requires zero { (place : ℕ) → get_or balances.old place (pos 0) ≡ pos 0 }
    ensures { AreBalances tested.now.points (zip tested.now.ends.now tested.now.flows.now) balances.new }
{
    for (i, flow) in tested.flows.iter().enumerate() {
        let (station, target) = tested.ends[i];
        add(balances, station, -*flow);
        add(balances, target, *flow);
    }
}

/// Adds a flow to the balance at a place.
fn add(balances: &mut [i64], place: usize, flow: i64)
    requires place { place < length balances.old }
    requires balance { unsigned_abs (get_or balances.old place (pos 0)) ≤ 2 ^ 60 }
    requires flow { unsigned_abs flow < flow_limit }
    ensures { balances.new ≡ slice_set balances.old place (get_or balances.old place (pos 0) +ℤ flow) }
{
    balances[place] += flow;
}

/// The first point that is no benchmark and has another balance than zero.
pub(crate) fn first_unbalanced(
    points: &[Name],
    benchmarks: &Benchmarks,
    balances: &[i64],
) -> Option<Name>
    requires { length balances.now ≡ length points.now }
    ensures { result ≡ first_place benchmarks.now points.now balances.now }
{
    for (k, name) in points.iter().enumerate() {
        if balances[k] != 0 && benchmarks.height_of(name).is_none() {
            return Some(*name);
        }
    }
    None
}
