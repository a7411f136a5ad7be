//! What the controls of an entry's observations show of a mistake in it.
//!
//! A set that cuts some of the sights cuts at least the control and the weight of each of these. Where
//! that is above twice the weight of all sights, the others outweigh them in each such set.
ghost use Rattle.std.specs.Prelude.{◌≡◌, ℕ, Option, true};
ghost use Rattle.th_reliability.specs.Blunders.{weight_in};
ghost use Rattle.th_reliability.specs.Inside.Bounds.{IsNoLess, is_above_twice};
ghost use Rattle.th_reliability.specs.Numbers.{AreControls};
ghost use Rattle.th_reliability.specs.SharedMistakes.{IsSharedMistake};
ghost use Rattle.th_reliability.specs.Sights.{in_sights};

use crate::mistakes::SharedMistake;
use crate::runs::Runs;
use crate::sights::Sights;
use th_network::Network;

/// Whether the controls of some sights show that a mistake shows that the sights share. It may show
/// elsewhere too. A mistake in one sight shows just where its control shows it.
pub(crate) fn shows_by_controls(
    network: &Network,
    controls: &[Option<u32>],
    runs: &Runs<'_>,
    sights: &Sights,
    weight: u32,
) -> bool
    requires controls { AreControls network.now controls.now }
    requires runs { runs.now.observations.now ≡ network.now.observations }
    requires weight { weight ≡ weight_in network.now.observations network.now.weights (in_sights sights.now) }
    ensures { result ≡ true → IsSharedMistake network.now (in_sights sights.now) SharedMistake.Shows }
{
    let observations = network.observations();
    let weights = network.weights();
    let (start, end) = runs.run_of(sights);
    let mut least = None;
    for i in start..end {
        if sights.hold(&observations[i]) {
            least = lesser(least, controls[i], weights[i]);
        }
    }
    is_above_twice(least, weight)
}

/// The lesser of what is known and of a control and weight together, if there is a control.
fn lesser(known: Option<u64>, control: Option<u32>, weight: u32) -> Option<u64>
    ensures here { IsNoLess result control weight }
    ensures kept { (other : Option ℕ) (own : ℕ) → IsNoLess known other own → IsNoLess result other own }
{
    let Some(control) = control else {
        return known;
    };
    let both = u64::from(control) + u64::from(weight);
    match known {
        Some(least) if least <= both => Some(least),
        _ => Some(both),
    }
}

/// Whether the least control and weight of some sights, if there is one, is above twice the weight of
/// all of them.
fn is_above_twice(least: Option<u64>, weight: u32) -> bool
    ensures { result ≡ is_above_twice least weight }
{
    match least {
        Some(least) => least > u64::from(weight) + u64::from(weight),
        None => true,
    }
}
