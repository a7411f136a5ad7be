//! The other sign of a word 33.
ghost use Rattle.std.specs.Prelude.{◌≡◌, ◌+ℤ◌, find, option_to_list};
ghost use Rattle.th_names.specs.Nears.{sign_distance, sign_near, sign_nears, sign_with};
ghost use Rattle.th_reliability.specs.Sights.{in_sights};

use crate::distances::mildest;
use crate::doubts::Doubt;
use crate::nears::Near;
use th_explain::Freed;
use th_explain_texts::ReadAs;
use th_network::Network;
use th_numbers::{Kinds, word_33};
use th_observations::Observation;
use th_reliability::Sights;

/// The other sign of the word 33 of a sight, if it fits.
pub(crate) fn sign_of(
    network: &Network,
    kinds: &Kinds<'_>,
    limit: u64,
    freed: &Freed,
    doubt: &Doubt,
) -> Option<Near>
    ensures { option_to_list result ≡ sign_nears network.now kinds.now.entries.now limit freed.now doubt.now }
{
    match doubt {
        Doubt::Sight(sights, _) => sign_in(network, kinds, limit, freed, sights),
        Doubt::LoneSight(sights, _, _) => sign_in(network, kinds, limit, freed, sights),
        Doubt::Setup(_, _) => None,
        Doubt::Benchmark(_) => None,
    }
}

/// The same, for the first of some sights.
fn sign_in(
    network: &Network,
    kinds: &Kinds<'_>,
    limit: u64,
    freed: &Freed,
    sights: &Sights,
) -> Option<Near>
    ensures { option_to_list result
        ≡ sign_near kinds.now.entries.now limit freed.now (find (in_sights sights.now) network.now.observations) }
{
    sign_near(
        kinds,
        limit,
        freed,
        first_of(network.observations(), sights),
    )
}

/// The first observation that is among the sights.
fn first_of(observations: &[Observation], sights: &Sights) -> Option<Observation>
    ensures { result ≡ find (in_sights sights.now) observations.now }
{
    observations.iter().copied().find(|o| sights.hold(o))
}

/// The other sign of the word 33 of an observation, if there is one and it fits.
fn sign_near(
    kinds: &Kinds<'_>,
    limit: u64,
    freed: &Freed,
    found: Option<Observation>,
) -> Option<Near>
    ensures { option_to_list result ≡ sign_near kinds.now.entries.now limit freed.now found }
{
    match found {
        Some(o) => sign_with(limit, freed, word_33(kinds, &o)),
        None => None,
    }
}

/// The other sign of a word 33, if it fits.
fn sign_with(limit: u64, freed: &Freed, word: i64) -> Option<Near>
    ensures { option_to_list result ≡ sign_with limit freed.now word }
{
    let fit = sign_distance(freed, word);
    if word != 0 && fit <= u128::from(limit) {
        Some(Near {
            read: ReadAs::OtherSign,
            fit: fit as u64,
        })
    } else {
        None
    }
}

/// How far the other sign of a word 33 is from what fits.
fn sign_distance(freed: &Freed, word: i64) -> u128
    ensures { result ≡ sign_distance freed.now word }
{
    mildest(with_both(freed.low, word), with_both(freed.high, word))
}

/// A change with a word 33 added to it twice.
fn with_both(change: i64, word: i64) -> i128
    ensures { result ≡ change +ℤ (word +ℤ word) }
{
    i128::from(change) + (i128::from(word) + i128::from(word))
}
