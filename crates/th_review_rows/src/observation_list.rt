//! The rows of the observations.
ghost use Rattle.std.specs.Prelude.{◌≡◌, ◌<◌, All, IfOk, length, pos, slice_index_or, unsigned_abs};
ghost use Rattle.th_blunders.specs.Residuals.{residual_limit, residuals as residuals_of};
ghost use Rattle.th_network.specs.Limits.{height_limit};
ghost use Rattle.th_network.specs.Networks.{AreAtPoints, at_points_of, points_of};
ghost use Rattle.th_points.specs.Ends.{AreBelow, ends_in};
ghost use Rattle.th_review_rows.specs.Rows.{ends_of, observation_row_of, observation_rows};

use crate::rows::{End, ObservationRow};
use std::alloc::{AllocError, Global};
use th_blunders::residuals;
use th_network::Network;
use th_observations::Observation;
use th_reliability::{Blame, Mistake};

/// The rows of a network's observations, with the lowest best heights, which are listed in point
/// order, and the controls and what a mistake would move, which are listed in the order of the
/// observations.
pub(crate) fn observation_rows(
    alloc: Global,
    network: &Network,
    low: &[i64],
    controls: &[Option<u32>],
    blames: &[Option<Blame>],
) -> Result<Vec<ObservationRow>, AllocError>
    requires low { AreAtPoints network.now low.now }
    requires controls { length controls.now ≡ length network.now.observations }
    requires blames { length blames.now ≡ length network.now.observations }
    ensures { IfOk result (λ rows. rows.items
        ≡ observation_rows network.now (at_points_of network.now low.now) controls.now blames.now) }
{
    let residuals = residuals(alloc, network, low)?;
    rows_of(alloc, network, low, &residuals, controls, blames)
}

/// The rows of observations with these residuals.
fn rows_of(
    alloc: Global,
    network: &Network,
    low: &[i64],
    residuals: &[i64],
    controls: &[Option<u32>],
    blames: &[Option<Blame>],
) -> Result<Vec<ObservationRow>, AllocError>
    requires low { AreAtPoints network.now low.now }
    requires residuals { residuals.now ≡ residuals_of network.now.observations (at_points_of network.now low.now) }
    requires small { All (λ residual. unsigned_abs residual < residual_limit) residuals.now }
    requires controls { length controls.now ≡ length network.now.observations }
    requires blames { length blames.now ≡ length network.now.observations }
    ensures { IfOk result (λ rows. rows.items
        ≡ observation_rows network.now (at_points_of network.now low.now) controls.now blames.now) }
{
    let observations = network.observations();
    let places = network.ends();
    let mut rows = Vec::with_capacity(alloc, observations.len())?;
    for (i, o) in observations.iter().enumerate() {
        rows.push(observation_row(
            i as u32 + 1,
            o,
            network.weight(i),
            residuals[i],
            controls[i],
            blames[i],
            ends_at(network, low, o, places[i]),
        ))?;
    }
    Ok(rows)
}

/// The row of an observation.
fn observation_row(
    number: u32,
    o: &Observation,
    weight: u32,
    residual: i64,
    control: Option<u32>,
    blame: Option<Blame>,
    ends: (End, End),
) -> ObservationRow
    ensures { result ≡ observation_row_of number o.now weight residual control blame ends }
{
    ObservationRow {
        number,
        observation: *o,
        weight,
        residual,
        control,
        mistake: Mistake::of(control, weight),
        blame,
        from: ends.0,
        to: ends.1,
    }
}

/// The ends of an observation, given their places.
fn ends_at(network: &Network, low: &[i64], o: &Observation, places: (usize, usize)) -> (End, End)
    requires low { AreAtPoints network.now low.now }
    requires places { places ≡ ends_in (points_of network.now) o.now }
    requires within { AreBelow (length (points_of network.now)) places }
    ensures { result ≡ ends_of network.now (at_points_of network.now low.now) o.now }
{
    (end_at(low, places.0), end_at(low, places.1))
}

/// The end at this place.
fn end_at(low: &[i64], place: usize) -> End
    requires within { place < length low.now }
    requires low { All (λ height. unsigned_abs height < height_limit) low.now }
    ensures { result ≡ record { place = place; low = slice_index_or low.now place (pos 0) } }
{
    End {
        place: place as u64,
        low: low[place],
    }
}
