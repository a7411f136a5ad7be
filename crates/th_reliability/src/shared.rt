//! What a mistake in each entry would do.
ghost use Rattle.std.specs.Prelude.{◌≡◌, ◌<◌, All, IfOk, IfSome, Some, true};
ghost use Rattle.std.specs.List.{AllZip};
ghost use Rattle.th_network.specs.Networks.{vertices_of};
ghost use Rattle.th_reliability.specs.Effects.{IsEffect};
ghost use Rattle.th_reliability.specs.Inside.Targets.{AreAtVertex};
ghost use Rattle.th_reliability.specs.Numbers.{AreControls};
ghost use Rattle.th_reliability.specs.Sights.{IsOfOneStation, in_sights};

use crate::bounds::shows_by_controls;
use crate::effects::{Effect, effect_at};
use crate::ground::Ground;
use crate::marks::marks_of;
use crate::runs::Runs;
use crate::sights::Sights;
use std::alloc::{AllocError, Global};
use th_network::Network;
use th_progress::{Progress, Work};

/// What a mistake in each entry would do. An entry is the sights of one station that a keyed-in
/// height serves: a mistake in it is in all of them.
///
/// Often the controls of the sights show that the mistake shows. Any other entry takes one flow
/// through the network, unless the entry before has the same sights.
pub fn shared_mistakes<P: Progress>(
    alloc: Global,
    network: &Network,
    controls: &[Option<u32>],
    entries: &[Sights],
    progress: &mut P,
) -> Result<Vec<Effect>, AllocError>
    requires controls { AreControls network.now controls.now }
    requires one { All (IsOfOneStation network.now.observations) entries.now }
    ensures { IfOk result (λ effects. AllZip (λ entry effect.
        IsEffect network.now (in_sights entry) effect) entries.now effects.items) }
{
    let runs = Runs::of(network.observations());
    let ground = Ground::of(alloc, network)?;
    let mut before = None;
    let mut effects = Vec::with_capacity(alloc, entries.len())?;
    for entry in entries {
        progress.show(Work::Entries, effects.len(), entries.len());
        let effect = match known_effect(&before, &runs, entry) {
            Some(known) => known,
            None => shared_effect(alloc, &ground, controls, &runs, entry)?,
        };
        before = Some((*entry, effect));
        effects.push(effect)?;
    }
    Ok(effects)
}

/// What a mistake in an entry would do, if that is known of an entry with the same sights.
fn known_effect(
    before: &Option<(Sights, Effect)>,
    runs: &Runs<'_>,
    sights: &Sights,
) -> Option<Effect>
    ensures { IfSome result (λ effect. (own : Sights) × (before.now ≡ Some (own, effect))
        × All (λ o. in_sights own o ≡ in_sights sights.now o) runs.now.observations.now) }
{
    match before {
        Some((own, effect)) if runs.are_same(own, sights) => Some(*effect),
        _ => None,
    }
}

/// What a mistake that some sights share would do.
fn shared_effect(
    alloc: Global,
    ground: &Ground<'_, '_>,
    controls: &[Option<u32>],
    runs: &Runs<'_>,
    sights: &Sights,
) -> Result<Effect, AllocError>
    requires controls { AreControls ground.now.network.now controls.now }
    requires runs { runs.now.observations.now ≡ ground.now.network.now.observations }
    requires one { IsOfOneStation ground.now.network.now.observations sights.now }
    ensures { IfOk result (λ effect. IsEffect ground.now.network.now (in_sights sights.now) effect) }
{
    let network = ground.network;
    let weight = runs.weight_of(network, sights);
    if shows_by_controls(network, controls, runs, sights, weight) {
        return Ok(Effect::shown());
    }
    let mistaken = marks_of(alloc, runs, sights)?;
    let start = start_of(ground, runs, sights);
    let flowed = effect_at(alloc, ground, &mistaken, runs.run_of(sights), start)?;
    Ok(flowed.effect)
}

/// The vertex of the station of some sights; 0 if there are none.
fn start_of(ground: &Ground<'_, '_>, runs: &Runs<'_>, sights: &Sights) -> u32
    requires runs { runs.now.observations.now ≡ ground.now.network.now.observations }
    requires one { IsOfOneStation ground.now.network.now.observations sights.now }
    ensures within { result < vertices_of ground.now.network.now }
    ensures start { AreAtVertex ground.now.network.now (in_sights sights.now) result }
{
    let observations = runs.observations;
    let (start, end) = runs.run_of(sights);
    for i in start..end {
        if sights.hold(&observations[i]) {
            return ground.edges[i].tail;
        }
    }
    0
}
