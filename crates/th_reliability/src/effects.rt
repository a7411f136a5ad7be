//! What a mistake does that observations share: by one flow through the network.
ghost use Rattle.std.specs.Prelude.{◌≡◌, ◌<◌, Bool, IfOk, length, map};
ghost use Rattle.th_observations.specs.Observed.{Observed};
ghost use Rattle.th_network.specs.Networks.{vertices_of};
ghost use Rattle.th_reliability.specs.Inside.Effects.{IsFlowed, Moves, of_less};
ghost use Rattle.th_reliability.specs.Inside.Targets.{HoldsMarks};

use crate::blames::{Blame, blame_of};
use crate::ground::Ground;
use crate::mistakes::SharedMistake;
use crate::targets::targets_of;
use std::alloc::{AllocError, Global};
use th_cuts::{Drained, least_drain};

/// What a mistake does that several observations share.
#[derive(Clone, Copy, Debug, PartialEq, Eq)]
pub struct Effect {
    pub mistake: SharedMistake,
    /// What would move, and what would be blamed for it; `None` if the mistake shows.
    pub blame: Option<Blame>,
}

impl Effect {
    /// What a mistake does that shows.
    pub(crate) fn shown() -> Effect
        ensures { result ≡ record { mistake = SharedMistake.Shows; blame = None } }
    {
        Effect {
            mistake: SharedMistake::Shows,
            blame: None,
        }
    }
}

/// What a mistake does, and the flow that shows it.
#[derive(Drop)]
pub(crate) struct Flowed {
    pub effect: Effect,
    /// What the observations weigh that share the mistake.
    pub weight: u32,
    /// The least that a set drains which holds the vertex.
    pub drained: u32,
}

/// What a mistake does that observations with an end at one vertex share. Which observations these are
/// is listed in the order of all, and a run holds them.
///
/// From the vertex flows twice the weight of each of them to its other end. A set that contains the vertex
/// drains that much in all, and what the other observations that cross it weigh above these.
pub(crate) fn effect_at(
    alloc: Global,
    ground: &Ground<'_, '_>,
    mistaken: &[bool],
    run: (usize, usize),
    start: u32,
) -> Result<Flowed, AllocError>
    requires each { length mistaken.now ≡ length ground.now.network.now.observations }
    requires run { HoldsMarks mistaken.now run }
    requires start { start < vertices_of ground.now.network.now }
    ensures { IfOk result (λ flowed. (group : Observed → Bool)
        → mistaken.now ≡ map group ground.now.network.now.observations
        → IsFlowed ground.now.network.now group start flowed) }
{
    let found = targets_of(alloc, ground, mistaken, run, start)?;
    let weight = found.weight;
    let most = weight + weight;
    match least_drain(
        alloc,
        &ground.graph,
        start,
        &found.rooms,
        most,
        &found.targets,
    )? {
        Drained::Less(drained, side) => {
            let mistake = of_less(drained, weight);
            let effect = effect_of(ground, mistaken, mistake, &side);
            Ok(Flowed {
                effect,
                weight,
                drained,
            })
        }
        Drained::Just(side) => {
            let effect = effect_of(ground, mistaken, SharedMistake::Ties, &side);
            Ok(Flowed {
                effect,
                weight,
                drained: most,
            })
        }
        Drained::More => Ok(Flowed {
            effect: Effect::shown(),
            weight,
            drained: most,
        }),
    }
}

/// What a mistake does that moves the points of a side.
fn effect_of(
    ground: &Ground<'_, '_>,
    mistaken: &[bool],
    mistake: SharedMistake,
    side: &[bool],
) -> Effect
    requires each { length mistaken.now ≡ length ground.now.network.now.observations }
    ensures { Moves ground.now.network.now mistaken.now mistake side.now result }
{
    Effect {
        mistake,
        blame: Some(blame_of(ground.network, &ground.edges, mistaken, side)),
    }
}

/// What a mistake does if a set drains less than twice the weight of those that share it. If it drains just
/// their weight, all of them cross the set and no others do.
fn of_less(drained: u32, weight: u32) -> SharedMistake
    ensures { result ≡ of_less drained weight }
{
    if drained == weight {
        SharedMistake::Unchecked
    } else {
        SharedMistake::Drags
    }
}
