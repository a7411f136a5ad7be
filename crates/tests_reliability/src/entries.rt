//! What mistakes do that sights share, against least differences counted over all sets of points.
ghost use Rattle.th_reliability.specs.Numbers.{AreControls};

use crate::networks::{
    BETWEEN_BENCHMARKS, BUILDING_SITE, DAM, THERE_AND_BACK, Worked, network_of, observations_of,
    tables_of,
};
use std::alloc::Global;
use std::process::Abort;
use th_network::Network;
use th_observations::Observation;
use th_progress::Silent;
use th_reliability::{Blame, Effect, Reliability, SharedMistake, Sights, shared_mistakes};

/// How many points move, how many observations are blamed, and the number of the heaviest of these.
pub(crate) type Moved = (usize, usize, Option<usize>);

/// The order of the observations of a network.
#[derive(Clone, Copy, Debug)]
pub(crate) enum Order {
    Lines,
    Opposite,
}

/// The first and the last line of some sights, what a mistake does that they share, and what the least
/// sets would move: one of them comes out.
type Entry = (u32, u32, SharedMistake, &'static [Moved]);

/// All sights of each station, some of them, and single ones. The values are those of the least
/// difference over all sets of points, counted one by one.
const ON_SITE: [Entry; 8] = [
    (3, 6, SharedMistake::Drags, &[(1, 2, Some(5))]),
    (3, 3, SharedMistake::Ties, &[(4, 1, Some(6))]),
    (8, 11, SharedMistake::Drags, &[(1, 2, Some(2))]),
    (
        8,
        10,
        SharedMistake::Ties,
        &[(1, 3, Some(2)), (4, 1, Some(1))],
    ),
    (11, 11, SharedMistake::Shows, &[]),
    (13, 15, SharedMistake::Drags, &[(1, 2, Some(3))]),
    (13, 13, SharedMistake::Shows, &[]),
    (14, 14, SharedMistake::Shows, &[]),
];

const ON_DAM: [Entry; 8] = [
    (3, 8, SharedMistake::Drags, &[(1, 2, Some(7))]),
    (3, 3, SharedMistake::Ties, &[(5, 3, Some(6))]),
    (10, 14, SharedMistake::Drags, &[(1, 1, Some(2))]),
    (16, 19, SharedMistake::Drags, &[(1, 2, Some(5))]),
    (5, 5, SharedMistake::Ties, &[(1, 2, Some(8))]),
    (16, 17, SharedMistake::Shows, &[]),
    (11, 12, SharedMistake::Shows, &[]),
    (4, 4, SharedMistake::Shows, &[]),
];

/// A sight between benchmarks, one that nothing checks, both, and lines without a sight. Of both, one does
/// not cross the set that moves.
const AT_BENCHMARKS: [Entry; 4] = [
    (2, 2, SharedMistake::Shows, &[]),
    (3, 3, SharedMistake::Unchecked, &[(1, 0, None)]),
    (1, 3, SharedMistake::Drags, &[(1, 0, None)]),
    (1, 1, SharedMistake::Shows, &[]),
];

/// The heavier of two sights of one point, and the lighter.
const ON_TWO_SIGHTS: [Entry; 2] = [
    (2, 2, SharedMistake::Drags, &[(1, 1, Some(2))]),
    (4, 4, SharedMistake::Shows, &[]),
];

#[test]
fn mistakes_in_entries_are_told_by_cuts(rt: HostRuntime) {
    try_entries(&rt, rt.alloc(), &BUILDING_SITE, &ON_SITE);
    try_entries(&rt, rt.alloc(), &DAM, &ON_DAM);
    try_entries(&rt, rt.alloc(), &BETWEEN_BENCHMARKS, &AT_BENCHMARKS);
    try_entries(&rt, rt.alloc(), &THERE_AND_BACK, &ON_TWO_SIGHTS);
}

/// Tries entries over the observations of a book, in their order and in the opposite one.
fn try_entries(rt: &impl Abort, alloc: Global, row: &Worked, entries: &[Entry]) {
    let (lines, _, _, _, _) = row;
    let observations = observations_of(rt, alloc, lines);
    let mut opposite = Vec::new(alloc);
    for o in observations.iter().rev() {
        opposite.push(*o).expect(rt, "memory");
    }
    try_observations(rt, alloc, row, observations, entries, Order::Lines);
    try_observations(rt, alloc, row, opposite, entries, Order::Opposite);
}

fn try_observations(
    rt: &impl Abort,
    alloc: Global,
    row: &Worked,
    observations: Vec<Observation>,
    entries: &[Entry],
    order: Order,
) {
    let (_, benchmarks, weights, _, _) = row;
    let tables = tables_of(rt, alloc, benchmarks, weights);
    let network = network_of(rt, alloc, observations, &tables);
    let found = Reliability::of(alloc, &network, &mut Silent).expect(rt, "memory");
    let mut before = entries.last();
    for entry in entries {
        if let Some(other) = before {
            try_two(rt, alloc, &network, &found, other, entry, order);
        }
        before = Some(entry);
    }
}

/// Tries two entries, each of them twice.
fn try_two(
    rt: &impl Abort,
    alloc: Global,
    network: &Network,
    found: &Reliability,
    first: &Entry,
    second: &Entry,
    order: Order,
)
    requires { AreControls network.now found.now.controls.items }
{
    let one = sights_of(first);
    let two = sights_of(second);
    let first_is_one = one.are_of_one_station(network);
    assert!(rt; first_is_one);
    let second_is_one = two.are_of_one_station(network);
    assert!(rt; second_is_one);
    let entries = [one, one, two, two];
    let effects = shared_mistakes(alloc, network, &found.controls, &entries, &mut Silent).expect(
        rt, "memory",
    );
    assert!(rt; are_effects(&effects, first, second, order));
}

/// Whether four effects are what two rows allow, each of them twice.
fn are_effects(effects: &[Effect], first: &Entry, second: &Entry, order: Order) -> bool {
    match effects {
        [a, b, c, d] => is_effect(a, first, order)
            && is_effect(b, first, order)
            && is_effect(c, second, order)
            && is_effect(d, second, order),
        _ => false,
    }
}

/// Whether an effect is what a row allows. In the opposite order other numbers are blamed.
fn is_effect(effect: &Effect, row: &Entry, order: Order) -> bool {
    effect.mistake == row.2 && is_one_of(effect.blame, row.3, order)
}

/// Whether a blame is one of those that are allowed, or there is none and none is allowed.
pub(crate) fn is_one_of(blame: Option<Blame>, allowed: &[Moved], order: Order) -> bool {
    let Some(blame) = blame else {
        return allowed.is_empty();
    };
    for (moves, blames, blamed) in allowed {
        let is_blamed = *blamed == blame.blamed || matches!(order, Order::Opposite);
        if *moves == blame.moves && *blames == blame.blames && is_blamed {
            return true;
        }
    }
    false
}

/// The sights of a row.
fn sights_of(entry: &Entry) -> Sights {
    Sights {
        book: 1,
        first: entry.0,
        last: entry.1,
    }
}
