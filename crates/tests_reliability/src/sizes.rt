//! As many sights as a network takes: all of one pair, with the greatest weight, or of as many points as it
//! takes.
ghost use Rattle.th_reliability.specs.Numbers.{AreControls};

use crate::benchmarks::{Row, has_effects};
use crate::networks::{network_of, tables_of};
use std::alloc::Global;
use std::process::Abort;
use th_book::read_book;
use th_network::Network;
use th_observations::Observation;
use th_progress::Silent;
use th_reliability::{
    Effect, Reliability, SharedMistake, Sights, benchmark_mistakes, shared_mistakes,
};

/// How many sights a network takes.
const SIGHTS: u32 = 40_000;

/// So many sights from A to B. They are on the lines from 2 on.
fn one_pair(rt: &impl Abort, alloc: Global) -> Vec<Observation> {
    let setup = b"110001+0000000A 84..10+00000000 88..10+00001500 87..10+00001300 \n";
    let mut book = setup.to_vec(alloc).expect(rt, "memory");
    for _sight in 0..SIGHTS {
        book.extend_from_slice(b"110002+0000000B 33..00+00002345 \n")
            .expect(rt, "memory");
    }
    read_book(alloc, 1, &book).expect(rt, "observations")
}

/// Sights on some lines, and what a mistake does that they share: it shows where the others weigh more.
const SHARED: [(u32, u32, SharedMistake); 5] = [
    (2, 2, SharedMistake::Shows),
    (2, 20_000, SharedMistake::Shows),
    (2, 20_001, SharedMistake::Ties),
    (2, 20_002, SharedMistake::Drags),
    (2, 40_001, SharedMistake::Unchecked),
];

/// Looks at what a mistake does in the sights on some lines.
fn try_shared(
    rt: &impl Abort,
    alloc: Global,
    network: &Network,
    found: &Reliability,
    row: &(u32, u32, SharedMistake),
)
    requires { AreControls network.now found.now.controls.items }
{
    let (first, last, wanted) = *row;
    let own = Sights {
        book: 1,
        first,
        last,
    };
    let is_one = own.are_of_one_station(network);
    assert!(rt; is_one);
    let entries = [own];
    let effects = shared_mistakes(alloc, network, &found.controls, &entries, &mut Silent).expect(
        rt, "memory",
    );
    assert!(rt; is_one_effect(&effects, wanted), "{first} to {last}");
}

/// Whether there is one effect, of a mistake that does this.
fn is_one_effect(effects: &[Effect], wanted: SharedMistake) -> bool {
    match effects {
        [effect] => effect.mistake == wanted,
        _ => false,
    }
}

#[test]
fn one_pair_is_held_by_all_its_sights(rt: HostRuntime) {
    let alloc = rt.alloc();
    let tables = tables_of(
        &rt,
        alloc,
        b"point,height\nA,100\n",
        b"from,to,weight\nA,B,1000\n",
    );
    let network = network_of(&rt, alloc, one_pair(&rt, alloc), &tables);
    let found = Reliability::of(alloc, &network, &mut Silent).expect(&rt, "memory");
    has_numbers_of_one_pair(&rt, &found);
    for row in &SHARED {
        try_shared(&rt, alloc, &network, &found, row);
    }
}

/// Looks at the strengths and the controls, which all sights have in common.
fn has_numbers_of_one_pair(rt: &impl Abort, found: &Reliability) {
    assert!(rt; found.strengths.as_slice() == [None, Some(40_000_000)].as_slice());
    assert_eq!(rt; found.controls.len(), 40_000);
    assert!(rt;
        found
            .controls
            .iter()
            .all(|control| *control == Some(39_999_000))
    );
}

/// How many points are sighted from both benchmarks. With these they are as many as a network takes.
const POINTS: u32 = 3_998;

/// The sights of one setup, so many of each of the points.
fn add_setup(rt: &impl Abort, alloc: Global, book: &mut Vec<u8>, setup: &[u8], times: u32) {
    book.extend_from_slice(setup).expect(rt, "memory");
    for point in 1..=POINTS {
        let sight = format!(in alloc; "110002+{point:08} 33..00+00002345 \n").expect(rt, "memory");
        for _sight in 0..times {
            book.extend_from_slice(sight.as_bytes())
                .expect(rt, "memory");
        }
    }
}

/// The sights of two setups: A sights B, and each of the points six times; B sights each of them four
/// times.
fn two_setups(rt: &impl Abort, alloc: Global) -> Vec<Observation> {
    let mut book = Vec::new(alloc);
    let first =
        b"110001+0000000A 84..10+00000000 88..10+00001500 87..10+00001300 \n110002+0000000B 33..00+00002345 \n";
    add_setup(rt, alloc, &mut book, first, 6);
    let second = b"110001+0000000B 84..10+00000000 88..10+00001500 87..10+00001300 \n";
    add_setup(rt, alloc, &mut book, second, 4);
    read_book(alloc, 1, &book).expect(rt, "observations")
}

/// What wrong heights of A and of B do.
const OF_TWO_SETUPS: [Row; 2] = [
    (
        23_989,
        23_989,
        Some(15_993),
        Some(SharedMistake::Drags),
        &[(3_998, 15_992, Some(23_990))],
    ),
    (
        15_993,
        15_993,
        Some(15_993),
        Some(SharedMistake::Shows),
        &[],
    ),
];

/// A has 3,999 neighbours, and with its wrong height go all that are no benchmarks.
#[test]
fn benchmark_moves_all_its_neighbours(rt: HostRuntime) {
    let alloc = rt.alloc();
    let tables = tables_of(&rt, alloc, b"point,height\nA,100\nB,100\n", b"");
    let network = network_of(&rt, alloc, two_setups(&rt, alloc), &tables);
    let found = benchmark_mistakes(alloc, &network).expect(&rt, "memory");
    has_effects(&rt, &found, &OF_TWO_SETUPS);
}
