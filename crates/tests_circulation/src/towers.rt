//! Networks whose heights grow far above those of a first tree.
use crate::searches::Question;
use crate::settling::{cost_of, settled_over};
use crate::surveys::{joined, network_of, tables_of};
use std::alloc::Global;
use std::process::Abort;
use th_search::LabelSearch;

/// How many sights of 30 km a tower has, one upon another.
const SIGHTS: u32 = 100;

/// What the sights of a second tower, downwards, say of the first one.
#[derive(Clone, Copy, PartialEq)]
pub enum Second {
    None,
    Contradicts,
}

/// A setup with the instrument 10 km above its point.
fn add_setup(rt: &impl Abort, alloc: Global, book: &mut Vec<u8>, station: u32) {
    let line = format!(in alloc;
        "110001+000P{station:04} 84..10+00000000 88..10+10000000 \n"
    ).expect(rt, "memory");
    book.extend_from_slice(line.as_bytes()).expect(rt, "memory");
}

/// A sight that rises by 10 km, with the reflector 10 km below its point.
fn add_sight(rt: &impl Abort, alloc: Global, book: &mut Vec<u8>, target: u32) {
    let line = format!(in alloc;
        "110002+000P{target:04} 33..00+10000000 87..10-10000000 \n"
    ).expect(rt, "memory");
    book.extend_from_slice(line.as_bytes()).expect(rt, "memory");
}

/// A book in which the benchmark has all points at its own height, those with even numbers first; and a
/// tower through the points.
fn tower(rt: &impl Abort, alloc: Global, second: Second) -> Vec<u8> {
    let setup = b"110001+000P0000 84..10+00000000 88..10+00000000 \n";
    let mut book = joined(rt, alloc, &[setup]);
    for odd in 0..2u32 {
        for target in 1..SIGHTS + 2 {
            if target % 2 == odd {
                let sight = format!(in alloc;
                    "110002+000P{target:04} 33..00+00000000 87..10+00000000 \n"
                ).expect(rt, "memory");
                book.extend_from_slice(sight.as_bytes())
                    .expect(rt, "memory");
            }
        }
    }
    for station in 1..SIGHTS + 1 {
        add_setup(rt, alloc, &mut book, station);
        add_sight(rt, alloc, &mut book, station + 1);
    }
    if second == Second::Contradicts {
        for station in 1..SIGHTS + 1 {
            add_setup(rt, alloc, &mut book, station + 1);
            add_sight(rt, alloc, &mut book, station);
        }
    }
    book
}

/// Weights of 1,000 for the sights of a tower, and of 999 for those of a second one.
fn weights(rt: &impl Abort, alloc: Global) -> Vec<u8> {
    let mut table = joined(rt, alloc, &[b"from,to,weight\n"]);
    for station in 1..SIGHTS + 1 {
        let target = station + 1;
        let rows = format!(in alloc;
            "P{station:04},P{target:04},1000\nP{target:04},P{station:04},999\n"
        ).expect(rt, "memory");
        table
            .extend_from_slice(rows.as_bytes())
            .expect(rt, "memory");
    }
    table
}

/// What a tower was settled to: its cost, the arcs of its network, and the first question of the search.
#[derive(Clone, Copy)]
pub struct SettledTower {
    pub cost: u128,
    pub arcs: usize,
    pub first: Question,
}

/// Settles a tower.
pub fn settled_tower(rt: &impl Abort, alloc: Global, second: Second) -> SettledTower {
    let book = tower(rt, alloc, second);
    let weights = weights(rt, alloc);
    let tables = tables_of(rt, alloc, b"point,height\nP0000,0\n", &weights);
    let network = network_of(rt, alloc, &book, &tables);
    let outcome = settled_over(rt, alloc, &network, LabelSearch::new());
    SettledTower {
        cost: cost_of(&network, &outcome.settled.heights),
        arcs: network.arcs().len(),
        first: outcome.first,
    }
}

/// At best the tower stands upright, half of it below the benchmark: 30 km for each point next to the middle,
/// 60 km for the next ones, and so on. A second one that weighs almost as much lays it down: each of its
/// sights costs 30 km, times 1,999 for the two.
#[test]
fn towers_are_settled(rt: HostRuntime) {
    const KILOMETRE: u128 = 100_000_000_000;
    let costs = [
        (Second::None, 76_500 * KILOMETRE),
        (Second::Contradicts, 5_997_000 * KILOMETRE),
    ];
    for (second, cost) in costs {
        assert_eq!(&rt; settled_tower(&rt, rt.alloc(), second).cost, cost);
    }
}
