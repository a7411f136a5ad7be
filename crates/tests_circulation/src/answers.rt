//! What both searches answer: worked rows, small networks that look random, and the largest ones.
ghost use Rattle.std.specs.Prelude.{◌<◌, ◌≤◌};

use crate::randoms::Random;
use crate::searches::cycle_len;
use std::alloc::{AllocError, Global};
use std::process::Abort;
use std::test::Fail;
use tests_searches::LevelSearch;
use th_search::{Arc, Found, LabelSearch, MAX_ARCS, MAX_VERTICES, Search, are_arcs};

const fn arc(tail: u32, head: u32, cost: i64) -> Arc {
    Arc { tail, head, cost }
}

/// A number of vertices, arcs as tail, head and cost, and the potentials, or none for the cycle over
/// all arcs, from whichever arc on.
type Row = (u32, &'static [(u32, u32, i64)], Option<&'static [i64]>);

const ROWS: [Row; 9] = [
    (1, &[], Some(&[0])),
    (2, &[(0, 1, -3), (1, 0, 3)], Some(&[0, -3])),
    (2, &[(0, 1, -3), (1, 0, 2)], None),
    (1, &[(0, 0, -1)], None),
    (1, &[(0, 0, 0)], Some(&[0])),
    (
        3,
        &[(0, 1, 5), (1, 2, -7), (2, 0, 2), (0, 2, -1)],
        Some(&[-5, 0, -7]),
    ),
    (
        3,
        &[(0, 1, -10_000_000_000_000), (1, 2, -10_000_000_000_000)],
        Some(&[0, -10_000_000_000_000, -20_000_000_000_000]),
    ),
    (3, &[(2, 0, 4), (0, 1, 2), (1, 2, -7)], None),
    (
        4,
        &[(3, 2, -1), (2, 1, -1), (1, 0, -1)],
        Some(&[-3, -2, -1, 0]),
    ),
];

/// What `LabelSearch` finds.
fn by_labels(rt: &impl Abort, alloc: Global, n: u32, arcs: &Vec<Arc>) -> Result<Found, AllocError> {
    assert!(rt; 1 <= n && n <= MAX_VERTICES && arcs.len() <= MAX_ARCS && are_arcs(n, arcs));
    LabelSearch::new().search(alloc, n, arcs)
}

/// What `LevelSearch` finds.
fn by_levels(rt: &impl Abort, alloc: Global, n: u32, arcs: &Vec<Arc>) -> Result<Found, AllocError> {
    assert!(rt; 1 <= n && n <= MAX_VERTICES && arcs.len() <= MAX_ARCS && are_arcs(n, arcs));
    LevelSearch::new().search(alloc, n, arcs)
}

/// Whether no arc leads to more than the potential of its tail and its cost together, and each
/// potential is 0 or below it by at most the greatest size of a cost for each vertex but one.
fn are_potentials(n: u32, arcs: &[Arc], potentials: &[i64]) -> bool {
    let largest = arcs
        .iter()
        .map(|arc| arc.cost.unsigned_abs())
        .max()
        .unwrap_or(0);
    let lowest = u64::from(n).wrapping_sub(1).wrapping_mul(largest);
    let at = |vertex: u32| potentials.get(vertex as usize).copied().unwrap_or(1);
    potentials.len() == n as usize
        && potentials
            .iter()
            .all(|&p| p <= 0 && p.unsigned_abs() <= lowest)
        && arcs
            .iter()
            .all(|arc| at(arc.head) <= at(arc.tail).wrapping_add(arc.cost))
}

/// Whether the numbers are those of a cycle of arcs that costs less than 0 and enters no vertex twice.
fn is_negative_cycle(arcs: &[Arc], cycle: &[u32]) -> bool {
    let at = |number: u32| arcs.get(number as usize).copied().unwrap_or(arc(0, 0, 0));
    let Some(&last) = cycle.last() else {
        return false;
    };
    let mut from = at(last).head;
    let mut cost = 0i64;
    for (place, &number) in cycle.iter().enumerate() {
        let here = at(number);
        let again = cycle[..place]
            .iter()
            .any(|&earlier| at(earlier).head == here.head);
        if number as usize >= arcs.len() || here.tail != from || again {
            return false;
        }
        from = here.head;
        cost = cost.wrapping_add(here.cost);
    }
    cost < 0
}

/// Whether an answer is right.
fn is_right(n: u32, arcs: &[Arc], found: &Found) -> bool {
    match found {
        Found::Potentials(potentials) => are_potentials(n, arcs, potentials),
        Found::Cycle(cycle) => is_negative_cycle(arcs, cycle),
    }
}

/// Whether an answer is right, and a cycle of so many arcs, or of none for potentials.
fn is_of_len(n: u32, arcs: &[Arc], found: &Found, len: usize) -> bool {
    cycle_len(found) == len && is_right(n, arcs, found)
}

/// The potentials of an answer.
fn potentials_of(found: &Found) -> Option<&[i64]> {
    match found {
        Found::Potentials(potentials) => Some(potentials.as_slice()),
        Found::Cycle(_) => None,
    }
}

/// What both searches find.
fn by_both(
    rt: &impl Abort,
    alloc: Global,
    n: u32,
    arcs: &Vec<Arc>,
) -> Result<[Found; 2], AllocError> {
    Ok([
        by_labels(rt, alloc, n, arcs)?,
        by_levels(rt, alloc, n, arcs)?,
    ])
}

/// Whether an answer is that of a row.
fn is_answer_of(row: &Row, arcs: &[Arc], found: &Found) -> bool {
    let (n, _, potentials) = row;
    let len = if potentials.is_some() { 0 } else { arcs.len() };
    potentials_of(found) == *potentials && is_of_len(*n, arcs, found, len)
}

/// The arcs of a row.
fn arcs_of(alloc: Global, row: &Row) -> Result<Vec<Arc>, AllocError> {
    row.1
        .iter()
        .map(|&(tail, head, cost)| arc(tail, head, cost))
        .collect(alloc)
}

#[test]
fn rows_are_answered_by_both(rt: HostRuntime) -> Result<(), Fail> {
    for (place, row) in ROWS.iter().enumerate() {
        let arcs = arcs_of(rt.alloc(), row)?;
        for found in &by_both(&rt, rt.alloc(), row.0, &arcs)? {
            assert!(rt; is_answer_of(row, &arcs, found), "row {place}");
        }
    }
    Ok(())
}

/// Arcs among `n` vertices, fewer than three for each, that cost from -4 to 8.
fn random_arcs(alloc: Global, random: &mut Random, n: u32) -> Result<Vec<Arc>, AllocError>
    requires some { 1 ≤ n }
    requires few { n ≤ 7 }
{
    let mut arcs = Vec::new(alloc);
    for _ in 0..random.below(3 * n) {
        let cost = i64::from(random.below(13)) - 4;
        arcs.push(arc(random.below(n), random.below(n), cost))?;
    }
    Ok(arcs)
}

/// Whether both answers are right, and are the same potentials or both cycles.
fn are_alike(n: u32, arcs: &[Arc], [labels, levels]: &[Found; 2]) -> bool {
    is_right(n, arcs, labels)
        && is_right(n, arcs, levels)
        && potentials_of(labels) == potentials_of(levels)
}

#[test]
fn small_graphs_are_answered_alike(rt: HostRuntime) -> Result<(), Fail> {
    let mut random = Random { state: 1 };
    let mut cycles = 0u32;
    for graph in 0..600u32 {
        let n = 1 + random.below(7);
        let arcs = random_arcs(rt.alloc(), &mut random, n)?;
        let both = by_both(&rt, rt.alloc(), n, &arcs)?;
        assert!(rt; are_alike(n, &arcs, &both), "graph {graph}");
        if potentials_of(&both[0]).is_none() {
            cycles = cycles.wrapping_add(1);
        }
    }
    assert!(rt;
        150 < cycles && cycles < 450,
        "{cycles} of 600 have a cycle"
    );
    Ok(())
}

/// A chain over `n` vertices of arcs that cost -1, the last arc first.
fn chain(alloc: Global, n: u32) -> Result<Vec<Arc>, AllocError> {
    let mut arcs = Vec::new(alloc);
    for vertex in (1..n).rev() {
        arcs.push(arc(vertex - 1, vertex, -1))?;
    }
    Ok(arcs)
}

/// A chain over the most vertices, among as many arcs more as there may be, that cost too much.
fn largest(alloc: Global) -> Result<Vec<Arc>, AllocError> {
    let mut arcs = chain(alloc, MAX_VERTICES)?;
    let mut random = Random { state: 2 };
    for _ in arcs.len()..MAX_ARCS - 1 {
        arcs.push(arc(
            random.below(MAX_VERTICES),
            random.below(MAX_VERTICES),
            5_000,
        ))?;
    }
    Ok(arcs)
}

#[test]
fn the_largest_graphs_are_answered(rt: HostRuntime) -> Result<(), Fail> {
    for (cost, len) in [(4_000, 0), (3_999, MAX_VERTICES as usize)] {
        let mut arcs = largest(rt.alloc())?;
        arcs.push(arc(MAX_VERTICES - 1, 0, cost))?;
        let found = by_labels(&rt, rt.alloc(), MAX_VERTICES, &arcs)?;
        assert!(rt; is_of_len(MAX_VERTICES, &arcs, &found, len));
    }
    Ok(())
}

#[test]
fn a_ring_in_front_is_named(rt: HostRuntime) -> Result<(), Fail> {
    let mut arcs = Vec::new(rt.alloc());
    for vertex in 0..MAX_VERTICES {
        arcs.push(arc(vertex, (vertex + 1) % MAX_VERTICES, -1))?;
    }
    arcs.push(arc(5, 4, -100))?;
    let found = by_labels(&rt, rt.alloc(), MAX_VERTICES, &arcs)?;
    assert!(rt; is_of_len(MAX_VERTICES, &arcs, &found, MAX_VERTICES as usize));
    Ok(())
}

#[test]
fn a_table_of_many_levels_answers(rt: HostRuntime) -> Result<(), Fail> {
    for (cost, len) in [(1_000, 0), (999, 1_001)] {
        let mut arcs = chain(rt.alloc(), 1_001)?;
        arcs.push(arc(1_000, 0, cost))?;
        let found = by_levels(&rt, rt.alloc(), 1_001, &arcs)?;
        assert!(rt; is_of_len(1_001, &arcs, &found, len));
    }
    Ok(())
}

#[test]
fn arcs_are_told_from_others(rt: HostRuntime) {
    const MOST: i64 = 10_000_000_000_000;
    let rows = [
        (arc(2, 2, MOST), true),
        (arc(2, 2, -MOST), true),
        (arc(2, 2, MOST + 1), false),
        (arc(2, 2, -MOST - 1), false),
        (arc(2, 2, i64::MIN), false),
        (arc(3, 2, 0), false),
        (arc(2, 3, 0), false),
    ];
    for (row, (last, wanted)) in rows.iter().enumerate() {
        assert_eq!(rt; are_arcs(3, &[arc(0, 1, 1), *last]), *wanted, "row {row}");
    }
    assert!(rt; are_arcs(0, &[]));
}
