//! Small networks, their worked strengths and controls, and what a mistake in an observation moves.
use crate::entries::{Moved, Order, is_one_of};
use std::alloc::Global;
use std::process::Abort;
use th_book::read_book;
use th_network::Network;
use th_observations::Observation;
use th_progress::Silent;
use th_reliability::{Mistake, Reliability};
use th_tables::{Benchmarks, Weights, read_benchmarks, read_weights};

/// A book line by line, the tables of its benchmarks and weights, and what they make: the points in
/// point order with their strengths, and the controls of the observations.
pub(crate) type Worked = (
    &'static [&'static [u8]],
    &'static [u8],
    &'static [u8],
    &'static [(&'static [u8], Option<u32>)],
    &'static [Option<u32>],
);

/// A site with one benchmark, tied by two single sights.
pub(crate) const BUILDING_SITE: Worked = (
    &[
        b"410001+00000007 42....+000SITE4 \n",
        b"110002+00000KO1 84..10+00000000 87..10+00001500 88..10+00001545 \n",
        b"110003+0000BM12 31..00+00027472 33..10+00001227 \n",
        b"110004+00000KO2 31..00+00053041 33..10+00002750 \n",
        b"110005+00000KO3 31..00+00041877 33..10+00001498 \n",
        b"110006+000000D1 31..00+00022204 33..10+00000573 \n",
        b"110007+00000KO2 84..10+00000000 87..10+00001500 88..10+00001580 \n",
        b"110008+00000KO1 31..00+00053040 33..10-00002876 \n",
        b"110009+0000BM12 31..00+00038811 33..10-00001602 \n",
        b"110010+00000KO3 31..00+00030112 33..10-00001331 \n",
        b"110011+000000D1 31..00+00040120 33..10-00001257 87..10+00002500 \n",
        b"110012+00000KO3 84..10+00000000 87..10+00001500 88..10+00001602 \n",
        b"110013+00000KO2 31..00+00030113 33..10+00001150 \n",
        b"110014+000000D1 31..00+00018554 33..10-00000027 \n",
        b"110015+00000KO1 31..00+00041877 33..10-00001646 \n",
    ],
    b"point,height\nBM12,251.384\n",
    b"",
    &[
        (b"KO1", Some(2)),
        (b"BM12", None),
        (b"KO2", Some(2)),
        (b"KO3", Some(2)),
        (b"D1", Some(2)),
    ],
    &[
        Some(1),
        Some(5),
        Some(4),
        Some(2),
        Some(5),
        Some(1),
        Some(4),
        Some(2),
        Some(4),
        Some(2),
        Some(4),
    ],
);

/// A cellar with one benchmark.
const CELLAR: Worked = (
    &[
        b"410001+00000009 42....+00CELLAR \n",
        b"110002+000000G1 84..10+00000000 87..10+00001200 88..10+00001498 \n",
        b"110003+000000G2 33..10-00002415 \n",
        b"110004+000000G2 33..10-00002417 \n",
        b"110005+000000G2 84..10+00000000 87..10+00001200 88..10+00001523 \n",
        b"110006+000000S1 33..10-00003120 \n",
        b"110007+000000S2 33..10-00002984 \n",
        b"110008+000000S1 84..10+00000000 87..10+00001200 88..10+00001510 \n",
        b"110009+000000S2 33..10-00000174 \n",
    ],
    b"point,height\nG1,98.750\n",
    b"",
    &[
        (b"G1", None),
        (b"G2", Some(2)),
        (b"S1", Some(2)),
        (b"S2", Some(2)),
    ],
    &[Some(1), Some(1), Some(1), Some(1), Some(1)],
);

/// A dam with weights.
pub(crate) const DAM: Worked = (
    &[
        b"410001+00000003 42....+000CREST \n",
        b"110002+000000P1 84..10+00000000 87..10+00001300 88..10+00001612 \n",
        b"110003+00ROCK L 33..10-00000997 \n",
        b"110004+000000C1 33..10+00000490 \n",
        b"110005+000000C2 33..10+00000494 \n",
        b"110006+000000C3 33..10+00000485 \n",
        b"110007+000000C4 33..10+00000492 \n",
        b"110008+00ROCK R 33..10-00001532 \n",
        b"110009+000000C1 84..10+00000000 87..10+00001300 88..10+00001540 \n",
        b"110010+000000P1 33..10-00001042 \n",
        b"110011+000000C2 33..10-00000235 \n",
        b"110012+000000C3 33..10-00000242 \n",
        b"110013+000000C4 33..10-00000238 \n",
        b"110014+00ROCK L 33..10-00001725 \n",
        b"110015+000000C4 84..10+00000000 87..10+00001300 88..10+00001555 \n",
        b"110016+000000C3 33..10-00000260 \n",
        b"110017+000000C2 33..10-00000253 \n",
        b"110018+00ROCK R 33..10-00002279 \n",
        b"110019+000000P1 33..10-00001058 \n",
    ],
    b"point,height\nROCK L,1204.518\nROCK R,1203.977\n",
    b"from,to,weight\nP1,ROCK L,4\nP1,C1,2\nP1,C2,2\nP1,C3,2\nP1,C4,2\nP1,ROCK R,2\n",
    &[
        (b"P1", Some(8)),
        (b"ROCK L", None),
        (b"C1", Some(7)),
        (b"C2", Some(4)),
        (b"C3", Some(4)),
        (b"C4", Some(7)),
        (b"ROCK R", None),
    ],
    &[
        Some(4),
        Some(5),
        Some(2),
        Some(2),
        Some(5),
        Some(6),
        Some(6),
        Some(3),
        Some(3),
        Some(6),
        Some(6),
        Some(3),
        Some(3),
        Some(6),
        Some(6),
    ],
);

/// A line there and back between two bolts.
pub(crate) const RAILWAY_LINE: Worked = (
    &[
        b"*410001+0000000000000112 42....+0000000000TRACK1 \n",
        b"*110002+00000000FP 112/1 84..10+0000000000000000 88..16+0000000000015820 \n",
        b"*110003+00000000FP 112/3 33..16+0000000000005353 87..10+0000000000001300 \n",
        b"*110004+00000000FP 112/3 84..10+0000000000000000 88..16+0000000000015827 \n",
        b"*110005+00000000FP 112/5 33..16+0000000000002896 87..10+0000000000001300 \n",
        b"*110006+00000000FP 112/5 84..10+0000000000000000 88..16+0000000000015834 \n",
        b"*110007+00000000FP 112/7 33..16-0000000000005374 87..10+0000000000001300 \n",
        b"*110008+00000000FP 112/7 84..10+0000000000000000 88..16+0000000000015841 \n",
        b"*110009+00000000FP 112/9 33..16+0000000000008515 87..10+0000000000001300 \n",
        b"*410001+0000000000000112 42....+0000000000TRACK1 \n",
        b"*110002+00000000FP 112/9 84..10+0000000000000000 88..16+0000000000015990 \n",
        b"*110003+00000000FP 112/7 33..16-0000000000014339 87..10+0000000000001300 \n",
        b"*110004+00000000FP 112/7 84..10+0000000000000000 88..16+0000000000015995 \n",
        b"*110005+00000000FP 112/5 33..16-0000000000000453 87..10+0000000000001300 \n",
        b"*110006+00000000FP 112/5 84..10+0000000000000000 88..16+0000000000016000 \n",
        b"*110007+00000000FP 112/3 33..16-0000000000008723 87..10+0000000000001300 \n",
        b"*110008+00000000FP 112/3 84..10+0000000000000000 88..16+0000000000016005 \n",
        b"*110009+00000000FP 112/1 33..16-0000000000011179 87..10+0000000000001300 \n",
    ],
    b"point,height\nFP 112/1,412.7310\nFP 112/9,415.0021\n",
    b"",
    &[
        (b"FP 112/1", None),
        (b"FP 112/3", Some(4)),
        (b"FP 112/5", Some(4)),
        (b"FP 112/7", Some(4)),
        (b"FP 112/9", None),
    ],
    &[
        Some(3),
        Some(3),
        Some(3),
        Some(3),
        Some(3),
        Some(3),
        Some(3),
        Some(3),
    ],
);

/// A sight between two benchmarks, and one from them to a point.
pub(crate) const BETWEEN_BENCHMARKS: Worked = (
    &[
        b"110001+0000000A 84..10+00000000 87..10+00001200 88..10+00001500 \n",
        b"110002+0000000B 33..10-00002345 \n",
        b"110003+0000000C 33..10-00002345 \n",
    ],
    b"point,height\nA,100\nB,103\n",
    b"",
    &[(b"A", None), (b"B", None), (b"C", Some(1))],
    &[None, Some(0)],
);

/// Two sights of one point: of weight 3, and of weight 1 in the other direction.
pub(crate) const THERE_AND_BACK: Worked = (
    &[
        b"110001+0000000A 84..10+00000000 87..10+00001200 88..10+00001500 \n",
        b"110002+0000000B 33..10-00002345 \n",
        b"110003+0000000B 84..10+00000000 87..10+00001200 88..10+00001500 \n",
        b"110004+0000000A 33..10-00002345 \n",
    ],
    b"point,height\nA,100\n",
    b"from,to,weight\nA,B,3\n",
    &[(b"A", None), (b"B", Some(4))],
    &[Some(1), Some(3)],
);

/// No observation, and one benchmark.
pub(crate) const ALONE: Worked = (&[], b"point,height\nA,100\n", b"", &[(b"A", None)], &[]);

/// No observation, and no benchmark either.
pub(crate) const NOTHING: Worked = (&[], b"point,height\n", b"", &[], &[]);

/// Sights between benchmarks, and no point that is none.
pub(crate) const BENCHMARKS_ALONE: Worked = (
    &[
        b"110001+0000000A 84..10+00000000 87..10+00001200 88..10+00001500 \n",
        b"110002+0000000B 33..10-00002345 \n",
        b"110003+0000000B 33..10-00002346 \n",
    ],
    b"point,height\nA,100\nB,103\nX,5\n",
    b"",
    &[(b"A", None), (b"B", None), (b"X", None)],
    &[None, None],
);

const ROWS: [Worked; 9] = [
    BUILDING_SITE,
    CELLAR,
    DAM,
    RAILWAY_LINE,
    BETWEEN_BENCHMARKS,
    THERE_AND_BACK,
    ALONE,
    NOTHING,
    BENCHMARKS_ALONE,
];

#[test]
fn networks_have_the_worked_strengths_and_controls(rt: HostRuntime) {
    for row in &ROWS {
        try_row(&rt, rt.alloc(), row);
    }
}

/// The observations of a book line by line.
pub(crate) fn observations_of(rt: &impl Abort, alloc: Global, lines: &[&[u8]]) -> Vec<Observation> {
    let mut book = Vec::new(alloc);
    for line in lines {
        book.extend_from_slice(line).expect(rt, "memory");
    }
    read_book(alloc, 1, &book).expect(rt, "observations")
}

/// The tables of these texts.
pub(crate) fn tables_of(
    rt: &impl Abort,
    alloc: Global,
    benchmarks: &[u8],
    weights: &[u8],
) -> (Benchmarks, Weights) {
    let benchmarks = read_benchmarks(alloc, benchmarks).expect(rt, "benchmarks");
    let weights = read_weights(alloc, weights).expect(rt, "weights");
    (benchmarks, weights)
}

/// The network of observations and tables.
pub(crate) fn network_of<'a>(
    rt: &impl Abort,
    alloc: Global,
    observations: Vec<Observation>,
    tables: &'a (Benchmarks, Weights),
) -> Network<'a> {
    Network::build(alloc, observations, &tables.0, &tables.1).expect(rt, "a network")
}

/// Tries the points, the strengths and the controls of a worked network.
fn try_row(rt: &impl Abort, alloc: Global, row: &Worked) {
    let (lines, benchmarks, weights, strengths, controls) = *row;
    let tables = tables_of(rt, alloc, benchmarks, weights);
    let network = network_of(rt, alloc, observations_of(rt, alloc, lines), &tables);
    has_points(rt, &network, strengths);
    let found = Reliability::of(alloc, &network, &mut Silent).expect(rt, "memory");
    has_strengths(rt, &found, strengths);
    has_controls(rt, &found, controls);
}

fn has_points(rt: &impl Abort, network: &Network, points: &[(&'static [u8], Option<u32>)]) {
    assert_eq!(rt; network.points().len(), points.len());
    for (k, (name, _)) in points.iter().enumerate() {
        let found = network.points();
        assert!(rt; k < found.len());
        assert!(rt; found[k].as_bytes() == *name, "point {k}");
    }
}

fn has_strengths(rt: &impl Abort, found: &Reliability, points: &[(&'static [u8], Option<u32>)]) {
    assert_eq!(rt; found.strengths.len(), points.len());
    for (k, (_, strength)) in points.iter().enumerate() {
        assert!(rt; k < found.strengths.len());
        assert!(rt; found.strengths[k] == *strength, "point {k}");
    }
}

fn has_controls(rt: &impl Abort, found: &Reliability, controls: &[Option<u32>]) {
    assert_eq!(rt; found.controls.len(), controls.len());
    for (k, control) in controls.iter().enumerate() {
        assert!(rt; k < found.controls.len());
        assert!(rt; found.controls[k] == *control, "observation {k}");
    }
}

/// What a mistake in each observation moves; nothing where it shows.
const OWN_MOVES: [(Worked, &[&[Moved]]); 3] = [
    (BETWEEN_BENCHMARKS, &[&[], &[(1, 0, None)]]),
    (THERE_AND_BACK, &[&[(1, 1, Some(2))], &[]]),
    (
        BUILDING_SITE,
        &[
            &[(4, 1, Some(6))],
            &[],
            &[],
            &[],
            &[],
            &[(4, 1, Some(1))],
            &[],
            &[],
            &[],
            &[],
            &[],
        ],
    ),
];

#[test]
fn mistakes_move_the_sets_of_their_controls(rt: HostRuntime) {
    for (row, moves) in &OWN_MOVES {
        try_moves(&rt, rt.alloc(), row, moves);
    }
}

/// Tries what a mistake in each observation of a worked network moves.
fn try_moves(rt: &impl Abort, alloc: Global, row: &Worked, moves: &[&[Moved]]) {
    let (lines, benchmarks, weights, _, _) = *row;
    let tables = tables_of(rt, alloc, benchmarks, weights);
    let network = network_of(rt, alloc, observations_of(rt, alloc, lines), &tables);
    let found = Reliability::of(alloc, &network, &mut Silent).expect(rt, "memory");
    has_blames(rt, &found, moves);
}

fn has_blames(rt: &impl Abort, found: &Reliability, moves: &[&[Moved]]) {
    assert_eq!(rt; found.blames.len(), moves.len());
    for (k, allowed) in moves.iter().enumerate() {
        assert!(rt; k < found.blames.len());
        assert!(rt;
            is_one_of(found.blames[k], allowed, Order::Lines),
            "observation {k}"
        );
    }
}

/// A control, a weight, and what a mistake does.
const MISTAKES: [(Option<u32>, u32, Mistake); 7] = [
    (None, 1, Mistake::Shows),
    (Some(0), 1, Mistake::Unchecked),
    (Some(0), 1000, Mistake::Unchecked),
    (Some(1), 2, Mistake::Hides),
    (Some(2), 2, Mistake::Ties),
    (Some(3), 2, Mistake::Shows),
    (Some(1), 1, Mistake::Ties),
];

#[test]
fn mistakes_follow_control_and_weight(rt: HostRuntime) {
    for (control, weight, mistake) in &MISTAKES {
        assert!(rt; Mistake::of(*control, *weight) == *mistake);
    }
}
