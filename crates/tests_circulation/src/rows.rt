//! Worked surveys settled over both searches: known lowest and highest heights, costs and flows.
use crate::settling::{Outcome, cost_of, settled_over_both};
use crate::surveys::{
    A_AT_100, BACK, LONGER, ONWARDS, SETUP, SIGHT, Survey, joined, network_of, tables_of,
};
use std::alloc::Global;
use std::process::Abort;
use th_network::Network;

/// A survey and what it is settled to: the lowest and the highest best heights, their cost, the flows
/// that are forced, and how many steps there are at most, 88 times the sum of the weights.
#[derive(Drop)]
struct Row {
    survey: Survey,
    low: &'static [i64],
    high: &'static [i64],
    cost: u128,
    flows: &'static [Option<i64>],
    most_steps: u128,
}

const ROWS: [Row; 16] = [
    // One sight.
    Row {
        survey: Survey {
            book: &[SETUP, SIGHT],
            benchmarks: A_AT_100,
            weights: b"",
        },
        low: &[10_000_000_000, 10_254_500_000],
        high: &[10_000_000_000, 10_254_500_000],
        cost: 0,
        flows: &[Some(0)],
        most_steps: 88,
    },
    // One sight in feet, of 16 places.
    Row {
        survey: Survey {
            book: &[
                SETUP,
                b"*110002+000000000000000B 33..07+0000000000076940 87..08+0000000000130000 \n",
            ],
            benchmarks: A_AT_100,
            weights: b"",
        },
        low: &[10_000_000_000, 10_254_513_120],
        high: &[10_000_000_000, 10_254_513_120],
        cost: 0,
        flows: &[Some(0)],
        most_steps: 88,
    },
    // Three sights, one of them misread by a metre.
    Row {
        survey: Survey {
            book: &[
                SETUP,
                SIGHT,
                b"110003+0000000B 33..00+00002346 \n110004+0000000B 33..00+00003345 \n",
            ],
            benchmarks: A_AT_100,
            weights: b"",
        },
        low: &[10_000_000_000, 10_254_600_000],
        high: &[10_000_000_000, 10_254_600_000],
        cost: 100_000_000,
        flows: &[Some(-1), Some(0), Some(1)],
        most_steps: 264,
    },
    // The same, misread by ten kilometres.
    Row {
        survey: Survey {
            book: &[
                SETUP,
                SIGHT,
                b"110003+0000000B 33..00+00002346 \n110004+0000000B 33..00+09003345 \n",
            ],
            benchmarks: A_AT_100,
            weights: b"",
        },
        low: &[10_000_000_000, 10_254_600_000],
        high: &[10_000_000_000, 10_254_600_000],
        cost: 900_100_000_000,
        flows: &[Some(-1), Some(0), Some(1)],
        most_steps: 264,
    },
    // Two sights that differ: each height between them costs as much.
    Row {
        survey: Survey {
            book: &[SETUP, SIGHT, LONGER],
            benchmarks: A_AT_100,
            weights: b"",
        },
        low: &[10_000_000_000, 10_254_500_000],
        high: &[10_000_000_000, 10_254_700_000],
        cost: 200_000,
        flows: &[Some(-1), Some(1)],
        most_steps: 176,
    },
    // The same, and on from B to C, which goes with B.
    Row {
        survey: Survey {
            book: &[SETUP, SIGHT, LONGER, ONWARDS],
            benchmarks: A_AT_100,
            weights: b"",
        },
        low: &[10_000_000_000, 10_254_500_000, 10_354_500_000],
        high: &[10_000_000_000, 10_254_700_000, 10_354_700_000],
        cost: 200_000,
        flows: &[Some(-1), Some(1), Some(0)],
        most_steps: 264,
    },
    // The second sight is seen from its other end.
    Row {
        survey: Survey {
            book: &[SETUP, SIGHT, BACK],
            benchmarks: A_AT_100,
            weights: b"",
        },
        low: &[10_000_000_000, 10_254_500_000],
        high: &[10_000_000_000, 10_254_700_000],
        cost: 200_000,
        flows: &[Some(-1), Some(-1)],
        most_steps: 176,
    },
    // And weighs three times as much.
    Row {
        survey: Survey {
            book: &[SETUP, SIGHT, BACK],
            benchmarks: A_AT_100,
            weights: b"from,to,weight\nB,A,3\n",
        },
        low: &[10_000_000_000, 10_254_700_000],
        high: &[10_000_000_000, 10_254_700_000],
        cost: 200_000,
        flows: &[Some(-1), Some(-1)],
        most_steps: 352,
    },
    // A to B 1 m, B to C 1 m, C to A -2 m, and A to C 2.5 m.
    Row {
        survey: Survey {
            book: &[
                b"110001+0000000A 84..10+00000000 88..10+00001500 \n110002+0000000B 33..00+00001000 87..10+00001500 \n",
                b"110003+0000000B 84..10+00000000 88..10+00001500 \n110004+0000000C 33..00+00001000 87..10+00001500 \n",
                b"110005+0000000C 84..10+00000000 88..10+00001500 \n110006+0000000A 33..00-00002000 87..10+00001500 \n",
                b"110007+0000000A 84..10+00000000 88..10+00001500 \n110008+0000000C 33..00+00002500 87..10+00001500 \n",
            ],
            benchmarks: A_AT_100,
            weights: b"",
        },
        low: &[10_000_000_000, 10_100_000_000, 10_200_000_000],
        high: &[10_000_000_000, 10_100_000_000, 10_200_000_000],
        cost: 50_000_000,
        flows: &[None, None, None, Some(1)],
        most_steps: 352,
    },
    // A to B three times as heavy as B to A, which is 1 cm longer.
    Row {
        survey: Survey {
            book: &[
                SETUP,
                SIGHT,
                b"110003+0000000B 84..10+00000000 88..10+00001450 \n110004+0000000A 33..00-00002705 87..10+00001300 \n",
            ],
            benchmarks: A_AT_100,
            weights: b"from,to,weight\nA,B,3\n",
        },
        low: &[10_000_000_000, 10_254_500_000],
        high: &[10_000_000_000, 10_254_500_000],
        cost: 1_000_000,
        flows: &[Some(-1), Some(-1)],
        most_steps: 352,
    },
    // Both ends are benchmarks.
    Row {
        survey: Survey {
            book: &[SETUP, SIGHT],
            benchmarks: b"point,height\nA,100\nB,103\n",
            weights: b"",
        },
        low: &[10_000_000_000, 10_300_000_000],
        high: &[10_000_000_000, 10_300_000_000],
        cost: 45_500_000,
        flows: &[Some(-1)],
        most_steps: 88,
    },
    // No observations.
    Row {
        survey: Survey {
            book: &[],
            benchmarks: A_AT_100,
            weights: b"",
        },
        low: &[10_000_000_000],
        high: &[10_000_000_000],
        cost: 0,
        flows: &[],
        most_steps: 0,
    },
    // No points.
    Row {
        survey: Survey {
            book: &[],
            benchmarks: b"point,height\n",
            weights: b"",
        },
        low: &[],
        high: &[],
        cost: 0,
        flows: &[],
        most_steps: 0,
    },
    // A point between two benchmarks that are 1.455 m further apart than its sights say.
    Row {
        survey: Survey {
            book: &[SETUP, SIGHT, ONWARDS],
            benchmarks: b"point,height\nA,100\nC,105\n",
            weights: b"",
        },
        low: &[10_000_000_000, 10_254_500_000, 10_500_000_000],
        high: &[10_000_000_000, 10_400_000_000, 10_500_000_000],
        cost: 145_500_000,
        flows: &[Some(-1), Some(-1)],
        most_steps: 176,
    },
    // A benchmark that nobody sees.
    Row {
        survey: Survey {
            book: &[SETUP, SIGHT],
            benchmarks: b"point,height\nA,100\nZ,5\n",
            weights: b"",
        },
        low: &[10_000_000_000, 10_254_500_000, 500_000_000],
        high: &[10_000_000_000, 10_254_500_000, 500_000_000],
        cost: 0,
        flows: &[Some(0)],
        most_steps: 88,
    },
    // Five sights of B and three longer ones, each of weight 1000: 3,000 units flow.
    Row {
        survey: Survey {
            book: &[
                SETUP, SIGHT, SIGHT, SIGHT, SIGHT, SIGHT, LONGER, LONGER, LONGER,
            ],
            benchmarks: A_AT_100,
            weights: b"from,to,weight\nA,B,1000\n",
        },
        low: &[10_000_000_000, 10_254_500_000],
        high: &[10_000_000_000, 10_254_500_000],
        cost: 600_000_000,
        flows: &[
            None,
            None,
            None,
            None,
            None,
            Some(1000),
            Some(1000),
            Some(1000),
        ],
        most_steps: 704_000,
    },
];

/// Compares what a survey was settled to with its row.
fn compare(rt: &impl Abort, network: &Network, row: &Row, outcome: &Outcome) {
    let heights = outcome.settled.heights.as_slice();
    assert_eq!(rt; outcome.spans.low.as_slice(), row.low);
    assert_eq!(rt; outcome.spans.high.as_slice(), row.high);
    let costs = [
        cost_of(network, heights),
        cost_of(network, row.low),
        cost_of(network, row.high),
    ];
    assert_eq!(rt; costs, [row.cost; 3]);
    assert!(rt; outcome.steps <= row.most_steps);
    assert!(rt; are_between(row.low, heights, row.high));
    compare_flows(rt, outcome.settled.flows.as_slice(), row.flows);
}

/// Whether there are as many heights as lowest ones, and each is between its lowest and its highest.
fn are_between(low: &[i64], heights: &[i64], high: &[i64]) -> bool {
    heights.len() == low.len()
        && heights
            .iter()
            .zip(low.iter().zip(high))
            .all(|(height, (low, high))| low <= height && height <= high)
}

/// Compares flows with those that are forced.
fn compare_flows(rt: &impl Abort, flows: &[i64], forced: &[Option<i64>]) {
    assert_eq!(rt; flows.len(), forced.len());
    for (flow, wanted) in flows.iter().zip(forced) {
        assert_eq!(rt; *flow, wanted.unwrap_or(*flow));
    }
}

/// The network of a survey, settled over both searches.
fn settle_row(rt: &impl Abort, alloc: Global, row: &Row) {
    let book = joined(rt, alloc, row.survey.book);
    let tables = tables_of(rt, alloc, row.survey.benchmarks, row.survey.weights);
    let network = network_of(rt, alloc, &book, &tables);
    for outcome in &settled_over_both(rt, alloc, &network) {
        compare(rt, &network, row, outcome);
    }
}

#[test]
fn rows_are_settled_over_both(rt: HostRuntime) {
    for row in &ROWS {
        settle_row(&rt, rt.alloc(), row);
    }
}
