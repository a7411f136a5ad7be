//! Projects that are adjusted, with the reports and the blocks that are printed.
use crate::helpers::{AT_GSI, AT_REPORT, adjust_into, are_same, sinks};
use crate::projects::{
    A_AT_100, LIMIT, LONGEST_SIGHT, MISREAD_SIGHT, ONE_SIGHT, THERE_AND_BACK, TWICE_AND_BACK,
};
use std::process::Abort;

/// A book, its benchmarks and weights, the limit of blunders, the report, and the heights as blocks.
type Printed = (
    &'static [u8],
    &'static [u8],
    &'static [u8],
    i64,
    &'static str,
    &'static str,
);

/// The blocks of A at 100 m and B at 102.545 m.
const B_AT_102_545: &str = "*110001+000000000000000A 83..48+0000000010000000 \r
*110002+000000000000000B 83..48+0000000010254500 \r
";

/// The blocks of A at 100 m and B at 102.546 m.
const B_AT_102_546: &str = "*110001+000000000000000A 83..48+0000000010000000 \r
*110002+000000000000000B 83..48+0000000010254600 \r
";

const PRINTED: [Printed; 10] = [
    // One sight.
    (
        ONE_SIGHT,
        A_AT_100,
        b"",
        LIMIT,
        "HEIGHT NETWORK REPORT
points                                 2
benchmarks                             1
observations                           1
cost                                   0
blunder limit                 0.02000000

POINT                           HEIGHT
A                         100.00000000  B
B                         102.54500000

   NO  BK      LINE  FROM              TO                  WT              RESIDUAL
    1   1         2  A                 B                    1            0.00000000

blunders                               0

opposites                              0
",
        B_AT_102_545,
    ),
    // Of three sights the last is a blunder above 2 cm, and above a hair less than its residual,
    // but not above just that.
    (
        MISREAD_SIGHT,
        A_AT_100,
        b"",
        LIMIT,
        "HEIGHT NETWORK REPORT
points                                 2
benchmarks                             1
observations                           3
cost                           100000000
blunder limit                 0.02000000

POINT                           HEIGHT
A                         100.00000000  B
B                         102.54600000

   NO  BK      LINE  FROM              TO                  WT              RESIDUAL
    1   1         2  A                 B                    1           -0.00100000
    2   1         3  A                 B                    1            0.00000000
    3   1         4  A                 B                    1            0.99900000  *

blunders                               1
    3   1         4  A                 B                    1            0.99900000  *

opposites                              0
",
        B_AT_102_546,
    ),
    (
        MISREAD_SIGHT,
        A_AT_100,
        b"",
        99_899_900,
        "HEIGHT NETWORK REPORT
points                                 2
benchmarks                             1
observations                           3
cost                           100000000
blunder limit                 0.99899900

POINT                           HEIGHT
A                         100.00000000  B
B                         102.54600000

   NO  BK      LINE  FROM              TO                  WT              RESIDUAL
    1   1         2  A                 B                    1           -0.00100000
    2   1         3  A                 B                    1            0.00000000
    3   1         4  A                 B                    1            0.99900000  *

blunders                               1
    3   1         4  A                 B                    1            0.99900000  *

opposites                              0
",
        B_AT_102_546,
    ),
    (
        MISREAD_SIGHT,
        A_AT_100,
        b"",
        99_900_000,
        "HEIGHT NETWORK REPORT
points                                 2
benchmarks                             1
observations                           3
cost                           100000000
blunder limit                 0.99900000

POINT                           HEIGHT
A                         100.00000000  B
B                         102.54600000

   NO  BK      LINE  FROM              TO                  WT              RESIDUAL
    1   1         2  A                 B                    1           -0.00100000
    2   1         3  A                 B                    1            0.00000000
    3   1         4  A                 B                    1            0.99900000

blunders                               0

opposites                              0
",
        B_AT_102_546,
    ),
    // The least limit.
    (
        MISREAD_SIGHT,
        A_AT_100,
        b"",
        0,
        "HEIGHT NETWORK REPORT
points                                 2
benchmarks                             1
observations                           3
cost                           100000000
blunder limit                 0.00000000

POINT                           HEIGHT
A                         100.00000000  B
B                         102.54600000

   NO  BK      LINE  FROM              TO                  WT              RESIDUAL
    1   1         2  A                 B                    1           -0.00100000  *
    2   1         3  A                 B                    1            0.00000000
    3   1         4  A                 B                    1            0.99900000  *

blunders                               2
    1   1         2  A                 B                    1           -0.00100000  *
    3   1         4  A                 B                    1            0.99900000  *

opposites                              0
",
        B_AT_102_546,
    ),
    // A sight back is set beside the one there.
    (
        THERE_AND_BACK,
        A_AT_100,
        b"from,to,weight\nA,B,3\n",
        LIMIT,
        "HEIGHT NETWORK REPORT
points                                 2
benchmarks                             1
observations                           2
cost                             1000000
blunder limit                 0.02000000

POINT                           HEIGHT
A                         100.00000000  B
B                         102.54500000

   NO  BK      LINE  FROM              TO                  WT              RESIDUAL
    1   1         2  A                 B                    3            0.00000000
    2   1         4  B                 A                    1           -0.01000000

blunders                               0

opposites                              1
    2      1  B                 A                          -0.01000000
",
        B_AT_102_545,
    ),
    // Each sight is set beside the last one the other way round. The limit is the largest.
    (
        TWICE_AND_BACK,
        A_AT_100,
        b"",
        100_000_000_000,
        "HEIGHT NETWORK REPORT
points                                 2
benchmarks                             1
observations                           4
cost                             1000000
blunder limit              1000.00000000

POINT                           HEIGHT
A                         100.00000000  B
B                         102.54500000

   NO  BK      LINE  FROM              TO                  WT              RESIDUAL
    1   1         2  A                 B                    1            0.00000000
    2   1         3  A                 B                    1            0.00000000
    3   1         5  B                 A                    1           -0.01000000
    4   1         7  A                 B                    1            0.00000000

blunders                               0

opposites                              2
    3      2  B                 A                          -0.01000000
    4      3  A                 B                          -0.01000000
",
        B_AT_102_545,
    ),
    // The longest difference, and the largest residual.
    (
        LONGEST_SIGHT,
        A_AT_100,
        b"",
        LIMIT,
        "HEIGHT NETWORK REPORT
points                                 2
benchmarks                             1
observations                           1
cost                                   0
blunder limit                 0.02000000

POINT                           HEIGHT
A                         100.00000000  B
B                       30100.00000000

   NO  BK      LINE  FROM              TO                  WT              RESIDUAL
    1   1         2  A                 B                    1            0.00000000

blunders                               0

opposites                              0
",
        "*110001+000000000000000A 83..48+0000000010000000 \r
*110002+000000000000000B 83..48+0000003010000000 \r
",
    ),
    (
        LONGEST_SIGHT,
        b"point,height\nA,10000\nB,-10000\n",
        b"",
        LIMIT,
        "HEIGHT NETWORK REPORT
points                                 2
benchmarks                             2
observations                           1
cost                       5000000000000
blunder limit                 0.02000000

POINT                           HEIGHT
A                       10000.00000000  B
B                      -10000.00000000  B

   NO  BK      LINE  FROM              TO                  WT              RESIDUAL
    1   1         2  A                 B                    1        50000.00000000  *

blunders                               1
    1   1         2  A                 B                    1        50000.00000000  *

opposites                              0
",
        "*110001+000000000000000A 83..48+0000001000000000 \r
*110002+000000000000000B 83..48-0000001000000000 \r
",
    ),
    // No points.
    (
        b"",
        b"point,height\n",
        b"",
        LIMIT,
        "HEIGHT NETWORK REPORT
points                                 0
benchmarks                             0
observations                           0
cost                                   0
blunder limit                 0.02000000

POINT                           HEIGHT

   NO  BK      LINE  FROM              TO                  WT              RESIDUAL

blunders                               0

opposites                              0
",
        "",
    ),
];

/// Adjusts a project, and looks at its report and its blocks.
fn print_row<R: AllocGlobal + Abort>(rt: &R, row: &Printed) {
    let (book, benchmarks, weights, limit, report, blocks) = *row;
    let mut outs = sinks(rt);
    let answer = adjust_into(rt, (book, benchmarks, weights), limit, &mut outs);
    assert_eq!(rt; answer, Ok(()), "{report}");
    are_same(rt, outs[AT_REPORT].bytes(), report.as_bytes(), report);
    are_same(rt, outs[AT_GSI].bytes(), blocks.as_bytes(), report);
}

#[test]
fn prints_the_report_and_the_heights_as_blocks(rt: HostRuntime) {
    for row in &PRINTED {
        print_row(&rt, row);
    }
}
