//! Worked surveys with one wrong name or sign, whose sentences the second office wrote from the page on formats alone.
use crate::surveys::{ends_with, explained};
use std::alloc::Global;
use std::process::Abort;

/// 20 mm.
const LIMIT: i64 = 2_000_000;

/// A morning on a building site, observed right: the lines before line 8.
const BEFORE: &[u8] = b"410001+00000007 42....+000SITE4
110002+00000KO1 84..10+00000000 87..10+00001500 88..10+00001545
110003+0000BM12 31..00+00027472 33..10+00001227
110004+00000KO2 31..00+00053041 33..10+00002750
110005+00000KO3 31..00+00041877 33..10+00001498
110006+000000D1 31..00+00022204 33..10+00000573
110007+00000KO2 84..10+00000000 87..10+00001500 88..10+00001580
";

/// Line 8: a sight to KO1.
const LINE_8: &[u8] = b"110008+00000KO1 31..00+00053040 33..10-00002876\n";

/// Its target is written as D1.
const TO_D1: &[u8] = b"110008+000000D1 31..00+00053040 33..10-00002876\n";

/// The sign of its word 33 is missing.
const UNSIGNED: &[u8] = b"110008+00000KO1 31..00+00053040 33..10+00002876\n";

/// Lines 9 to 11.
const BETWEEN: &[u8] = b"110009+0000BM12 31..00+00038811 33..10-00001602
110010+00000KO3 31..00+00030112 33..10-00001331
110011+000000D1 31..00+00040120 33..10-00001257 87..10+00002500
";

/// Line 12: a setup on KO3.
const LINE_12: &[u8] = b"110012+00000KO3 84..10+00000000 87..10+00001500 88..10+00001602\n";

/// It is written as BM12.
const FROM_BM12: &[u8] = b"110012+0000BM12 84..10+00000000 87..10+00001500 88..10+00001602\n";

/// The lines behind line 12.
const AFTER: &[u8] = b"110013+00000KO2 31..00+00030113 33..10+00001150
110014+000000D1 31..00+00018554 33..10-00000027 87..10+00002500
110015+00000KO1 31..00+00041877 33..10-00001646 87..10+00001500
";

/// Its benchmark.
const MARKS: &[u8] = b"point,height\nBM12,251.384\n";

/// Three benchmarks, where the last one is KO1.
const WRONG_ROW: &[u8] = b"point,height\nBM12,251.384\nKO3,251.655\nD1,250.112\n";

/// Lines 8 and 12, the benchmarks, and how the text for people ends.
type Row = (&'static [u8], &'static [u8], &'static [u8], &'static [u8]);

const ROWS: [Row; 5] = [
    (
        LINE_8,
        LINE_12,
        MARKS,
        b"
Nothing to explain: no number has to be wrong by more than 0.02000000 m.
",
    ),
    (
        TO_D1,
        LINE_12,
        MARKS,
        b"
One wrong number explains this: the sight of line 8.
The sight of line 8: given -2.79600000, fits -2.17700000.
Line 8 fits KO1 in place of D1, within 0.00100000 m.
",
    ),
    (
        UNSIGNED,
        LINE_12,
        MARKS,
        b"
One wrong number explains this: the sight of line 8.
The sight of line 8: given 2.95600000, fits -2.79500000.
Line 8 fits with the other sign of word 33, within 0.00100000 m.
",
    ),
    (
        LINE_8,
        FROM_BM12,
        MARKS,
        b"
One wrong number explains this: word 88 of line 12.
Word 88 of line 12: given 1.60200000, fits from 1.87200000 to 1.87300000.
The setup of line 12 fits KO3 in place of BM12, within 0.00000000 m.
The next best leaves 0.27300000.
",
    ),
    (
        LINE_8,
        LINE_12,
        WRONG_ROW,
        b"
One wrong number explains this: the height of D1.
The height of D1: given 250.11200000, fits 250.73000000.
The height of D1 fits KO1, within 0.00000000 m.
The next best leaves 1.23800000.
",
    ),
];

#[test]
fn wrong_names_and_signs(rt: HostRuntime) {
    for (line_8, line_12, benchmarks, wanted) in &ROWS {
        try_row(
            &rt,
            rt.alloc(),
            &[BEFORE, line_8, BETWEEN, line_12, AFTER],
            benchmarks,
            wanted,
        );
    }
}

/// Tries a book of some parts.
fn try_row(rt: &impl Abort, alloc: Global, parts: &[&[u8]], benchmarks: &[u8], wanted: &[u8]) {
    let mut book = Vec::new(alloc);
    for part in parts {
        book.extend_from_slice(part).expect(rt, "memory");
    }
    let own = explained(rt, alloc, &[&book], benchmarks, b"", LIMIT);
    ends_with(rt, alloc, &own, wanted);
}
