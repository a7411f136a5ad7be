//! Worked surveys, byte by byte.
use crate::surveys::{are_printed, explained};

/// A morning on a building site. The instrument height of KO1 in line 2 was 1.545 m, and 1.645 m was
/// keyed in. So lines 8 and 15 are marked, both of which are right.
const BUILDING_SITE: &[u8] = b"410001+00000007 42....+000SITE4
110002+00000KO1 84..10+00000000 87..10+00001500 88..10+00001645
110003+0000BM12 31..00+00027472 33..10+00001227
110004+00000KO2 31..00+00053041 33..10+00002750
110005+00000KO3 31..00+00041877 33..10+00001498
110006+000000D1 31..00+00022204 33..10+00000573
110007+00000KO2 84..10+00000000 87..10+00001500 88..10+00001580
110008+00000KO1 31..00+00053040 33..10-00002876
110009+0000BM12 31..00+00038811 33..10-00001602
110010+00000KO3 31..00+00030112 33..10-00001331
110011+000000D1 31..00+00040120 33..10-00001257 87..10+00002500
110012+00000KO3 84..10+00000000 87..10+00001500 88..10+00001602
110013+00000KO2 31..00+00030113 33..10+00001150
110014+000000D1 31..00+00018554 33..10-00001027
110015+00000KO1 31..00+00041877 33..10-00001646
";

/// Its benchmark.
const MARKS: &[u8] = b"point,height\nBM12,251.384\n";

/// 20 mm.
const LIMIT: i64 = 2_000_000;

/// Its table.
const TABLE: &[u8] =
    b"number,kind,book,line,word,from,to,sights,given,low,high,explains,left,blunders,last,poles,instruments,reading,name,fit
1,instrument,1,2,88,KO1,,4,1.64500000,1.54600000,1.54600000,0.19800000,0.00200000,0,2,,1.54500000,,,
1,reflector,1,2,87,KO1,,4,1.50000000,1.59900000,1.59900000,0.19800000,0.00200000,0,2,,,,,
2,sight,1,8,,KO2,KO1,1,-2.79600000,-2.89500000,-2.89500000,0.09900000,0.10100000,1,,,,,,
2,sight,1,15,,KO3,KO1,1,-1.54400000,-1.64300000,-1.64300000,0.09900000,0.10100000,1,,,,,,
";

/// Its text for people.
const TEXT: &[u8] = b"cost                          0.20000000
blunder limit                 0.02000000
marked                                 2
sights                                11
entries                                6
changes                                9
benchmarks                             0
books                                  1
explanations                           4
  NO  BK    LINE  WORD  FROM              TO                     PROPOSED     COST LEFT BLUNDERS
   1   1       2    88  KO1                                    1.54600000    0.00200000        0
   1   1       2    87  KO1                                    1.59900000    0.00200000        0
   2   1       8        KO2               KO1                 -2.89500000    0.10100000        1
   2   1      15        KO3               KO1                 -1.64300000    0.10100000        1

One wrong number explains this: word 88 of line 2 or word 87 of line 2.
The books do not say which of them.
Word 88 of line 2: given 1.64500000, fits 1.54600000.
Word 87 of line 2: given 1.50000000, fits 1.59900000.
Or the setup stood on another point than KO1.
Word 88 of line 2: typed 1.64500000, meant 1.54500000?
The next best leaves 0.10100000.

If 1.54500000 was meant, height_office mend takes these changes:
line,word,value
2,88,1.54500000
";

#[test]
fn building_site(rt: HostRuntime) {
    let alloc = rt.alloc();
    let own = explained(&rt, alloc, &[BUILDING_SITE], MARKS, b"", LIMIT);
    are_printed(&rt, alloc, &own, TABLE, TEXT);
}
