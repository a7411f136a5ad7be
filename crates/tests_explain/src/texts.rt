//! The table and the text of a worked survey, byte by byte: a building site where the instrument height
//! of KO1 was keyed in wrong.
use gsi_word::{Name, name_of};
use std::alloc::Global;
use std::process::Abort;
use th_entries::HeightKind;
use th_explain_texts::{
    Kind, Named, ReadAs, ReadingRow, Row, Summary, Values, explanations_csv, explanations_text,
    ranked,
};

/// The name of a point.
fn name(rt: &impl Abort, bytes: &[u8]) -> Name {
    name_of(bytes).expect(rt, "a name")
}

/// The row of a number of KO1 in line 2, which has four sights.
fn entered(rt: &impl Abort, kind: Kind, given: i64, proposed: i64) -> Row {
    Row {
        number: 0,
        kind,
        book: Some(1),
        line: Some(2),
        last: Some(2),
        from: Some(name(rt, b"KO1")),
        to: None,
        sights: 4,
        values: Some(Values {
            given,
            low: proposed,
            high: proposed,
        }),
        explains: 19_800_000,
        left: 200_000,
        blunders: 0,
    }
}

/// The row of a sight of KO1.
fn sighted(rt: &impl Abort, line: u32, from: &[u8], given: i64, proposed: i64) -> Row {
    Row {
        number: 0,
        kind: Kind::Sight,
        book: Some(1),
        line: Some(line),
        last: None,
        from: Some(name(rt, from)),
        to: Some(name(rt, b"KO1")),
        sights: 1,
        values: Some(Values {
            given,
            low: proposed,
            high: proposed,
        }),
        explains: 9_900_000,
        left: 10_100_000,
        blunders: 1,
    }
}

/// What was looked at.
const SUMMARY: Summary = Summary {
    cost: 20_000_000,
    limit: 2_000_000,
    marked: 2,
    sights: 11,
    entries: 6,
    changes: 9,
    benchmarks: 0,
    books: 1,
};

/// The rows of the building site: the sights first, to be put in order.
fn rows_of(rt: &impl Abort, alloc: Global) -> Vec<Row> {
    let found = [
        sighted(rt, 8, b"KO2", -279_600_000, -289_500_000),
        sighted(rt, 15, b"KO3", -154_400_000, -164_300_000),
        entered(rt, Kind::Instrument, 164_500_000, 154_600_000),
        entered(rt, Kind::Reflector, 150_000_000, 159_900_000),
    ];
    ranked(alloc, &found).expect(rt, "memory")
}

/// What may have been meant in line 2: 1.545 m, where 1.645 m was keyed in.
const NAMED: [Named; 1] = [Named {
    row: 0,
    height: HeightKind::Instrument,
    typed: 164_500_000,
    meant: 154_500_000,
    elsewhere: false,
    whole: true,
}];

/// Its table.
const TABLE: &[u8] =
    b"number,kind,book,line,word,from,to,sights,given,low,high,explains,left,blunders,last,poles,instruments,reading,name,fit
1,instrument,1,2,88,KO1,,4,1.64500000,1.54600000,1.54600000,0.19800000,0.00200000,0,2,,1.54500000,,,
1,reflector,1,2,87,KO1,,4,1.50000000,1.59900000,1.59900000,0.19800000,0.00200000,0,2,,,,,
2,sight,1,8,,KO2,KO1,1,-2.79600000,-2.89500000,-2.89500000,0.09900000,0.10100000,1,,,,,,
2,sight,1,15,,KO3,KO1,1,-1.54400000,-1.64300000,-1.64300000,0.09900000,0.10100000,1,,,,,,
";

/// Its text for people.
const TEXT: &[u8] = b"cost                          0.20000000
blunder limit                 0.02000000
marked                                 2
sights                                11
entries                                6
changes                                9
benchmarks                             0
books                                  1
explanations                           4
  NO  BK    LINE  WORD  FROM              TO                     PROPOSED     COST LEFT BLUNDERS
   1   1       2    88  KO1                                    1.54600000    0.00200000        0
   1   1       2    87  KO1                                    1.59900000    0.00200000        0
   2   1       8        KO2               KO1                 -2.89500000    0.10100000        1
   2   1      15        KO3               KO1                 -1.64300000    0.10100000        1

One wrong number explains this: word 88 of line 2 or word 87 of line 2.
The books do not say which of them.
Word 88 of line 2: given 1.64500000, fits 1.54600000.
Word 87 of line 2: given 1.50000000, fits 1.59900000.
Or the setup stood on another point than KO1.
Word 88 of line 2: typed 1.64500000, meant 1.54500000?
The next best leaves 0.10100000.

If 1.54500000 was meant, height_office mend takes these changes:
line,word,value
2,88,1.54500000
";

#[test]
fn building_site(rt: HostRuntime) {
    let alloc = rt.alloc();
    let rows = rows_of(&rt, alloc);
    let table = explanations_csv(alloc, &rows, &NAMED, &[]).expect(&rt, "memory");
    assert!(rt; table.as_slice() == TABLE);
    let text = explanations_text(alloc, &SUMMARY, &rows, &NAMED, &[]).expect(&rt, "memory");
    assert!(rt; text.as_slice() == TEXT);
}

/// What is written where there is no row.
fn ends_with(rt: &impl Abort, alloc: Global, marked: usize, wanted: &[u8]) {
    let summary = Summary { marked, ..SUMMARY };
    let text = explanations_text(alloc, &summary, &[], &[], &[]).expect(rt, "memory");
    assert!(rt; text.as_slice().ends_with(wanted));
}

#[test]
fn no_rows(rt: HostRuntime) {
    let alloc = rt.alloc();
    ends_with(
        &rt,
        alloc,
        1,
        b"\nNo single number explains what is marked.\n",
    );
    ends_with(
        &rt,
        alloc,
        0,
        b"\nNothing to explain: no number has to be wrong by more than 0.02000000 m.\n",
    );
}

#[test]
fn many_rows(rt: HostRuntime) {
    let alloc = rt.alloc();
    let found = [sighted(&rt, 8, b"KO2", -279_600_000, -289_500_000); 21];
    let rows = ranked(alloc, &found).expect(&rt, "memory");
    assert_eq!(rt; rows.len(), 20);
    let text = explanations_text(alloc, &SUMMARY, &rows, &[], &[]).expect(&rt, "memory");
    assert!(rt;
        text.as_slice().ends_with(
            b"
No one number explains all of this. At least 20 numbers explain most, equally well: 1 sight stays marked. The books do not say which. Measure one of them again.
Mend it and run again.
"
        )
    );
}

/// What is said of one row.
fn says(rt: &impl Abort, alloc: Global, row: Row, wanted: &[u8]) {
    says_of(rt, alloc, row, &[], wanted);
}

/// What is said of one row, and of the heights that may have been meant.
fn says_of(rt: &impl Abort, alloc: Global, row: Row, named: &[Named], wanted: &[u8]) {
    let rows = ranked(alloc, &[row]).expect(rt, "memory");
    let text = explanations_text(alloc, &SUMMARY, &rows, named, &[]).expect(rt, "memory");
    assert!(rt; text.as_slice().ends_with(wanted));
}

/// A pole that may have been meant for the first row.
fn pole(meant: i64) -> Named {
    Named {
        row: 0,
        height: HeightKind::Reflector,
        typed: 150_000_000,
        meant,
        elsewhere: true,
        whole: false,
    }
}

#[test]
fn heights_of_a_sight(rt: HostRuntime) {
    let named = [
        pole(250_000_000),
        pole(249_900_000),
        Named {
            row: 0,
            height: HeightKind::Instrument,
            typed: 160_200_000,
            meant: -60_200_000,
            elsewhere: false,
            whole: true,
        },
    ];
    says_of(
        &rt,
        rt.alloc(),
        sighted(&rt, 8, b"KO2", -279_600_000, -289_500_000),
        &named,
        b"
The sight of line 8: given -2.79600000, fits -2.89500000.
The pole of line 8: typed 1.50000000, meant 2.50000000?
The pole of line 8: typed 1.50000000, meant 2.49900000?
The instrument height of line 8: typed 1.60200000, meant -0.60200000?
Mend it and run again.
",
    );
}

#[test]
fn heights_of_a_sight_in_the_table(rt: HostRuntime) {
    let alloc = rt.alloc();
    let row = sighted(&rt, 8, b"KO2", -279_600_000, -289_500_000);
    let named = [pole(250_000_000), pole(249_900_000)];
    let table = explanations_csv(alloc, &[row], &named, &[]).expect(&rt, "memory");
    assert!(rt; table.as_slice().ends_with(b",,2.50000000 2.49900000,,,,\n"));
}

/// A reading of the first row.
fn reading(read: ReadAs, fit: u64) -> ReadingRow {
    ReadingRow { row: 0, read, fit }
}

/// What is said of one row, and of its readings.
fn says_with(rt: &impl Abort, alloc: Global, row: Row, readings: &[ReadingRow], wanted: &[u8]) {
    let rows = ranked(alloc, &[row]).expect(rt, "memory");
    let text = explanations_text(alloc, &SUMMARY, &rows, &[], readings).expect(rt, "memory");
    assert!(rt; text.as_slice().ends_with(wanted));
}

#[test]
fn readings_of_a_sight(rt: HostRuntime) {
    let readings = [
        reading(ReadAs::OtherSign, 0),
        reading(ReadAs::Target(name(&rt, b"D1")), 100_000),
        reading(ReadAs::Station(name(&rt, b"BM12")), 2_000_000),
    ];
    says_with(
        &rt,
        rt.alloc(),
        sighted(&rt, 8, b"KO2", -279_600_000, -289_500_000),
        &readings,
        b"
The sight of line 8: given -2.79600000, fits -2.89500000.
Line 8 fits with the other sign of word 33, within 0.00000000 m.
Line 8 fits D1 in place of KO1, within 0.00100000 m.
The setup of line 8 fits BM12 in place of KO2, within 0.02000000 m.
Mend it and run again.
",
    );
}

#[test]
fn readings_of_an_instrument_height(rt: HostRuntime) {
    let readings = [reading(ReadAs::Station(name(&rt, b"D1")), 100_000)];
    says_with(
        &rt,
        rt.alloc(),
        entered(&rt, Kind::Instrument, 164_500_000, 154_600_000),
        &readings,
        b"
Word 88 of line 2: given 1.64500000, fits 1.54600000.
The setup of line 2 fits D1 in place of KO1, within 0.00100000 m.
",
    );
}

#[test]
fn readings_of_a_benchmark(rt: HostRuntime) {
    let readings = [reading(ReadAs::Point(name(&rt, b"BM7")), 1)];
    let row = Row {
        kind: Kind::Benchmark,
        book: None,
        ..entered(&rt, Kind::Instrument, 164_500_000, 154_600_000)
    };
    says_with(
        &rt,
        rt.alloc(),
        row,
        &readings,
        b"
The height of KO1: given 1.64500000, fits 1.54600000.
The height of KO1 fits BM7, within 0.00000001 m.
",
    );
}

#[test]
fn readings_in_the_table(rt: HostRuntime) {
    let alloc = rt.alloc();
    let row = sighted(&rt, 8, b"KO2", -279_600_000, -289_500_000);
    let readings = [
        reading(ReadAs::Target(name(&rt, b"D1")), 100_000),
        reading(ReadAs::OtherSign, 0),
    ];
    let table = explanations_csv(alloc, &[row], &[], &readings).expect(&rt, "memory");
    assert!(rt;
        table.as_slice().ends_with(
            b"
,sight,1,8,,KO2,KO1,1,-2.79600000,-2.89500000,-2.89500000,,,,,,,target,D1,0.00100000
,sight,1,8,,KO2,KO1,1,-2.79600000,-2.89500000,-2.89500000,,,,,,,sign,,0.00000000
"
        )
    );
}

#[test]
fn more_than_three_heights(rt: HostRuntime) {
    says_of(
        &rt,
        rt.alloc(),
        sighted(&rt, 8, b"KO2", -279_600_000, -289_500_000),
        &[pole(250_000_000); 4],
        b"
The sight of line 8: given -2.79600000, fits -2.89500000.
Mend it and run again.
",
    );
}

#[test]
fn lines_that_repeat_a_height(rt: HostRuntime) {
    let mut row = entered(&rt, Kind::Reflector, 150_000_000, 250_000_000);
    row.last = Some(7);
    says_of(
        &rt,
        rt.alloc(),
        row,
        &[Named {
            whole: true,
            ..pole(250_000_000)
        }],
        b"
One wrong number explains this: word 87 of lines 2 to 7.
Word 87 of lines 2 to 7: given 1.50000000, fits 2.50000000.
Word 87 of lines 2 to 7: typed 1.50000000, meant 2.50000000?

If 2.50000000 was meant, height_office mend takes these changes:
line,word,value
2,87,2.50000000
",
    );
}

#[test]
fn sight_left_out(rt: HostRuntime) {
    says_of(
        &rt,
        rt.alloc(),
        sighted(&rt, 8, b"KO2", -279_600_000, -289_500_000),
        &[pole(250_000_000)],
        b"
Mend it and run again.

To leave the sight out, height_office mend takes these changes:
line,word,value
8,33,
",
    );
}

#[test]
fn height_changed_since_a_line(rt: HostRuntime) {
    says_of(
        &rt,
        rt.alloc(),
        entered(&rt, Kind::ReflectorSince, 150_000_000, 250_000_000),
        &[pole(250_000_000)],
        b"
If 2.50000000 was meant, height_office mend takes these changes:
line,word,value
2,87 since,2.50000000
",
    );
}

#[test]
fn marks_stay(rt: HostRuntime) {
    says(
        &rt,
        rt.alloc(),
        sighted(&rt, 8, b"KO2", -279_600_000, -289_500_000),
        b"
No one number explains all of this. The sight of line 8 explains most: 1 sight stays marked.
The sight of line 8: given -2.79600000, fits -2.89500000.
Mend it and run again.
",
    );
}

#[test]
fn heights_that_cannot_be(rt: HostRuntime) {
    let alloc = rt.alloc();
    let rows: [(Kind, i64, &[u8]); 4] = [
        (
            Kind::Instrument,
            -369_123_000,
            b"
One wrong number explains this: word 88 of line 2.
Word 88 of line 2: given 1.54500000, fits -3.69123000.
No instrument stands at -3.69123000 m: look at the name of the station.
Or the setup stood on another point than KO1.
",
        ),
        (
            Kind::ReflectorSince,
            500_000_001,
            b"
Word 87 since line 2: given 1.54500000, fits 5.00000001.
No pole is 5.00000001 m long.
",
        ),
        (
            Kind::Instrument,
            0,
            b"
Word 88 of line 2: given 1.54500000, fits 0.00000000.
Or the setup stood on another point than KO1.
",
        ),
        (
            Kind::Reflector,
            500_000_000,
            b"
Word 87 of line 2: given 1.54500000, fits 5.00000000.
",
        ),
    ];
    for (kind, proposed, wanted) in rows {
        says(
            &rt,
            alloc,
            entered(&rt, kind, 154_500_000, proposed),
            wanted,
        );
    }
}
