//! Heights that were keyed in, the heights that fit, and those that may have been meant.
use std::process::Abort;
use th_meant::{Proposed, Typed, meant_of};
use th_units::Unit::{self, HundredthMm, MilliFoot, Mm, TenMilliFoot, TenthMm};
use th_units::to_len;

/// A sign, digits and a unit; other heights; the lowest and the highest that fits, and the tolerance; and
/// what is named. Lengths are in units of 10 nm.
type Row = (
    (bool, &'static [u8], Unit),
    &'static [i64],
    (i64, i64, u64),
    &'static [i64],
);

/// 2 mm.
const TOLERANCE: u64 = 200_000;

const ROWS: [Row; 35] = [
    // two digits exchanged: 1.567 m typed as 1.657 m
    (
        (false, b"00001657", Mm),
        &[],
        (156_550_000, 156_790_000, TOLERANCE),
        &[156_700_000],
    ),
    // one digit, which is in force elsewhere too, and named once
    (
        (false, b"1500", Mm),
        &[130_000_000, 250_000_000, 150_000_000, 250_000_000],
        (250_000_000, 250_100_000, TOLERANCE),
        &[250_000_000],
    ),
    // a pole that was not keyed in, which no slip makes of the one before it
    (
        (false, b"1300", Mm),
        &[130_000_000, 235_000_000],
        (234_900_000, 235_200_000, TOLERANCE),
        &[235_000_000],
    ),
    // zeros before the number, up to four digits
    (
        (false, b"70", Mm),
        &[],
        (70_000_000, 70_000_000, 0),
        &[70_000_000],
    ),
    (
        (false, b"70", Mm),
        &[],
        (107_000_000, 107_000_000, 0),
        &[107_000_000],
    ),
    (
        (false, b"0000070", Mm),
        &[],
        (1_007_000_000, 1_007_000_000, 0),
        &[],
    ),
    (
        (false, b"0", Mm),
        &[],
        (100_000_000, 100_000_000, 0),
        &[100_000_000],
    ),
    ((false, b"0", Mm), &[], (-100_000_000, -100_000_000, 0), &[]),
    // the sign stays
    (
        (true, b"1500", Mm),
        &[],
        (-250_100_000, -249_900_000, TOLERANCE),
        &[-250_000_000],
    ),
    (
        (true, b"1500", Mm),
        &[],
        (249_900_000, 250_100_000, TOLERANCE),
        &[],
    ),
    ((true, b"1", Mm), &[], (0, 0, 0), &[0]),
    (
        (true, b"0", Mm),
        &[],
        (100_000_000, 100_000_000, 0),
        &[100_000_000],
    ),
    // other units: tenths and hundredths of a millimetre, thousandths and ten-thousandths of a foot
    (
        (false, b"16570", TenthMm),
        &[],
        (156_700_000, 156_700_000, 0),
        &[156_700_000],
    ),
    (
        (false, b"0165700", HundredthMm),
        &[],
        (156_700_000, 156_700_000, 0),
        &[156_700_000],
    ),
    (
        (false, b"5000", MilliFoot),
        &[],
        (155_448_000, 155_448_000, 0),
        &[155_448_000],
    ),
    (
        (false, b"52000", TenMilliFoot),
        &[],
        (76_200_000, 76_200_000, 0),
        &[76_200_000],
    ),
    // the nearest to the middle first, of two equally near the smaller; none of four
    (
        (false, b"1500", Mm),
        &[],
        (150_100_000, 150_300_000, 0),
        &[150_200_000, 150_100_000, 150_300_000],
    ),
    (
        (false, b"1500", Mm),
        &[],
        (150_100_000, 150_400_000, 0),
        &[],
    ),
    (
        (false, b"1500", Mm),
        &[
            171_700_000,
            150_000_000,
            171_500_000,
            171_600_000,
            171_500_000,
        ],
        (171_550_000, 171_550_000, 150_000),
        &[171_500_000, 171_600_000, 171_700_000],
    ),
    (
        (false, b"1500", Mm),
        &[
            171_700_000,
            150_000_000,
            171_500_000,
            171_600_000,
            171_450_000,
        ],
        (171_550_000, 171_550_000, 150_000),
        &[],
    ),
    // no slip of a height that is in force elsewhere, and no other height where it is not
    (
        (false, b"1500", Mm),
        &[130_000_000, 150_000_000],
        (250_000_000, 250_000_000, 0),
        &[],
    ),
    (
        (false, b"1500", Mm),
        &[130_000_000, 171_700_000],
        (171_700_000, 171_700_000, 0),
        &[],
    ),
    (
        (false, b"1500", Mm),
        &[130_000_000, 171_700_000],
        (250_000_000, 250_000_000, 0),
        &[250_000_000],
    ),
    // not the given height, though two equal digits are exchanged, or others have it
    (
        (false, b"1100", Mm),
        &[],
        (110_000_000, 110_000_000, 0),
        &[],
    ),
    (
        (false, b"1100", Mm),
        &[110_000_000],
        (110_000_000, 110_000_000, 0),
        &[],
    ),
    // up to the tolerance outside, and no further
    (
        (false, b"1657", Mm),
        &[],
        (156_800_000, 156_900_000, 100_000),
        &[156_700_000],
    ),
    (
        (false, b"1657", Mm),
        &[],
        (156_800_000, 156_900_000, 99_999),
        &[],
    ),
    (
        (false, b"1657", Mm),
        &[],
        (156_500_000, 156_600_000, 100_000),
        &[156_700_000],
    ),
    (
        (false, b"1657", Mm),
        &[],
        (156_500_000, 156_600_000, 99_999),
        &[],
    ),
    // any digit of many, but no length of more than 10 km
    (
        (false, b"1234567", Mm),
        &[],
        (123_457_600_000, 123_457_600_000, 0),
        &[123_457_600_000],
    ),
    (
        (false, b"9234567", Mm),
        &[],
        (923_456_900_000, 923_456_900_000, 0),
        &[923_456_900_000],
    ),
    (
        (false, b"10000000", Mm),
        &[],
        (0, 100_000_000_000, 0),
        &[0, 100_000_000_000],
    ),
    (
        (false, b"1000000000", HundredthMm),
        &[],
        (1_000_000_001_000, 2_000_000_000_000, 0),
        &[],
    ),
    // ends and a tolerance as far as they go
    (
        (false, b"1500", Mm),
        &[],
        (i64::MIN, i64::MAX, u64::MAX),
        &[],
    ),
    (
        (false, b"1500", Mm),
        &[i64::MIN, 150_000_000, i64::MAX],
        (i64::MAX, i64::MAX, 0),
        &[i64::MAX],
    ),
];

/// Names what was meant in a row, and compares it with what is wanted.
fn compare(rt: &impl Abort, row: &Row) {
    let ((negative, digits, unit), others, (low, high, tolerance), wanted) = row;
    let given = to_len(*negative, digits, *unit).ok().expect(rt, "a length");
    let typed = Typed { given, unit: *unit };
    let proposed = Proposed {
        low: *low,
        high: *high,
        tolerance: *tolerance,
    };
    let named = meant_of(&typed, others, &proposed);
    assert!(rt; named.as_slice() == *wanted, "{low} to {high}");
}

#[test]
fn named(rt: HostRuntime) {
    for row in &ROWS {
        compare(&rt, row);
    }
}
