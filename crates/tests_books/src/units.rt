//! Lengths from digits and a unit's code, metres written and read, and short numbers: worked rows.
use std::process::Abort;
use th_units::{LenFault, metre_text, parse_metres, short_number, to_len, unit_of};

/// What a sign, digits and a unit's code give: units and metres, or the fault.
type Conversion = (
    bool,
    &'static [u8],
    u8,
    Result<(i64, &'static [u8]), LenFault>,
);

const CONVERSIONS: [Conversion; 14] = [
    (false, b"00002345", b'0', Ok((234_500_000, b"2.34500000"))),
    (true, b"00000001", b'1', Ok((-30_480, b"-0.00030480"))),
    (false, b"00012345", b'6', Ok((123_450_000, b"1.23450000"))),
    (
        false,
        b"0000000000076940",
        b'7',
        Ok((234_513_120, b"2.34513120")),
    ),
    (false, b"00000001", b'8', Ok((1_000, b"0.00001000"))),
    (true, b"00000000", b'0', Ok((0, b"0.00000000"))),
    (
        false,
        b"10000000",
        b'0',
        Ok((1_000_000_000_000, b"10000.00000000")),
    ),
    (
        true,
        b"10000000",
        b'0',
        Ok((-1_000_000_000_000, b"-10000.00000000")),
    ),
    (false, b"10000001", b'0', Err(LenFault::TooLarge)),
    (false, b"9999999999999999", b'0', Err(LenFault::TooLarge)),
    (
        false,
        b"000000000000000000000000000000001",
        b'8',
        Ok((1_000, b"0.00001000")),
    ),
    (false, b"", b'0', Err(LenFault::NotDigits)),
    (false, b"0000 345", b'0', Err(LenFault::NotDigits)),
    (false, b"9999999999999999:", b'0', Err(LenFault::NotDigits)),
];

fn converts(rt: &impl Abort, row: &Conversion) {
    let (negative, digits, code, wanted) = *row;
    let unit = unit_of(code).expect(rt, "a unit");
    match (to_len(negative, digits, unit), wanted) {
        (Ok(length), Ok((units, text))) => {
            assert_eq!(rt; length.get(), units);
            assert!(rt; metre_text(units).as_bytes() == text, "at {units}");
        }
        (Err(fault), Err(wanted)) => assert_eq!(rt; fault, wanted),
        _ => panic!(rt; "{digits:?} in {code}"),
    }
}

#[test]
fn lengths_and_their_texts(rt: HostRuntime) {
    for row in &CONVERSIONS {
        converts(&rt, row);
    }
}

#[test]
fn texts_of_the_largest_numbers(rt: HostRuntime) {
    let rows: [(i64, &[u8]); 4] = [
        (i64::MIN, b"-92233720368.54775808"),
        (i64::MAX, b"92233720368.54775807"),
        (-1, b"-0.00000001"),
        (99_999_999, b"0.99999999"),
    ];
    for (units, text) in &rows {
        assert!(rt; metre_text(*units).as_bytes() == *text, "at {units}");
    }
}

#[test]
fn codes_of_other_units(rt: HostRuntime) {
    for code in [b'2', b'3', b'4', b'5', b'9', b'.', b' ', 0] {
        assert_eq!(rt; unit_of(code), None);
    }
}

const METRES_READ: [(&[u8], Result<i64, LenFault>); 22] = [
    (b"100", Ok(10_000_000_000)),
    (b"+0.5", Ok(50_000_000)),
    (b"-0.00000001", Ok(-1)),
    (b"999999999.99999999", Ok(99_999_999_999_999_999)),
    (b"-999999999.99999999", Ok(-99_999_999_999_999_999)),
    (b"000000001.0", Ok(100_000_000)),
    (b"-0", Ok(0)),
    (b"1000000000", Err(LenFault::TooLarge)),
    (b"0000000001", Err(LenFault::TooLarge)),
    (b"-1000000000.5", Err(LenFault::TooLarge)),
    (b"1.", Err(LenFault::NotDigits)),
    (b".5", Err(LenFault::NotDigits)),
    (b"1.000000001", Err(LenFault::NotDigits)),
    (b"1000000000.000000001", Err(LenFault::NotDigits)),
    (b"", Err(LenFault::NotDigits)),
    (b"+", Err(LenFault::NotDigits)),
    (b".", Err(LenFault::NotDigits)),
    (b"+-1", Err(LenFault::NotDigits)),
    (b"1.5.5", Err(LenFault::NotDigits)),
    (b"1.5x", Err(LenFault::NotDigits)),
    (b" 1", Err(LenFault::NotDigits)),
    (b"1,5", Err(LenFault::NotDigits)),
];

#[test]
fn metres_read(rt: HostRuntime) {
    for (text, wanted) in &METRES_READ {
        assert!(rt; parse_metres(text) == *wanted, "{text:?}");
    }
}

#[test]
fn metres_read_as_they_were_written(rt: HostRuntime) {
    for units in [0, 1, -1, 99_999_999, -100_000_000, 99_999_999_999_999_999] {
        assert_eq!(rt; parse_metres(metre_text(units).as_bytes()), Ok(units));
    }
}

#[test]
fn short_numbers(rt: HostRuntime) {
    let rows: [(&[u8], Option<u32>); 7] = [
        (b"0", Some(0)),
        (b"000000007", Some(7)),
        (b"999999999", Some(999_999_999)),
        (b"0000000001", None),
        (b"", None),
        (b"+1", None),
        (b"1 ", None),
    ];
    for (digits, wanted) in &rows {
        assert!(rt; short_number(digits) == *wanted, "{digits:?}");
    }
}
