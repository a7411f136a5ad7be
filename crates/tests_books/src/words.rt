//! Names, words and their values against worked rows: what is read, which fault, what is written.
use arrayvec::ArrayVec;
use gsi_word::{
    LengthFault, Width, Word, WordFault, length_of, name_of, read_word, two_digit, write_word,
};
use std::alloc::AllocError;
use std::collections::HashMap;
use std::process::Abort;

/// Data and the name that they give.
const NAMES: [(&[u8], Option<&[u8]>); 24] = [
    (b"00000000", Some(b"0")),
    (b"0000A0 0", Some(b"A0 0")),
    (b"00 0A B ", Some(b"A B")),
    (b"        ", None),
    (b"", None),
    (b" ", None),
    (b"0", Some(b"0")),
    (b" 0 ", Some(b"0")),
    (b"A", Some(b"A")),
    (b"00A", Some(b"A")),
    (b"A ", Some(b"A")),
    (b"A0", Some(b"A0")),
    (b"a", Some(b"a")),
    (b"~", Some(b"~")),
    (b"! B", Some(b"! B")),
    (b"1234567890123456", Some(b"1234567890123456")),
    (b"00 001234567890123456  ", Some(b"1234567890123456")),
    (b"12345678901234567", None),
    (b"0012345678901234567", None),
    (b"A\x1f", None),
    (b"A\x7f", None),
    (b"\x80A", None),
    (b"A\x00", None),
    (b"00\x1f", None),
];

fn names(rt: &impl Abort, row: &(&[u8], Option<&[u8]>)) {
    let (data, wanted) = *row;
    match (name_of(data), wanted) {
        (Some(name), Some(bytes)) => {
            assert!(rt;
                name.as_bytes() == bytes,
                "the name of {data:?} is {name:?}"
            );
            assert_eq!(rt; name_of(name.as_bytes()), Some(name));
        }
        (None, None) => {}
        _ => panic!(rt; "the name of {data:?}"),
    }
}

#[test]
fn names_of_data(rt: HostRuntime) {
    for row in &NAMES {
        names(&rt, row);
    }
}

#[test]
fn names_in_order(rt: HostRuntime) {
    let rows: [&[u8]; 6] = [b"0", b"10", b"2", b"A", b"AB", b"a"];
    for (place, data) in rows.iter().enumerate() {
        let name = name_of(data).expect(&rt, "a name");
        for (other_place, other_data) in rows.iter().enumerate() {
            let other = name_of(other_data).expect(&rt, "a name");
            assert_eq!(rt; name.cmp(&other), place.cmp(&other_place));
            assert_eq!(rt; name == other, place == other_place);
            assert_eq!(rt; name < other, place < other_place);
        }
    }
}

#[test]
fn a_name_printed_for_debugging(rt: HostRuntime) -> Result<(), AllocError> {
    let name = name_of(b"00A B ").expect(&rt, "a name");
    let text = format!(in rt.alloc(); "{name:?}")?;
    assert_eq!(rt; text.as_str(), "\"A B\"");
    let plain = format!(in rt.alloc(); "{name}")?;
    assert_eq!(rt; plain.as_str(), "A B");
    Ok(())
}

#[test]
fn spellings_of_one_name_in_a_map(rt: HostRuntime) -> Result<(), AllocError> {
    let mut seen = HashMap::new(rt.alloc());
    for (place, data) in [b"00A".as_slice(), b"A ", b"A", b"B"].iter().enumerate() {
        let name = name_of(data).expect(&rt, "a name");
        seen.insert(name, place)?;
    }
    assert_eq!(rt; seen.len(), 2);
    let again = name_of(b"0A").expect(&rt, "a name");
    assert_eq!(rt; seen.get(&again), Some(&2));
    Ok(())
}

/// The parts of a word: index, information, whether the sign is a minus, and data.
type Parts = (u8, &'static [u8; 4], bool, &'static [u8]);

/// Bytes, a width, and the word at the front or its fault.
type Reading = (&'static [u8], Width, Result<Parts, WordFault>);

const READINGS: [Reading; 24] = [
    (
        b"110001+0000000A",
        Width::Eight,
        Ok((11, b"0001", false, b"0000000A")),
    ),
    (
        b"110001+0000000AX",
        Width::Eight,
        Ok((11, b"0001", false, b"0000000A")),
    ),
    (
        b"33..07-0000000000076940",
        Width::Sixteen,
        Ok((33, b"..07", true, b"0000000000076940")),
    ),
    (
        b"33..07-0000000000076940 87..10+",
        Width::Sixteen,
        Ok((33, b"..07", true, b"0000000000076940")),
    ),
    (
        b"00....+ !~ 0 ~ ",
        Width::Eight,
        Ok((0, b"....", false, b" !~ 0 ~ ")),
    ),
    (
        b"990987-99999999",
        Width::Eight,
        Ok((99, b"0987", true, b"99999999")),
    ),
    (b"", Width::Eight, Err(WordFault::Short)),
    (b"110001+000000A", Width::Eight, Err(WordFault::Short)),
    (b"110001+0000000A", Width::Sixteen, Err(WordFault::Short)),
    (
        b"33..07+000000000007694",
        Width::Sixteen,
        Err(WordFault::Short),
    ),
    (b" 110001+0000000A", Width::Eight, Err(WordFault::BadIndex)),
    (b"1:0001+0000000A", Width::Eight, Err(WordFault::BadIndex)),
    (b"/10001+0000000A", Width::Eight, Err(WordFault::BadIndex)),
    (b"11 001+0000000A", Width::Eight, Err(WordFault::BadInfo)),
    (b"11./.1+0000000A", Width::Eight, Err(WordFault::BadInfo)),
    (b"11000:+0000000A", Width::Eight, Err(WordFault::BadInfo)),
    (b"110001 0000000A", Width::Eight, Err(WordFault::BadSign)),
    (b"110001,\x1f000000A", Width::Eight, Err(WordFault::BadSign)),
    (b"110001+\x1f000000A", Width::Eight, Err(WordFault::BadData)),
    (b"110001+0000000\x7f", Width::Eight, Err(WordFault::BadData)),
    (
        b"110001+00000000000000\x80A",
        Width::Sixteen,
        Err(WordFault::BadData),
    ),
    (b"xx-+01 \x1f000000", Width::Eight, Err(WordFault::Short)),
    (
        b"xx-+01 \x1f000000A",
        Width::Eight,
        Err(WordFault::BadIndex),
    ),
    (b"1100-1 \x1f000000A", Width::Eight, Err(WordFault::BadInfo)),
];

fn reads(rt: &impl Abort, row: &Reading) {
    let (bytes, width, wanted) = *row;
    match (read_word(bytes, width), wanted) {
        (Ok(word), Ok((index, info, negative, body))) => {
            assert_eq!(rt; word.index(), index);
            assert_eq!(rt; word.info(), *info);
            assert_eq!(rt; word.negative(), negative);
            assert!(rt; word.body() == body, "the data of {bytes:?}");
            assert_eq!(rt; word.width(), width);
        }
        (Err(fault), Err(wanted)) => assert_eq!(rt; fault, wanted),
        _ => panic!(rt; "the word at {bytes:?}"),
    }
}

#[test]
fn words_at_the_front(rt: HostRuntime) {
    for row in &READINGS {
        reads(&rt, row);
    }
}

/// A word of GSI-8, its index of two digits, and its length in units of 10 nm or its fault.
type Value = (&'static [u8], Option<u8>, Result<i64, LengthFault>);

const VALUES: [Value; 10] = [
    (b"331.08+00012345", None, Ok(12_345_000)),
    (b"33..00+00001234", Some(33), Ok(123_400_000)),
    (b"87.310-00001500", Some(87), Ok(-150_000_000)),
    (b"88...1+00000001", Some(88), Ok(30_480)),
    (b"33...0-00000000", Some(33), Ok(0)),
    (b"33...0-10000000", Some(33), Ok(-1_000_000_000_000)),
    (b"33...0+10000001", Some(33), Err(LengthFault::TooLarge)),
    (b"33...2+99999999", Some(33), Err(LengthFault::BadUnit)),
    (b"33....+00000000", Some(33), Err(LengthFault::BadUnit)),
    (b"11...2+9999999 ", Some(11), Err(LengthFault::BadNumber)),
];

fn values(rt: &impl Abort, row: &Value) {
    let (bytes, index, wanted) = *row;
    let word = read_word(bytes, Width::Eight).expect(rt, "a word");
    assert_eq!(rt; two_digit(&word), index);
    assert_eq!(rt; length_of(&word).map(|length| length.get()), wanted);
}

#[test]
fn values_of_words(rt: HostRuntime) {
    for row in &VALUES {
        values(&rt, row);
    }
}

#[test]
fn a_word_to_fill_an_array_with(rt: HostRuntime) {
    let word = Word::default();
    assert_eq!(rt; word.width(), Width::Eight);
    assert_eq!(rt; two_digit(&word), Some(0));
    assert_eq!(rt; Width::Sixteen.spelling_len(), 23);
}

/// The parts of a word, and the bytes that it is written as, or none where no spelling has them.
type Writing = (
    u8,
    &'static [u8; 4],
    bool,
    &'static [u8],
    Option<&'static [u8]>,
);

const WRITINGS: [Writing; 12] = [
    (11, b"0001", false, b"0000000A", Some(b"110001+0000000A ")),
    (
        83,
        b"..48",
        true,
        b"0000000010254500",
        Some(b"83..48-0000000010254500 "),
    ),
    (0, b"....", false, b"        ", Some(b"00....+         ")),
    (99, b"9999", true, b"!~!~!~!~", Some(b"999999-!~!~!~!~ ")),
    (100, b"0001", false, b"0000000A", None),
    (255, b"0001", false, b"0000000A", None),
    (11, b"00 1", false, b"0000000A", None),
    (11, b"000:", false, b"0000000A", None),
    (11, b"0001", false, b"000000A", None),
    (11, b"0001", false, b"", None),
    (11, b"0001", false, b"00000000000000A", None),
    (11, b"0001", false, b"0000000\x7f", None),
];

fn writes(rt: &impl Abort, row: &Writing) {
    let (index, info, negative, body, wanted) = *row;
    match (Word::new(index, *info, negative, body), wanted) {
        (Some(word), Some(bytes)) => {
            let mut out = ArrayVec::new();
            assert!(rt; write_word(&word, &mut out));
            assert!(rt; out.as_slice() == bytes, "the bytes of {word:?}");
            let again = read_word(bytes, word.width()).expect(rt, "a word");
            assert_eq!(rt; again.index(), index);
            assert_eq!(rt; again.info(), *info);
            assert_eq!(rt; again.negative(), negative);
            assert!(rt; again.body() == body, "the data of {bytes:?}");
        }
        (None, None) => {}
        _ => panic!(rt; "the word of {index}, {info:?} and {body:?}"),
    }
}

#[test]
fn words_written(rt: HostRuntime) {
    for row in &WRITINGS {
        writes(&rt, row);
    }
}

#[test]
fn words_written_without_room(rt: HostRuntime) {
    let short = Word::new(11, *b"0001", false, b"0000000A").expect(&rt, "a word");
    let long = Word::new(11, *b"0001", false, b"000000000000000A").expect(&rt, "a word");
    let mut out = ArrayVec::new();
    assert!(rt; write_word(&short, &mut out));
    assert!(rt; !write_word(&long, &mut out));
    assert!(rt; !write_word(&short, &mut out));
    assert!(rt;
        out.as_slice() == b"110001+0000000A ".as_slice(),
        "the first word alone"
    );
}
