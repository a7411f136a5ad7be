//! Blocks against worked rows: read from lines or refused, written, and as long as they may be.
use arrayvec::ArrayVec;
use gsi_block::{Block, BlockFault, Lines, read_block, read_words, write_block};
use gsi_word::{Width, Word, WordFault};
use std::alloc::{AllocError, Global};
use std::process::Abort;
use std::test::Fail;

/// A word's index, information, whether its sign is a minus, and its data.
type Parts = (u8, &'static [u8; 4], bool, &'static [u8]);

/// A line, the width of its words, and their parts.
type Reading = (&'static [u8], Width, &'static [Parts]);

const READINGS: [Reading; 6] = [
    (
        b"110001+0000000A",
        Width::Eight,
        &[(11, b"0001", false, b"0000000A")],
    ),
    (
        b"110001+0000000A    ",
        Width::Eight,
        &[(11, b"0001", false, b"0000000A")],
    ),
    (
        b"110002+0000000B 33..18-00001234 87..10+00001500 ",
        Width::Eight,
        &[
            (11, b"0002", false, b"0000000B"),
            (33, b"..18", true, b"00001234"),
            (87, b"..10", false, b"00001500"),
        ],
    ),
    (
        b"*110001+00000000000000P1 88..18+0000000000150000",
        Width::Sixteen,
        &[
            (11, b"0001", false, b"00000000000000P1"),
            (88, b"..18", false, b"0000000000150000"),
        ],
    ),
    (
        b"110001+         33....+~~~~~~~~",
        Width::Eight,
        &[
            (11, b"0001", false, b"        "),
            (33, b"....", false, b"~~~~~~~~"),
        ],
    ),
    (
        b"110001+* 1 2 3  33....+        ",
        Width::Eight,
        &[
            (11, b"0001", false, b"* 1 2 3 "),
            (33, b"....", false, b"        "),
        ],
    ),
];

fn reads(rt: &impl Abort, row: &Reading) {
    let (line, width, words) = *row;
    let read = read_block(line);
    let Ok(Some(block)) = &read else {
        panic!(rt; "{line:?} is a block, and was read as {read:?}");
    };
    assert!(rt; block.width() == width, "the width of {line:?}");
    assert_eq!(rt; block.words().len(), words.len(), "words of {line:?}");
    for (word, (index, info, negative, body)) in block.words().iter().zip(words) {
        assert_eq!(rt; word.index(), *index, "an index of {line:?}");
        assert!(rt; word.info() == **info, "information of {line:?}");
        assert!(rt; word.negative() == *negative, "a sign of {line:?}");
        assert!(rt; word.body() == *body, "data of {line:?}");
        assert!(rt; word.width() == width, "a word's width of {line:?}");
    }
}

#[test]
fn blocks_of_lines(rt: HostRuntime) {
    for row in &READINGS {
        reads(&rt, row);
    }
}

/// What a line's block is written as, behind a byte.
const WRITTEN: [(&[u8], &[u8]); 4] = [
    (b"110001+0000000A", b"#110001+0000000A \r\n"),
    (b"110001+0000000A    ", b"#110001+0000000A \r\n"),
    (
        b"110002-0000000B 33..18-00001234 070.10+        ",
        b"#110002-0000000B 33..18-00001234 070.10+         \r\n",
    ),
    (
        b"*990001+00000000000000P1 88..18-0000000000150000",
        b"#*990001+00000000000000P1 88..18-0000000000150000 \r\n",
    ),
];

#[test]
fn written_blocks(rt: HostRuntime) -> Result<(), Fail> {
    for (line, wanted) in &WRITTEN {
        let mut text = Vec::from_slice(rt.alloc(), b"#")?;
        let Ok(Some(block)) = &read_block(line) else {
            panic!(&rt; "{line:?} is a block");
        };
        write_block(block, &mut text)?;
        assert!(rt;
            text.as_slice() == *wanted,
            "{line:?} is written as {text:?}"
        );
    }
    Ok(())
}

#[test]
fn many_written_blocks(rt: HostRuntime) -> Result<(), Fail> {
    let words = [wide_word(&rt); 64];
    let block = Block::of(&words).expect(&rt, "64 words are a block");
    let mut text = Vec::new(rt.alloc());
    for _ in 0..1_000 {
        write_block(&block, &mut text)?;
    }
    assert_eq!(rt; text.len(), 1_539_000);
    Ok(())
}

fn narrow_word(rt: &impl Abort) -> Word<'static> {
    Word::new(11, *b"0001", false, b"0000000A").expect(rt, "a word of GSI-8")
}

fn wide_word(rt: &impl Abort) -> Word<'static> {
    Word::new(33, *b"..08", true, b"0000000000001234").expect(rt, "a word of GSI-16")
}

#[test]
fn blocks_of_words(rt: HostRuntime) {
    let narrow = narrow_word(&rt);
    let wide = wide_word(&rt);
    assert!(rt; Block::of(&[]).is_none(), "no words");
    assert!(rt; Block::of(&[narrow, wide]).is_none(), "two widths");
    assert!(rt;
        Block::of(&[wide, wide, narrow]).is_none(),
        "two widths, the last apart"
    );
    assert!(rt; Block::of(&[narrow; 65]).is_none(), "one word too many");
    assert!(rt;
        Block::of(&[wide; 65]).is_none(),
        "one word of GSI-16 too many"
    );
    let most = Block::of(&[narrow; 64]).expect(&rt, "the most words");
    assert_eq!(rt; most.words().len(), 64);
    assert!(rt; most.width() == Width::Eight);
    let pair = Block::of(&[wide, wide]).expect(&rt, "two words");
    assert!(rt; pair.width() == Width::Sixteen);
    for word in pair.words() {
        assert_eq!(rt; word.index(), 33);
        assert!(rt; word.body() == b"0000000000001234".as_slice());
    }
}

#[test]
fn words_of_lines_one_after_another(rt: HostRuntime) {
    let mut words = ArrayVec::new();
    let read = read_words(b"110001+0000000A 110002+0000000B", &mut words);
    assert!(rt; read == Ok(Some(Width::Eight)));
    assert_eq!(rt; words.len(), 2);
    let read = read_words(b"*110001+00000000000000P1", &mut words);
    assert!(rt; read == Ok(Some(Width::Sixteen)));
    assert_eq!(rt; words.len(), 1);
    assert!(rt; read_words(b"  ", &mut words) == Ok(None));
    let read = read_words(b"110001+0000000A\t", &mut words);
    assert!(rt; read == Err(BlockFault::BadSeparator(1)));
}

/// Lines that are neither blank nor a block, with the reason.
const FAULTS: [(&[u8], BlockFault); 22] = [
    (b"*", BlockFault::BadWord(1, WordFault::Short)),
    (b"*     ", BlockFault::BadWord(1, WordFault::Short)),
    (
        b"* 110001+0000000A",
        BlockFault::BadWord(1, WordFault::Short),
    ),
    (b"110001+0000000AX", BlockFault::BadSeparator(1)),
    (
        b" 110001+0000000A",
        BlockFault::BadWord(1, WordFault::BadIndex),
    ),
    (
        b"110001 0000000A",
        BlockFault::BadWord(1, WordFault::BadSign),
    ),
    (
        b"11000A+0000000A",
        BlockFault::BadWord(1, WordFault::BadInfo),
    ),
    (
        b"110001+000000\x7F0",
        BlockFault::BadWord(1, WordFault::BadData),
    ),
    (
        b"110001+0000\0000",
        BlockFault::BadWord(1, WordFault::BadData),
    ),
    (b"110001+0000000", BlockFault::BadWord(1, WordFault::Short)),
    (
        b"110001+0000000\n",
        BlockFault::BadWord(1, WordFault::BadData),
    ),
    (
        b"**110001+00000000000000P1",
        BlockFault::BadWord(1, WordFault::BadIndex),
    ),
    (
        b"*110001+0000000A",
        BlockFault::BadWord(1, WordFault::Short),
    ),
    (
        b"*110001+0000000A 110002+0000000B",
        BlockFault::BadSeparator(1),
    ),
    (b"110001+00000000000000P1", BlockFault::BadSeparator(1)),
    (
        b"110001+0000000A  110002+0000000B",
        BlockFault::BadWord(2, WordFault::BadIndex),
    ),
    (
        b"110001+0000000A 110002+000000B",
        BlockFault::BadWord(2, WordFault::Short),
    ),
    (
        b"110001+0000000A   x",
        BlockFault::BadWord(2, WordFault::Short),
    ),
    (b"110001+0000000A\t", BlockFault::BadSeparator(1)),
    (
        b"110001+0000000A 110002+0000000B!",
        BlockFault::BadSeparator(2),
    ),
    (b"\x1A", BlockFault::BadWord(1, WordFault::Short)),
    (b"  \t", BlockFault::BadWord(1, WordFault::Short)),
];

#[test]
fn faults_of_lines(rt: HostRuntime) {
    for (line, fault) in &FAULTS {
        match read_block(line) {
            Err(found) => assert!(rt; found == *fault, "{line:?} has {found:?}"),
            Ok(_) => panic!(&rt; "{line:?} is a block"),
        }
    }
}

const NARROW: &[u8] = b"110001+0000000A";

const WIDE: &[u8] = b"110001+00000000000000P1";

/// A line in parts: its first bytes, a word and how often it is repeated, the bytes behind these, and how
/// many spaces follow. Then how many words are read, `None` from a blank line, or the fault.
type LongLine = (
    &'static [u8],
    &'static [u8],
    usize,
    &'static [u8],
    usize,
    Result<Option<usize>, BlockFault>,
);

const LONG_LINES: [LongLine; 22] = [
    (b"", b"", 0, b"", 0, Ok(None)),
    (b"", b"", 0, b"", 1, Ok(None)),
    (b"", b"", 0, b"", 1_600, Ok(None)),
    (b"", b"", 0, b"", 1_601, Err(BlockFault::LineTooLong)),
    (
        b"*",
        b"",
        0,
        b"",
        1_599,
        Err(BlockFault::BadWord(1, WordFault::Short)),
    ),
    (b"*", b"", 0, b"", 1_600, Err(BlockFault::LineTooLong)),
    (b"", NARROW, 1, b"", 1_585, Ok(Some(1))),
    (b"", NARROW, 1, b"", 1_586, Err(BlockFault::LineTooLong)),
    (b"", NARROW, 64, b"", 0, Ok(Some(64))),
    (b"", NARROW, 64, b"", 1, Ok(Some(64))),
    (b"", NARROW, 64, b"", 577, Ok(Some(64))),
    (b"", NARROW, 64, b"", 578, Err(BlockFault::LineTooLong)),
    (b"", NARROW, 65, b"", 0, Err(BlockFault::TooManyWords)),
    (b"", NARROW, 64, b" x", 0, Err(BlockFault::TooManyWords)),
    (b"", NARROW, 64, b"   x", 9, Err(BlockFault::TooManyWords)),
    (b"", NARROW, 64, b"x", 0, Err(BlockFault::BadSeparator(64))),
    (
        b"",
        NARROW,
        63,
        b" x",
        0,
        Err(BlockFault::BadWord(64, WordFault::Short)),
    ),
    (b"", NARROW, 100, b"", 1, Err(BlockFault::TooManyWords)),
    (b"", NARROW, 100, b"", 2, Err(BlockFault::LineTooLong)),
    (b"*", WIDE, 64, b"", 64, Ok(Some(64))),
    (b"*", WIDE, 64, b"", 65, Err(BlockFault::LineTooLong)),
    (b"*", WIDE, 65, b"", 0, Err(BlockFault::TooManyWords)),
];

/// The bytes of a long line, with one space between two words.
fn bytes_of(alloc: Global, line: &LongLine) -> Result<Vec<u8>, AllocError> {
    let (first, word, words, tail, spaces, _wanted) = *line;
    let mut bytes = Vec::from_slice(alloc, first)?;
    for place in 0..words {
        if place > 0 {
            bytes.push(b' ')?;
        }
        bytes.extend_from_slice(word)?;
    }
    bytes.extend_from_slice(tail)?;
    for _space in 0..spaces {
        bytes.push(b' ')?;
    }
    Ok(bytes)
}

/// How many words a line is read as, None from a blank one.
fn words_read(line: &[u8]) -> Result<Option<usize>, BlockFault> {
    Ok(read_block(line)?.map(|block| block.words().len()))
}

#[test]
fn long_lines(rt: HostRuntime) -> Result<(), Fail> {
    for (row, line) in LONG_LINES.iter().enumerate() {
        let bytes = bytes_of(rt.alloc(), line)?;
        assert!(rt; words_read(bytes.as_slice()) == line.5, "in row {row}");
    }
    Ok(())
}

#[test]
fn a_line_too_long_to_be_kept(rt: HostRuntime) -> Result<(), Fail> {
    let spaces = [b' '; 1_600];
    let mut lines = Lines::new();
    assert!(rt; lines.take(&spaces) == (1_600, false));
    assert!(rt; lines.take(b" ") == (1, false));
    assert!(rt; lines.take(b"\n") == (1, true));
    assert_eq!(rt; lines.line().len(), 1_601);
    assert!(rt; words_read(lines.line()) == Err(BlockFault::LineTooLong));
    assert!(rt; lines.take(&spaces) == (1_600, false));
    assert!(rt; lines.take(b"\r") == (1, true));
    assert!(rt; words_read(lines.line()) == Ok(None));
    let text = vec![in rt.alloc(); b'1'; 100_000]?;
    assert!(rt; lines.take(text.as_slice()) == (100_000, false));
    assert_eq!(rt; lines.finish().map(|line| line.len()), Some(1_601));
    Ok(())
}

/// Faults, and what is printed of them.
const PRINTED: [(BlockFault, &str); 8] = [
    (BlockFault::BadWord(1, WordFault::Short), "word 1: short"),
    (
        BlockFault::BadWord(2, WordFault::BadIndex),
        "word 2: bad index",
    ),
    (
        BlockFault::BadWord(3, WordFault::BadInfo),
        "word 3: bad information",
    ),
    (
        BlockFault::BadWord(10, WordFault::BadSign),
        "word 10: bad sign",
    ),
    (
        BlockFault::BadWord(64, WordFault::BadData),
        "word 64: bad data",
    ),
    (BlockFault::TooManyWords, "too many words"),
    (BlockFault::LineTooLong, "line too long"),
    (BlockFault::BadSeparator(64), "no space after word 64"),
];

#[test]
fn printed_faults(rt: HostRuntime) -> Result<(), Fail> {
    for (fault, text) in &PRINTED {
        let printed = format!(in rt.alloc(); "{fault}")?;
        assert!(rt; printed.as_str() == *text, "{printed} for {text}");
    }
    Ok(())
}
