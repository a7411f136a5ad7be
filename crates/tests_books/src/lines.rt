//! The lines of worked texts, by `LineCursor` and by `Lines`, with each text cut in every way.
use gsi_block::{LineCursor, Lines};
use std::alloc::{AllocError, Global};
use std::process::Abort;
use std::test::Fail;

/// A text and its lines.
type Text = (&'static [u8], &'static [&'static [u8]]);

const TEXTS: [Text; 18] = [
    (b"", &[]),
    (b"a", &[b"a"]),
    (b"a\n", &[b"a"]),
    (b"a\r", &[b"a"]),
    (b"a\r\n", &[b"a"]),
    (b"a\nb", &[b"a", b"b"]),
    (b"a\rb", &[b"a", b"b"]),
    (b"a\r\nb", &[b"a", b"b"]),
    (b"a\n\rb", &[b"a", b"", b"b"]),
    (b"a\r\r\nb", &[b"a", b"", b"b"]),
    (b"\n", &[b""]),
    (b"\r", &[b""]),
    (b"\r\n", &[b""]),
    (b"\n\r", &[b"", b""]),
    (b"\r\n\n\r\r", &[b"", b"", b"", b""]),
    (b" \r\n ", &[b" ", b" "]),
    (b"a\0b\x1Ac\r\n\x1A", &[b"a\0b\x1Ac", b"\x1A"]),
    (b"\0", &[b"\0"]),
];

fn has_lines(rt: &impl Abort, text: &[u8], lines: &[&[u8]]) {
    let mut cursor = LineCursor::new(text);
    for wanted in lines {
        let line = cursor.next().expect(rt, "one more line");
        assert!(rt; line == *wanted, "in {text:?}");
    }
    assert!(rt; cursor.next().is_none(), "behind {text:?}");
    assert!(rt; cursor.next().is_none(), "behind the last of {text:?}");
}

#[test]
fn lines_of_texts(rt: HostRuntime) {
    for (text, lines) in &TEXTS {
        has_lines(&rt, text, lines);
    }
}

/// What `take` answers for a piece, and the line that is complete then.
type Taking = (&'static [u8], usize, Option<&'static [u8]>);

/// Pieces of a text, and what `finish` answers behind them.
type Takings = (&'static [Taking], Option<&'static [u8]>);

const TAKINGS: [Takings; 9] = [
    (&[(b"AB\r\nC", 4, Some(b"AB"))], None),
    (&[(b"AB\r", 3, Some(b"AB")), (b"\nC", 2, None)], Some(b"C")),
    (&[(b"AB\r", 3, Some(b"AB")), (b"\n", 1, None)], None),
    (&[(b"*", 1, None), (b"A\n", 2, Some(b"*A"))], None),
    (&[], None),
    (
        &[(b"", 0, None), (b"A", 1, None), (b"", 0, None)],
        Some(b"A"),
    ),
    (
        &[(b"\r", 1, Some(b"")), (b"", 0, None), (b"\n", 1, None)],
        None,
    ),
    (
        &[
            (b"\r", 1, Some(b"")),
            (b"\r", 1, Some(b"")),
            (b"\n\n", 2, Some(b"")),
        ],
        None,
    ),
    (
        &[
            (b"\n", 1, Some(b"")),
            (b"\rA\n", 1, Some(b"")),
            (b"A\n", 2, Some(b"A")),
        ],
        None,
    ),
];

#[test]
fn lines_of_pieces(rt: HostRuntime) {
    for (takings, last) in &TAKINGS {
        let mut lines = Lines::new();
        for (piece, taken, line) in *takings {
            let answer = lines.take(piece);
            assert_eq!(rt; answer.0, *taken, "bytes taken of {piece:?}");
            let complete = if answer.1 { Some(lines.line()) } else { None };
            assert!(rt; complete == *line, "{complete:?} of {piece:?}");
        }
        assert!(rt; lines.finish() == *last, "the last line behind {takings:?}");
    }
}

/// Takes all of a piece, and adds each line that ends in it, with a stroke behind it.
fn take_piece(lines: &mut Lines, piece: &[u8], given: &mut Vec<u8>) -> Result<(), AllocError> {
    let mut rest = piece;
    while !rest.is_empty() {
        let taken = if let Some((line, taken)) = lines.take_whole(rest) {
            given.extend_from_slice(line)?;
            given.push(b'/')?;
            taken
        } else {
            let (taken, complete) = lines.take(rest);
            if complete {
                given.extend_from_slice(lines.line())?;
                given.push(b'/')?;
            }
            taken
        };
        (_, rest) = rest.split_at(taken);
    }
    Ok(())
}

/// The lines of a text that is cut behind each byte whose bit is set, with a stroke behind each.
fn given_lines(alloc: Global, text: &[u8], cuts: u32) -> Result<Vec<u8>, AllocError> {
    let mut given = Vec::new(alloc);
    let mut lines = Lines::new();
    let mut begun = 0;
    let mut later_cuts = cuts;
    for place in 0..text.len() {
        if later_cuts % 2 == 1 {
            take_piece(&mut lines, &text[begun..place + 1], &mut given)?;
            begun = place + 1;
        }
        later_cuts /= 2;
    }
    take_piece(&mut lines, &text[begun..], &mut given)?;
    if let Some(line) = lines.finish() {
        given.extend_from_slice(line)?;
        given.push(b'/')?;
    }
    Ok(given)
}

/// Lines, with a stroke behind each.
fn joined(alloc: Global, lines: &[&[u8]]) -> Result<Vec<u8>, AllocError> {
    let mut text = Vec::new(alloc);
    for line in lines {
        text.extend_from_slice(line)?;
        text.push(b'/')?;
    }
    Ok(text)
}

#[test]
fn texts_cut_in_every_way(rt: HostRuntime) -> Result<(), Fail> {
    for (text, lines) in &TEXTS {
        let wanted = joined(rt.alloc(), lines)?;
        for cuts in 0..256 {
            let given = given_lines(rt.alloc(), text, cuts)?;
            assert!(rt;
                given.as_slice() == wanted.as_slice(),
                "{text:?} cut as {cuts}"
            );
        }
    }
    Ok(())
}

/// How many bytes the lines of a text have together.
fn bytes_in_lines(text: &[u8]) -> usize {
    let mut cursor = LineCursor::new(text);
    let mut bytes = 0usize;
    while let Some(line) = cursor.next() {
        bytes = bytes.saturating_add(line.len());
    }
    bytes
}

#[test]
fn a_loop_over_lines(rt: HostRuntime) {
    assert_eq!(rt; bytes_in_lines(b"one\r\ntwo\rthree\n\nx"), 12);
}
