//! Books with lines that are odd, though no number shows it.
use std::alloc::Global;
use std::process::Abort;
use th_book::BookFeed;
use th_entries::{BookReview, Listed, MAX_LISTED, NoSight, SeenNames, Tally};

/// The lines of a book; how many blocks it has and which words in place of sights, if it has none; and the
/// lines of directions alone and of other instrument heights.
type Row = (
    &'static [&'static [u8]],
    Option<(u32, &'static [u16])>,
    &'static [u32],
    &'static [u32],
);

/// A setup with both heights.
const SETUP: &[u8] = b"110001+0000000A 84..10+00000000 87..10+00001300 88..10+00001500 ";

/// A setup without an instrument height.
const BARE: &[u8] = b"110001+0000000A 84..10+00000000 87..10+00001300 ";

/// `examples/instruments/each_sight.gsi`.
const EACH_SIGHT: &[&[u8]] = &[
    b"*110001+0000000000000KO1 84..40+0000000001000000 88..10+0000000000001545 ",
    b"*110002+000000000000BM12 31..00+0000000000027472 33..00+0000000000001227 87..10+0000000000001500 88..10+0000000000001545 ",
    b"*110003+0000000000000KO2 31..00+0000000000053041 33..00+0000000000003250 87..10+0000000000002000 88..10+0000000000001545 ",
    b"*110004+0000000000000KO2 84..40+0000000001000000 88..10+0000000000001573 ",
    b"*110005+0000000000000KO1 31..00+0000000000053041 33..00-0000000000002866 87..10+0000000000001500 88..10+0000000000001573 ",
];

/// `examples/instruments/heights.gsi`.
const HEIGHTS: &[&[u8]] = &[
    b"110001+00000KO1 84..40+01000000 86..40+00250112 88..10+00001545 ",
    b"110002+0000BM12 31..00+00027472 83..00+00251384 87..10+00001500 ",
];

/// `examples/instruments/level.gsi`.
const LEVEL: &[&[u8]] = &[
    b"410001+00000002 ",
    b"110002+00000KO1 32...8+00274800 331.08+00158231 ",
    b"110003+0000BM12 32...8+00274400 332.08+00031031 ",
];

const ODDITIES: [Row; 14] = [
    (&[], None, &[], &[]),
    (&[b"", b"   "], None, &[], &[]),
    (EACH_SIGHT, None, &[], &[]),
    (HEIGHTS, Some((2, &[31, 83])), &[], &[]),
    (LEVEL, Some((3, &[32, 331, 332])), &[], &[]),
    // all words, in two blocks and not in order; words after a sight do not matter
    (
        &[
            b"410001+00000001 339.08+00000001 338.08+00000001 337.08+00000001 336.08+00000001 335.08+00000001 22.324+09715570 ",
            b"",
            b"410002+00000002 330.08+00000001 331.08+00000001 332.08+00000001 333.08+00000001 334.08+00000001 339.08+00000001 83..10+00000001 32..00+00000001 31..00+00000001 ",
        ],
        Some((
            2,
            &[
                22, 31, 32, 83, 330, 331, 332, 333, 334, 335, 336, 337, 338, 339,
            ],
        )),
        &[],
        &[],
    ),
    (
        &[
            b"410001+00000001 31..00+00001000 ",
            SETUP,
            b"110003+0000000B 33..00+00002345 ",
            b"410004+00000001 83..10+00001000 ",
        ],
        None,
        &[],
        &[],
    ),
    // words with a digit at position 3 have other numbers
    (
        &[SETUP, b"110002+0000000B 311.00+00001000 831.00+00001000 "],
        Some((2, &[])),
        &[],
        &[],
    ),
    (
        &[SETUP, b"110002+0000000B 83..10+00001000 "],
        Some((2, &[83])),
        &[],
        &[],
    ),
    // both are zero in some unit and with some sign; one of the two; no distance; a distance that is no length
    (
        &[
            SETUP,
            b"110002+0000000B 31..00+00000000 33..00+00000000 ",
            b"110003+0000000B 31..16-00000000 33..18-00000000 ",
            b"110004+0000000B 31..00+00000000 33..00+00000001 ",
            b"110005+0000000B 31..00+00000001 33..00+00000000 ",
            b"110006+0000000B 33..00+00000000 ",
            b"110007+0000000B 31..09+00000000 33..00+00000000 ",
            b"110008+0000000B 31..00+0000000x 33..00+00000000 ",
            b"110009+0000000B 311.00+00000000 33..00+00000000 ",
            b"110010+0000000B 31..00+00000001 33..00+00000000 31..00+00000000 ",
        ],
        None,
        &[2, 3, 10],
        &[],
    ),
    // a block without a height difference is no sight
    (
        &[SETUP, b"110002+0000000B 31..00+00000000 "],
        Some((2, &[31])),
        &[],
        &[],
    ),
    // another height, the same again, the first one in another unit, and one on a line that is no sight
    (
        &[
            SETUP,
            b"110002+0000000B 33..00+00002345 88..10+00001510 ",
            b"110003+0000000B 33..00+00002345 88..10+00001510 ",
            b"110004+0000000B 33..00+00002345 88..16+00015000 ",
            b"410005+00000001 88..10+00001520 ",
            b"110006+0000000B 33..00+00002345 88..10+00001520 ",
            b"110007+0000000B 33..00+00002345 ",
            b"110008+0000000B 33..00+00002345 88..10-00001520 ",
        ],
        None,
        &[],
        &[2, 4, 8],
    ),
    // a setup has no height but its own; the first word 88 changes nothing
    (
        &[
            b"88..10+00001400 ",
            BARE,
            b"110002+0000000B 33..00+00002345 88..10+00001510 ",
            BARE,
            b"110004+0000000B 33..00+00002345 88..10+00001520 ",
            b"110005+0000000B 33..00+00002345 88..10+00001500 ",
        ],
        None,
        &[],
        &[6],
    ),
    // one line that is odd in both ways
    (
        &[
            SETUP,
            b"110002+0000000B 31..00+00000000 33..00+00000000 83..00+00000000 88..10+00001510 ",
        ],
        None,
        &[2],
        &[2],
    ),
];

/// The review of the lines of a book.
fn reviewed(rt: &impl Abort, alloc: Global, lines: &[&[u8]]) -> BookReview {
    let mut feed = BookFeed::new(alloc, 1);
    let mut tally = Tally::new(alloc, 1, SeenNames::new(alloc));
    for line in lines {
        feed.feed_to(line, &mut tally).expect(rt, "memory");
        feed.feed_to(b"\r\n", &mut tally).expect(rt, "memory");
    }
    feed.finish_to(&mut tally).expect(rt, "no fault");
    let (review, _) = tally.review().expect(rt, "memory");
    review
}

/// All lines are listed, and these are they.
fn are_lines(rt: &impl Abort, listed: &Listed<u32>, wanted: &[u32]) {
    assert!(rt; listed.first.as_slice() == wanted);
    assert_eq!(rt; listed.count as usize, wanted.len());
}

/// The note of a book without sights has its number, 1, and this.
fn is_noted(rt: &impl Abort, note: &Option<NoSight>, wanted: &Option<(u32, &[u16])>) {
    match (note, wanted) {
        (Some(note), Some((blocks, numbers))) => {
            assert_eq!(rt; note.book, 1);
            assert_eq!(rt; note.blocks, *blocks);
            assert!(rt; note.numbers().as_slice() == *numbers);
        }
        (None, None) => {}
        _ => panic!(rt; "only one of the two is a note"),
    }
}

#[test]
fn oddities(rt: HostRuntime) {
    for (lines, no_sight, directions, changes) in &ODDITIES {
        let review = reviewed(&rt, rt.alloc(), lines);
        is_noted(&rt, &review.no_sight, no_sight);
        are_lines(&rt, &review.directions, directions);
        are_lines(&rt, &review.changes, changes);
    }
}

// Three more of each than are listed.
#[test]
fn most_oddities(rt: HostRuntime) {
    let mut lines = Vec::new(rt.alloc());
    lines.push(SETUP).expect(&rt, "memory");
    for k in 0..MAX_LISTED + 3 {
        let sight: &[u8] = if k % 2 == 0 {
            b"110002+0000000B 31..00+00000000 33..00+00000000 88..10+00001510 "
        } else {
            b"110002+0000000B 31..00+00000000 33..00+00000000 88..10+00001520 "
        };
        lines.push(sight).expect(&rt, "memory");
    }
    let review = reviewed(&rt, rt.alloc(), &lines);
    for listed in [&review.directions, &review.changes] {
        assert_eq!(&rt; listed.count as usize, MAX_LISTED + 3);
        assert_eq!(&rt; listed.first.len(), MAX_LISTED);
        assert_eq!(&rt; listed.first[MAX_LISTED - 1] as usize, MAX_LISTED + 1);
    }
}
