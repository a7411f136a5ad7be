//! Books of the examples and small ones, whole and in pieces, with what their review tells.
use std::alloc::Global;
use std::process::Abort;
use th_book::BookFeed;
use th_entries::HeightKind::{Instrument, Reflector};
use th_entries::{BookCount, BookReview, Entry, HeightKind, MAX_LISTED, SeenNames, Tally};

/// An entry's line, kind, station, length in units of 10 nm, how many sights use it, and the last of
/// their lines.
type Entered = (u32, HeightKind, &'static [u8], i64, u32, u32);

/// The lines of a book, its counts of lines, blocks, setups and sights, its entries and lookalikes.
type Row = (
    &'static [&'static [u8]],
    (u32, u32, u32, u32),
    &'static [Entered],
    &'static [u32],
);

/// `examples/building_site.gsi`.
pub(crate) const BUILDING_SITE: &[&[u8]] = &[
    b"410001+00000007 42....+000SITE3 43....+00240607 ",
    b"110002+00000KO1 84..10+01000000 85..10+02000000 86..10+00250112 87..10+00001500 88..10+00001545 ",
    b"110003+0000BM12 21.322+12344929 22.322+09715570 31..00+00027472 32..00+00027445 33..00+00001227 ",
    b"110004+00000KO2 21.322+05890124 22.322+09669789 31..00+00053041 32..00+00052970 33..00+00002750 ",
    b"110005+00000101 21.322+03756866 22.322+09802712 31..00+00022204 32..00+00022194 33..00+00000688 ",
    b"110006+00000102 21.322+05638771 22.322+09623498 31..00+00038964 32..00+00038896 33..00+00002303 87..10+00002000 ",
    b"",
    b"110007+00000KO2 84..10+01042310 85..10+02031870 86..10+00252907 88..10+00001612 ",
    b"410008+00000012 87..10+00001600 ",
    b"110009+00000KO1 21.322+25890124 22.322+10336804 31..00+00053044 32..00+00052970 33..00-00002805 ",
    b"110010+0000BM12 21.322+22423062 22.322+10216935 31..00+00044996 32..00+00044970 33..00-00001533 ",
    b"110011+00000102 21.322+26580359 22.322+10430541 31..00+00014221 32..00+00014188 33..00-00000961 ",
    b"110012+00000KO3 21.322+17411030 22.322+10427437 31..00+00048725 32..00+00048615 33..00-00003269 ",
    b"110013+00000103 21.322+17746430 22.322+10500765 31..00+00027259 32..00+00027175 33..00-00002142 87..10+00002100 ",
    b"",
    b"110014+00000KO3 84..10+01061540 85..10+01987220 86..10+00249650 87..16+00016000 88..16+00015725 ",
    b"110015+00000KO2 21.322+37411030 22.322+09570647 31..06+00487257 32..06+00486150 33..06+00032837 ",
    b"110016+0000BM12 21.322+30512283 22.322+09689007 31..06+00360957 32..06+00360527 33..06+00017626 ",
    b"110017+00000103 21.322+36987485 22.322+09806548 31..06+00215353 32..06+00215254 33..06+00006543 ",
];

/// `examples/building_site/monday.gsi`.
const MONDAY: &[&[u8]] = &[
    b"410001+00000007 42....+000SITE4 ",
    b"110002+00000KO1 84..10+00000000 87..10+00001500 88..10+00001545 ",
    b"110003+0000BM12 31..00+00027472 33..10+00001227 ",
    b"110004+00000KO2 31..00+00053041 33..10+00002750 ",
    b"110005+00000KO3 31..00+00041877 33..10+00001498 ",
    b"110006+000000D1 31..00+00022204 33..10+00000573 ",
    b"110007+00000KO2 84..10+00000000 87..10+00001500 88..10+00001580 ",
    b"110008+00000KO1 31..00+00053040 33..10-00002876 ",
    b"110009+0000BM12 31..00+00038811 33..10-00001602 ",
    b"110010+00000KO3 31..00+00030112 33..10-00001331 ",
    b"110011+000000D1 31..00+00040120 33..10-00001257 87..10+00002500 ",
    b"110012+00000KO3 84..10+00000000 87..10+00001500 88..10+00001602 ",
    b"110013+00000KO2 31..00+00030113 33..10+00001150 ",
    b"110014+000000D1 31..00+00018554 33..10-00000027 ",
    b"110015+00000KO1 31..00+00041877 33..10-00001646 ",
];

/// `examples/cellar/cellar.gsi`.
const CELLAR: &[&[u8]] = &[
    b"410001+00000009 42....+00CELLAR ",
    b"110002+000000G1 84..10+00000000 87..10+00001200 88..10+00001498 ",
    b"110003+000000G2 33..10-00002415 ",
    b"110004+000000G2 33..10-00002417 ",
    b"110005+000000G2 84..10+00000000 87..10+00001200 88..10+00001523 ",
    b"110006+000000S1 33..10-00003120 ",
    b"110007+000000S2 33..10-00002984 ",
    b"110008+000000S1 84..10+00000000 87..10+00001200 88..10+00001510 ",
    b"110009+000000S2 33..10-00000174 ",
];

/// `examples/railway_line/there.gsi`.
const THERE: &[&[u8]] = &[
    b"*410001+0000000000000112 42....+0000000000TRACK1 ",
    b"*110002+00000000FP 112/1 84..10+0000000000000000 88..16+0000000000015820 ",
    b"*110003+00000000FP 112/3 33..16+0000000000005353 87..10+0000000000001300 ",
    b"*110004+00000000FP 112/3 84..10+0000000000000000 88..16+0000000000015827 ",
    b"*110005+00000000FP 112/5 33..16+0000000000002896 87..10+0000000000001300 ",
    b"*110006+00000000FP 112/5 84..10+0000000000000000 88..16+0000000000015834 ",
    b"*110007+00000000FP 112/7 33..16-0000000000005374 87..10+0000000000001300 ",
    b"*110008+00000000FP 112/7 84..10+0000000000000000 88..16+0000000000015841 ",
    b"*110009+00000000FP 112/9 33..16+0000000000008515 87..10+0000000000001300 ",
];

/// A setup with both heights, and a sight.
pub(crate) const SETUP: &[u8] = b"110001+0000000A 84..10+00000000 87..10+00001300 88..10+00001500 ";

pub(crate) const SIGHT: &[u8] = b"110002+0000000B 33..00+00002345 ";

/// A pole that is changed and changed back is three entries, also with other units in between.
pub(crate) const CHANGED_BACK: &[&[u8]] = &[
    SETUP,
    SIGHT,
    b"110003+0000000C 33..10+00002345 87..16+00014000 ",
    b"110004+0000000D 33..10+00002345 87..18+00140000 88..16+00015000 ",
    b"110005+0000000B 33..10+00002345 87..10+00001300 88..10+00001500 ",
    b"110006+0000000C 33..10+00002345 ",
];

const REVIEWS: [Row; 20] = [
    (&[], (0, 0, 0, 0), &[], &[]),
    (
        BUILDING_SITE,
        (19, 17, 3, 12),
        &[
            (2, Reflector, b"KO1", 150_000_000, 3, 5),
            (2, Instrument, b"KO1", 154_500_000, 4, 6),
            (6, Reflector, b"KO1", 200_000_000, 1, 6),
            (8, Instrument, b"KO2", 161_200_000, 5, 14),
            (9, Reflector, b"KO2", 160_000_000, 4, 13),
            (14, Reflector, b"KO2", 210_000_000, 1, 14),
            (16, Reflector, b"KO3", 160_000_000, 3, 19),
            (16, Instrument, b"KO3", 157_250_000, 3, 19),
        ],
        &[],
    ),
    (
        MONDAY,
        (15, 15, 3, 11),
        &[
            (2, Reflector, b"KO1", 150_000_000, 4, 6),
            (2, Instrument, b"KO1", 154_500_000, 4, 6),
            (7, Reflector, b"KO2", 150_000_000, 3, 10),
            (7, Instrument, b"KO2", 158_000_000, 4, 11),
            (11, Reflector, b"KO2", 250_000_000, 1, 11),
            (12, Reflector, b"KO3", 150_000_000, 3, 15),
            (12, Instrument, b"KO3", 160_200_000, 3, 15),
        ],
        &[],
    ),
    (
        CELLAR,
        (9, 9, 3, 5),
        &[
            (2, Reflector, b"G1", 120_000_000, 2, 4),
            (2, Instrument, b"G1", 149_800_000, 2, 4),
            (5, Reflector, b"G2", 120_000_000, 2, 7),
            (5, Instrument, b"G2", 152_300_000, 2, 7),
            (8, Reflector, b"S1", 120_000_000, 1, 9),
            (8, Instrument, b"S1", 151_000_000, 1, 9),
        ],
        &[],
    ),
    (
        THERE,
        (9, 9, 4, 4),
        &[
            (2, Instrument, b"FP 112/1", 158_200_000, 1, 3),
            (3, Reflector, b"FP 112/1", 130_000_000, 1, 3),
            (4, Instrument, b"FP 112/3", 158_270_000, 1, 5),
            (5, Reflector, b"FP 112/3", 130_000_000, 1, 5),
            (6, Instrument, b"FP 112/5", 158_340_000, 1, 7),
            (7, Reflector, b"FP 112/5", 130_000_000, 1, 7),
            (8, Instrument, b"FP 112/7", 158_410_000, 1, 9),
            (9, Reflector, b"FP 112/7", 130_000_000, 1, 9),
        ],
        &[],
    ),
    // a setup that no sight follows uses nothing, nor does a height that is entered again at once
    (&[SETUP], (1, 1, 1, 0), &[], &[]),
    (
        &[SETUP, b"87..10+00001400 ", SIGHT],
        (3, 3, 1, 1),
        &[
            (1, Instrument, b"A", 150_000_000, 1, 3),
            (2, Reflector, b"A", 140_000_000, 1, 3),
        ],
        &[],
    ),
    // a height behind the last sight, and one before the first setup
    (
        &[
            b"87..10+00001400 88..10+00001600 ",
            SETUP,
            SIGHT,
            b"87..10+00001400 ",
        ],
        (4, 4, 1, 1),
        &[
            (2, Reflector, b"A", 130_000_000, 1, 3),
            (2, Instrument, b"A", 150_000_000, 1, 3),
        ],
        &[],
    ),
    // sights behind and before a second setup at the same station, which has its own heights
    (
        &[SETUP, SIGHT, SETUP, SIGHT, SIGHT],
        (5, 5, 2, 3),
        &[
            (1, Reflector, b"A", 130_000_000, 1, 2),
            (1, Instrument, b"A", 150_000_000, 1, 2),
            (3, Reflector, b"A", 130_000_000, 2, 5),
            (3, Instrument, b"A", 150_000_000, 2, 5),
        ],
        &[],
    ),
    // an instrument height at another point, at the station, and before any setup
    (
        &[
            b"110001+0000000A 88..10+00001500 ",
            SETUP,
            b"110003+0000000A 88..10+00001510 ",
            b"110004+0000000B 88..10+00001520 ",
            SIGHT,
            b"110006+0000000B 87..10+00001520 ",
        ],
        (6, 6, 1, 1),
        &[
            (2, Reflector, b"A", 130_000_000, 1, 5),
            (4, Instrument, b"A", 152_000_000, 1, 5),
        ],
        &[1, 4],
    ),
    // blocks that measure an angle or a distance are no setups, whatever the information of the word
    (
        &[
            b"110001+0000000A 21.322+12344929 88..10+00001500 ",
            b"110002+0000000B 88..10+00001500 22.322+09715570 ",
            b"110003+0000000C 31..00+00027472 88..10+00001500 ",
            b"110004+0000000D 32..00+00027445 88..10+00001500 ",
            b"110005+0000000E 81..00+00027445 88..10+00001500 ",
        ],
        (5, 5, 0, 0),
        &[],
        &[5],
    ),
    // the name of the station in another spelling
    (
        &[SETUP, b"*110001+00000000000000 A 88..10+0000000000001500 "],
        (2, 2, 1, 0),
        &[],
        &[],
    ),
    // a block without a point at its front, and one with a height difference
    (
        &[
            SETUP,
            b"88..10+00001500 110003+0000000B ",
            b"110004+0000000B 33..00+00002345 88..10+00001520 ",
        ],
        (3, 3, 1, 1),
        &[
            (1, Reflector, b"A", 130_000_000, 1, 3),
            (3, Instrument, b"A", 152_000_000, 1, 3),
        ],
        &[],
    ),
    // blank lines count as lines alone
    (&[b"", b"   ", SETUP, b""], (4, 1, 1, 0), &[], &[]),
    (
        CHANGED_BACK,
        (6, 6, 1, 5),
        &[
            (1, Reflector, b"A", 130_000_000, 1, 2),
            (1, Instrument, b"A", 150_000_000, 5, 6),
            (3, Reflector, b"A", 140_000_000, 2, 4),
            (5, Reflector, b"A", 130_000_000, 2, 6),
        ],
        &[],
    ),
    // a height that is repeated before the first sight, on a line of its own
    (
        &[SETUP, b"87..16+00013000 ", b"", SIGHT],
        (4, 3, 1, 1),
        &[
            (1, Reflector, b"A", 130_000_000, 1, 4),
            (1, Instrument, b"A", 150_000_000, 1, 4),
        ],
        &[],
    ),
    // one that is changed and changed back with no sight in between: the first and the second entry have none
    (
        &[SETUP, b"87..10+00001400 ", b"87..10+00001300 ", SIGHT],
        (4, 4, 1, 1),
        &[
            (1, Instrument, b"A", 150_000_000, 1, 4),
            (3, Reflector, b"A", 130_000_000, 1, 4),
        ],
        &[],
    ),
    // a reflector height that equals the instrument height continues no entry of it
    (
        &[SETUP, b"110002+0000000B 33..10+00002345 87..10+00001500 "],
        (2, 2, 1, 1),
        &[
            (1, Instrument, b"A", 150_000_000, 1, 2),
            (2, Reflector, b"A", 150_000_000, 1, 2),
        ],
        &[],
    ),
    // lengths that differ by one unit of the last digit, in sign, and zeros with either sign
    (
        &[
            SETUP,
            b"110002+0000000B 33..10+00002345 87..18+00130001 ",
            b"110003+0000000B 33..10+00002345 87..18-00130001 ",
            b"110004+0000000B 33..10+00002345 87..10+00000000 ",
            b"110005+0000000B 33..10+00002345 87..16-00000000 ",
        ],
        (5, 5, 1, 4),
        &[
            (1, Instrument, b"A", 150_000_000, 4, 5),
            (2, Reflector, b"A", 130_001_000, 1, 2),
            (3, Reflector, b"A", -130_001_000, 1, 3),
            (4, Reflector, b"A", 0, 2, 5),
        ],
        &[],
    ),
    // a height before the first setup is in no setup, so the next word begins an entry
    (
        &[b"87..10+00001300 88..10+00001500 ", SETUP, SIGHT],
        (3, 3, 1, 1),
        &[
            (2, Reflector, b"A", 130_000_000, 1, 3),
            (2, Instrument, b"A", 150_000_000, 1, 3),
        ],
        &[],
    ),
];

/// A survey with the heights in each sight, and the instrument height in each setup.
pub(crate) const IN_EACH_SIGHT: &[&[u8]] = &[
    b"110001+0000000A 84..10+00000000 88..10+00001500 ",
    b"110002+0000000B 33..10+00002345 87..10+00001300 88..10+00001500 ",
    b"110003+0000000C 33..10+00001345 87..10+00001300 88..10+00001500 ",
    b"110004+0000000D 33..10+00001340 87..10+00002000 88..10+00001500 ",
    b"110005+0000000B 84..10+00000000 88..10+00001500 ",
    b"110006+0000000C 33..10+00000345 87..10+00002000 88..10+00001500 ",
    b"110007+0000000A 33..10-00000345 87..10+00002000 88..10+00001500 ",
];

/// One survey with the heights once a setup, at its front; at the first sight; in every sight; and in every sight in
/// other units. The second setup has the heights of the first.
const SURVEYS: [&[&[u8]]; 4] = [
    &[
        b"110001+0000000A 84..10+00000000 87..10+00001300 88..10+00001500 ",
        b"110002+0000000B 33..10+00002345 ",
        b"110003+0000000C 33..10+00001345 ",
        b"110004+0000000D 33..10+00001340 87..10+00002000 ",
        b"110005+0000000B 84..10+00000000 87..10+00002000 88..10+00001500 ",
        b"110006+0000000C 33..10+00000345 ",
        b"110007+0000000A 33..10-00000345 ",
    ],
    &[
        b"110001+0000000A 84..10+00000000 ",
        b"110002+0000000B 33..10+00002345 87..10+00001300 88..10+00001500 ",
        b"110003+0000000C 33..10+00001345 ",
        b"110004+0000000D 33..10+00001340 87..10+00002000 ",
        b"110005+0000000B 84..10+00000000 ",
        b"110006+0000000C 33..10+00000345 87..10+00002000 88..10+00001500 ",
        b"110007+0000000A 33..10-00000345 ",
    ],
    IN_EACH_SIGHT,
    &[
        b"110001+0000000A 84..10+00000000 88..18+00150000 ",
        b"110002+0000000B 33..10+00002345 87..16+00013000 88..10+00001500 ",
        b"110003+0000000C 33..10+00001345 87..18+00130000 88..16+00015000 ",
        b"110004+0000000D 33..10+00001340 87..16+00020000 88..16+00015000 ",
        b"110005+0000000B 84..10+00000000 88..18+00150000 ",
        b"110006+0000000C 33..10+00000345 87..10+00002000 88..16+00015000 ",
        b"110007+0000000A 33..10-00000345 87..18+00200000 88..10+00001500 ",
    ],
];

/// The entries of these surveys, but for their lines and in no order: the kind, the station, the length, how many
/// sights use it, and the last of their lines.
const KEYED_IN: [(HeightKind, &[u8], i64, u32, u32); 5] = [
    (Reflector, b"A", 130_000_000, 2, 3),
    (Reflector, b"A", 200_000_000, 1, 4),
    (Instrument, b"A", 150_000_000, 3, 4),
    (Reflector, b"B", 200_000_000, 2, 7),
    (Instrument, b"B", 150_000_000, 2, 7),
];

/// The review of a book that comes in pieces of so many bytes.
pub(crate) fn reviewed(rt: &impl Abort, alloc: Global, text: &[u8], piece: usize) -> BookReview {
    assert!(rt; piece >= 1);
    let mut feed = BookFeed::new(alloc, 7);
    let mut tally = Tally::new(alloc, 7, SeenNames::new(alloc));
    for bytes in text.chunks(piece) {
        feed.feed_to(bytes, &mut tally).expect(rt, "memory");
    }
    let observations = feed.finish_to(&mut tally).expect(rt, "no fault");
    let (review, _) = tally.review().expect(rt, "memory");
    assert_eq!(rt; review.counts.sights as usize, observations.len());
    review
}

/// The lines joined, each with this end.
pub(crate) fn joined(rt: &impl Abort, alloc: Global, lines: &[&[u8]], end: &[u8]) -> Vec<u8> {
    let mut text = Vec::new(alloc);
    for line in lines {
        text.extend_from_slice(line).expect(rt, "memory");
        text.extend_from_slice(end).expect(rt, "memory");
    }
    text
}

/// An entry of book 7 is the one that is wanted.
fn is_entry(rt: &impl Abort, entry: &Entry, wanted: &Entered) {
    assert_eq!(rt; entry.book, 7);
    assert_eq!(rt; entry.line, wanted.0);
    assert!(rt; entry.kind == wanted.1, "at {}", wanted.0);
    assert!(rt; entry.station.as_bytes() == wanted.2, "at {}", wanted.0);
    assert_eq!(rt; entry.length.get(), wanted.3);
    assert_eq!(rt; entry.sights, wanted.4);
    assert_eq!(rt; entry.last, wanted.5);
}

/// A review is the one that is wanted.
fn is_review(rt: &impl Abort, review: &BookReview, row: &Row) {
    let (lines, blocks, setups, sights) = row.1;
    let counts = BookCount {
        lines,
        blocks,
        setups,
        sights,
    };
    assert_eq!(rt; review.counts, counts);
    assert_eq!(rt; review.entries.len(), row.2.len());
    for (entry, wanted) in review.entries.iter().zip(row.2) {
        is_entry(rt, entry, wanted);
    }
    assert!(rt; review.lookalikes.first.as_slice() == row.3);
    assert_eq!(rt; review.lookalikes.count as usize, row.3.len());
}

#[test]
fn reviews(rt: HostRuntime) {
    for row in &REVIEWS {
        let text = joined(&rt, rt.alloc(), row.0, b"\r\n");
        is_review(&rt, &reviewed(&rt, rt.alloc(), &text, 4_096), row);
        is_review(&rt, &reviewed(&rt, rt.alloc(), &text, 7), row);
        is_review(&rt, &reviewed(&rt, rt.alloc(), &text, 1), row);
    }
}

#[test]
fn surveys_have_the_entries_that_were_keyed_in(rt: HostRuntime) {
    for survey in &SURVEYS {
        let text = joined(&rt, rt.alloc(), survey, b"\r\n");
        let review = reviewed(&rt, rt.alloc(), &text, 100);
        assert_eq!(rt; review.entries.len(), KEYED_IN.len());
        for (kind, station, length, sights, last) in &KEYED_IN {
            let is_it = |entry: &Entry| {
                entry.kind == *kind
                    && entry.station.as_bytes() == *station
                    && entry.length.get() == *length
                    && entry.sights == *sights
                    && entry.last == *last
            };
            assert!(rt; review.entries.iter().any(is_it), "{length} at {last}");
        }
    }
}

// The last line has no end.
#[test]
fn last_line_without_end(rt: HostRuntime) {
    let row = &REVIEWS[1];
    let mut text = joined(&rt, rt.alloc(), row.0, b"\n");
    text.pop();
    is_review(&rt, &reviewed(&rt, rt.alloc(), &text, 4_096), row);
    is_review(&rt, &reviewed(&rt, rt.alloc(), &text, 16), row);
}

// Three more lines that look like setups than are listed.
#[test]
fn most_lookalikes(rt: HostRuntime) {
    let mut text = Vec::new(rt.alloc());
    for _ in 0..MAX_LISTED + 3 {
        text.extend_from_slice(b"110001+0000000C 88..10+00001500 \n")
            .expect(&rt, "memory");
    }
    let lookalikes = reviewed(&rt, rt.alloc(), &text, 4_096).lookalikes;
    assert_eq!(&rt; lookalikes.count as usize, MAX_LISTED + 3);
    assert_eq!(&rt; lookalikes.first.len(), MAX_LISTED);
    assert_eq!(&rt; lookalikes.first[MAX_LISTED - 1] as usize, MAX_LISTED);
}
