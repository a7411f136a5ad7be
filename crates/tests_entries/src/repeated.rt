//! The unit of each entry's word, and the last line that repeats it.
use crate::reviews::{BUILDING_SITE, CHANGED_BACK, IN_EACH_SIGHT, SETUP, SIGHT, joined, reviewed};
use th_units::Unit;
use th_units::Unit::{HundredthMm, MilliFoot, Mm, TenthMm};

/// A book, and of each of its entries the line, the unit of its word there, and the last line that repeats it.
type Repeated = (&'static [&'static [u8]], &'static [(u32, Unit, u32)]);

const REPEATED: [Repeated; 6] = [
    (
        BUILDING_SITE,
        &[
            (2, Mm, 2),
            (2, Mm, 2),
            (6, Mm, 6),
            (8, Mm, 8),
            (9, Mm, 9),
            (14, Mm, 14),
            (16, TenthMm, 16),
            (16, TenthMm, 16),
        ],
    ),
    // each word in another unit than the one before it: the unit is that of the first
    (
        CHANGED_BACK,
        &[(1, Mm, 1), (1, Mm, 5), (3, TenthMm, 4), (5, Mm, 5)],
    ),
    // repeated behind the last sight that uses it, and by lines that are no sights
    (
        &[
            SETUP,
            SIGHT,
            b"87..10+00001300 ",
            b"",
            b"87..16+00013000 88..10+00001500 ",
            b"110006+0000000C ",
        ],
        &[(1, Mm, 5), (1, Mm, 5)],
    ),
    // not by the setup behind it, nor once another height is in force
    (
        &[
            SETUP,
            SIGHT,
            b"110003+0000000C 33..10+00002345 87..18+00140000 ",
            b"110004+0000000D 33..10+00002345 87..10+00001300 ",
            SETUP,
            SIGHT,
        ],
        &[
            (1, Mm, 1),
            (1, Mm, 1),
            (3, HundredthMm, 3),
            (4, Mm, 4),
            (5, Mm, 5),
            (5, Mm, 5),
        ],
    ),
    // feet; a word that does not count, and one with another index, are before it
    (
        &[
            b"110001+0000000A 84..10+00000000 881.10+00001500 87..10+00001300 88..11+00005000 ",
            SIGHT,
        ],
        &[(1, Mm, 1), (1, MilliFoot, 1)],
    ),
    // in every sight, and the instrument height in the setup too
    (
        IN_EACH_SIGHT,
        &[(1, Mm, 4), (2, Mm, 3), (4, Mm, 4), (5, Mm, 7), (6, Mm, 7)],
    ),
];

#[test]
fn units_and_repeated_heights(rt: HostRuntime) {
    for (lines, entries) in &REPEATED {
        let text = joined(&rt, rt.alloc(), lines, b"\n");
        let review = reviewed(&rt, rt.alloc(), &text, 50);
        assert_eq!(rt; review.entries.len(), entries.len());
        for (entry, (line, unit, repeated)) in review.entries.iter().zip(*entries) {
            assert_eq!(rt; entry.line, *line);
            assert!(rt; entry.unit == *unit, "at {line}");
            assert_eq!(rt; entry.repeated, *repeated);
        }
    }
}
