//! Notes of runs that are done.
use crate::folders::{WIDE, project, put, run, same, shown};
use std::process::Abort;
use th_devices::MemoryFolder;

/// A book of a recording mask that writes heights of targets, and no word 33.
const MASK: &[u8] =
    b"110001+0000000A 84..10+00000000 86..10+00100000 88..10+00001500 \n110002+0000000B 22.322+09715570 31..00+00027472 83..00+00102545 \n";

/// The list of a book without a sight.
const NOTHING_LISTED: &[u8] = b"number,from,to,difference\n";

/// Command lines that are done, and the notes of each.
const NOTED: [(&str, &[u8]); 13] = [
    (
        "list mask.gsi",
        b"note: book 1 has no sight in 2 blocks (no word 33; it has words 22, 31 and 83)\n",
    ),
    (
        "adjust --benchmarks heights --out out mask.gsi",
        b"note: book 1 has no sight in 2 blocks (no word 33; it has words 22, 31 and 83)\n",
    ),
    (
        "adjust --benchmarks heights --out out site.gsi mask.gsi blank.gsi level.gsi",
        b"note: book 2 has no sight in 2 blocks (no word 33; it has words 22, 31 and 83)\nnote: book 4 has no sight in 1 block (no word 33; it has word 331)\n",
    ),
    (
        "adjust --benchmarks heights --blunder 1000 --out out code.gsi back.gsi",
        b"note: book 1 has no sight in 1 block (no word 33)\nnote: 1 point has more than one best height, up to 0.01000000 m apart at B\nnote: 1 of 2 sights is marked, up to 0.01000000 m: explain names the number that may be wrong\n",
    ),
    (
        "adjust --benchmarks heights --blunder 10000 --out out back.gsi",
        b"",
    ),
    (
        "adjust --benchmarks heights --out out seven.gsi",
        b"note: a residual of 0.01500000 m (book 1 line 8) is within the limit, and 15 times the usual one: --blunder 8000 marks it\n",
    ),
    (
        "adjust --benchmarks heights --blunder 8000 --out out seven.gsi copy.gsi",
        b"note: book 2: 7 of 7 sights are in book 1 too\nnote: 2 of 14 sights are marked, up to 0.01500000 m: explain names the number that may be wrong\n",
    ),
    (
        "adjust --benchmarks heights --out out site.gsi cases.gsi",
        b"note: B (book 1 line 2) and b (book 2 line 2) differ only in upper and lower case\n",
    ),
    ("list blank.gsi", b""),
    ("list back.gsi", b""),
    ("review --benchmarks heights --out out mask.gsi", b""),
    ("explain --benchmarks heights mask.gsi", b""),
    ("page --benchmarks heights --out out mask.gsi", b""),
];

/// Seven sights, of which the last is longer than the others.
const SEVEN: &[u8] =
    b"110001+0000000A 84..10+00000000 88..10+00001500 \n110002+0000000B 33..00+00002344 87..10+00001300 \n110003+0000000B 33..00+00002344 \n110004+0000000B 33..00+00002345 \n110005+0000000B 33..00+00002345 \n110006+0000000B 33..00+00002346 \n110007+0000000B 33..00+00002346 \n110008+0000000B 33..00+00002360 \n";

/// A sight of a point whose name is written in lower case.
const CASES: &[u8] =
    b"110001+0000000A 84..10+00000000 88..10+00001500 \n110002+0000000b 33..00+00002345 87..10+00001300 \n";

/// A folder with books that have no sight, and others that are noted.
fn sightless(rt: &(impl AllocGlobal + Abort)) -> MemoryFolder {
    let mut folder = project(rt, WIDE);
    put(rt, &mut folder, "mask.gsi", MASK);
    put(rt, &mut folder, "blank.gsi", b"\n   \n");
    put(rt, &mut folder, "code.gsi", b"410001+0000000A\n");
    let level = b"110001+0000000A 331.08+00158231\n";
    put(rt, &mut folder, "level.gsi", level);
    put(rt, &mut folder, "seven.gsi", SEVEN);
    put(rt, &mut folder, "copy.gsi", SEVEN);
    put(rt, &mut folder, "cases.gsi", CASES);
    folder
}

/// Standard error has these notes, and is not begun where there are none.
fn has_notes(folder: &MemoryFolder, notes: &[u8]) -> bool {
    same(shown(folder.errors()), notes) && folder.errors().is_none() == notes.is_empty()
}

#[test]
fn a_list_and_an_adjustment_have_notes(rt: HostRuntime) {
    for (words, notes) in NOTED {
        let mut folder = sightless(&rt);
        assert_eq!(rt; run(&rt, &mut folder, words), 0);
        assert!(rt; has_notes(&folder, notes), "{words}");
    }
}

#[test]
fn notes_without_room_change_nothing_else(rt: HostRuntime) {
    let mut folder = project(&rt, 60);
    put(&rt, &mut folder, "mask.gsi", MASK);
    assert_eq!(rt; run(&rt, &mut folder, "list mask.gsi"), 0);
    assert!(rt; same(shown(folder.output()), NOTHING_LISTED));
    assert!(rt; NOTED[0].1.starts_with(shown(folder.errors())));
}
