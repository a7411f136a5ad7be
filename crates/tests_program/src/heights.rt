//! Books with heights: what is printed, and what remains where they are refused.
use crate::folders::{ROOM, prints, project, put, reports, run, same, shown};

/// A setup, and a sight with the height of its target.
const HEIGHTS: &[u8] =
    b"110001+0000000A 84..40+01000000 86..40+00250112 88..10+00001545 \r\n110002+0000000B 31..00+00027472 83..00+00251384 87..10+00001500 \r\n";

/// The same with a height difference, which has 148 bytes.
const DIFFERENCES: &[u8] =
    b"110001+0000000A 84..40+01000000 86..40+00250112 88..10+00001545 \r\n110002+0000000B 31..00+00027472 83..00+00251384 87..10+00001500 33..48+00122700 \r\n";

#[test]
fn a_book_with_heights_is_printed_with_differences(rt: HostRuntime) {
    for words in ["book --heights site.gsi", "book site.gsi --heights"] {
        let mut folder = project(&rt, ROOM);
        put(&rt, &mut folder, "site.gsi", HEIGHTS);
        assert_eq!(rt; run(&rt, &mut folder, words), 0);
        assert!(rt; prints(&folder, DIFFERENCES));
    }
}

#[test]
fn the_printed_book_has_the_difference_of_heights(rt: HostRuntime) {
    let mut folder = project(&rt, ROOM);
    put(&rt, &mut folder, "site.gsi", DIFFERENCES);
    assert_eq!(rt; run(&rt, &mut folder, "list site.gsi"), 0);
    let list = b"number,from,to,difference\n1,A,B,1.27200000\n";
    assert!(rt; prints(&folder, list));
}

/// Books with heights that are refused, and both lines.
const REFUSED: [(&[u8], &[u8]); 4] = [
    (
        DIFFERENCES,
        b"book 1 line 2: B2 has a word 33\n  'site.gsi': a book with words 33 needs no conversion\n",
    ),
    (
        b"110001+0000000A 84..40+01000000 \r\n110002+0000000B 31..00+00027472 83..00+00251384 \r\n",
        b"book 1 line 2: B9 no station height\n  'site.gsi': the station line needs word 86, the height of the station\n",
    ),
    (
        b"110002+0000000B 31..00+00027472 83..00+00251384 \r\n",
        b"book 1 line 1: B8 sight before setup\n  'site.gsi': before its sights comes a station line: word 11, and 84, 85 or 86\n",
    ),
    (
        b"from,to,difference\nA,B,1.5\n",
        b"book 1 line 1: B1 word 1: bad index\n  'site.gsi': a line begins with a word: no byte order mark, quotes or blanks before it, and no UTF-16\n",
    ),
];

#[test]
fn a_faulty_book_prints_nothing(rt: HostRuntime) {
    for (heights, lines) in REFUSED {
        let mut folder = project(&rt, ROOM);
        put(&rt, &mut folder, "site.gsi", heights);
        assert_eq!(rt; run(&rt, &mut folder, "book --heights site.gsi"), 2);
        assert!(rt; reports(&folder, lines));
    }
}

#[test]
fn a_book_that_is_not_there_is_not_read(rt: HostRuntime) {
    let mut folder = project(&rt, ROOM);
    assert_eq!(rt; run(&rt, &mut folder, "book --heights none.gsi"), 5);
    assert!(rt; reports(&folder, b"read failed: book 1\n  'none.gsi'\n"));
}

#[test]
fn a_book_without_room_is_not_whole(rt: HostRuntime) {
    let mut folder = project(&rt, 100);
    put(&rt, &mut folder, "site.gsi", HEIGHTS);
    assert_eq!(rt; run(&rt, &mut folder, "book --heights site.gsi"), 5);
    assert!(rt; same(shown(folder.errors()), b"write failed: book\n"));
    assert!(rt; DIFFERENCES.starts_with(shown(folder.output())));
}
