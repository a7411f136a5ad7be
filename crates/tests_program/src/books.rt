//! Books of tables of differences: what is printed, and what remains where they are refused.
use crate::folders::{ROOM, prints, project, put, reports, run, same, shown};

/// Two height differences from one station.
const TABLE: &[u8] = b"from,to,difference\nA,B,1.5\nA,C,-0.00001\n";

/// Their book, which has 201 bytes.
const TABLE_BOOK: &[u8] =
    b"*110001+000000000000000A 84..40+0000000000000000 87..48+0000000000000000 88..48+0000000000000000 \r\n*110002+000000000000000B 33..48+0000000000150000 \r\n*110003+000000000000000C 33..48-0000000000000001 \r\n";

/// The list of the book.
const TABLE_LIST: &[u8] = b"number,from,to,difference\n1,A,B,1.50000000\n2,A,C,-0.00001000\n";

#[test]
fn a_table_becomes_a_book(rt: HostRuntime) {
    for table in [TABLE, TABLE_LIST] {
        let mut folder = project(&rt, ROOM);
        put(&rt, &mut folder, "table.csv", table);
        assert_eq!(rt; run(&rt, &mut folder, "book table.csv"), 0);
        assert!(rt; prints(&folder, TABLE_BOOK));
    }
}

#[test]
fn the_book_lists_the_table_again(rt: HostRuntime) {
    let mut folder = project(&rt, ROOM);
    put(&rt, &mut folder, "level.gsi", TABLE_BOOK);
    assert_eq!(rt; run(&rt, &mut folder, "list level.gsi"), 0);
    assert!(rt; prints(&folder, TABLE_LIST));
}

#[test]
fn a_faulty_table_prints_no_book(rt: HostRuntime) {
    let mut folder = project(&rt, ROOM);
    put(
        &rt,
        &mut folder,
        "table.csv",
        b"from,to,difference\nA,B,1.5\nA,A,1\n",
    );
    assert_eq!(rt; run(&rt, &mut folder, "book table.csv"), 2);
    let lines =
        b"differences record 3: E6 to itself\n  'table.csv': a difference leads from a point to another one; 007 and 7 are one name\n";
    assert!(rt; reports(&folder, lines));
}

#[test]
fn a_table_that_is_not_there_is_not_read(rt: HostRuntime) {
    let mut folder = project(&rt, ROOM);
    assert_eq!(rt; run(&rt, &mut folder, "book none.csv"), 5);
    assert!(rt; reports(&folder, b"read failed: differences\n  'none.csv'\n"));
}

#[test]
fn a_book_without_room_is_not_whole(rt: HostRuntime) {
    let mut folder = project(&rt, 100);
    put(&rt, &mut folder, "table.csv", TABLE);
    assert_eq!(rt; run(&rt, &mut folder, "book table.csv"), 5);
    assert!(rt; same(shown(folder.errors()), b"write failed: book\n"));
    assert!(rt; TABLE_BOOK.starts_with(shown(folder.output())));
}
