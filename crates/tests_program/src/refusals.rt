//! Runs that are refused: the status, the line on standard error, and what files hold then.
use crate::folders::{
    ADJUST_SITE, BOOK, ROOM, begins_to_report, file, project, put, reports, run, same, shown,
};
use th_devices::MemoryFolder;

#[test]
fn a_fault_has_its_line(rt: HostRuntime) {
    let mut folder = project(&rt, ROOM);
    put(&rt, &mut folder, "faulty.gsi", b"no block\n");
    assert_eq!(rt; run(&rt, &mut folder, "list faulty.gsi"), 2);
    assert!(rt; begins_to_report(&folder, b"book 1 line 1: B1 "));
}

#[test]
fn a_fault_of_the_second_book_has_its_number(rt: HostRuntime) {
    let mut folder = project(&rt, ROOM);
    put(&rt, &mut folder, "faulty.gsi", b"no block\n");
    let two = "adjust --benchmarks heights --out out site.gsi faulty.gsi";
    assert_eq!(rt; run(&rt, &mut folder, two), 2);
    assert!(rt; begins_to_report(&folder, b"book 2 line 1: B1 "));
    assert!(rt; folder.file("out.heights.csv").is_none());
}

#[test]
fn a_file_that_is_not_there_is_not_read(rt: HostRuntime) {
    let mut folder = project(&rt, ROOM);
    assert_eq!(rt; run(&rt, &mut folder, "list none.gsi"), 5);
    assert!(rt; reports(&folder, b"read failed: book 1\n  'none.gsi'\n"));
}

#[test]
fn a_table_that_is_a_book_is_refused(rt: HostRuntime) {
    let mut folder = project(&rt, ROOM);
    put(&rt, &mut folder, "certificate", BOOK);
    let check = "check --benchmarks heights --certificate certificate site.gsi";
    assert_eq!(rt; run(&rt, &mut folder, check), 2);
    assert!(rt; begins_to_report(&folder, b"certificate record 1: "));
}

/// The old files are there, and no file of blocks.
fn has_old_files(folder: &MemoryFolder) -> bool {
    same(file(folder, "out.heights.csv"), b"old heights")
        && same(file(folder, "out.certificate.csv"), b"old certificate")
        && same(file(folder, "out.report.txt"), b"old report")
        && folder.file("out.heights.gsi").is_none()
}

/// The heights file of one sight has 104 bytes, and its certificate has more.
#[test]
fn a_write_that_fails_changes_no_file(rt: HostRuntime) {
    let mut folder = project(&rt, 110);
    put(&rt, &mut folder, "out.heights.csv", b"old heights");
    put(&rt, &mut folder, "out.certificate.csv", b"old certificate");
    put(&rt, &mut folder, "out.report.txt", b"old report");
    assert_eq!(rt; run(&rt, &mut folder, ADJUST_SITE), 5);
    let lines = b"write failed: certificate\n  'out.certificate.csv'\n";
    assert!(rt; reports(&folder, lines) && has_old_files(&folder));
}

#[test]
fn a_status_is_answered_where_standard_error_is_full(rt: HostRuntime) {
    let mut folder = project(&rt, 5);
    assert_eq!(rt; run(&rt, &mut folder, "list none.gsi"), 5);
    assert!(rt; same(shown(folder.errors()), b"read "));
}

#[test]
fn words_that_are_no_plan_change_nothing(rt: HostRuntime) {
    let mut folder = project(&rt, ROOM);
    assert_eq!(rt; run(&rt, &mut folder, "adjust site.gsi"), 3);
    assert!(rt; begins_to_report(&folder, b"error: "));
    assert!(rt; same(file(&folder, "site.gsi"), BOOK));
}

#[test]
fn help_and_version_are_printed(rt: HostRuntime) {
    for word in ["--help", "--version"] {
        let mut folder = project(&rt, ROOM);
        assert_eq!(rt; run(&rt, &mut folder, word), 3);
        assert!(rt; shown(folder.output()).ends_with(b"\n") && folder.errors().is_none());
    }
}
