//! Pages: what `page` leaves in its one file, and what remains where it is refused.
use crate::folders::{
    ADJUST_BACK, ADJUSTED, WIDE, begins_to_report, file, is_silent, project, put, run, same,
};
use std::process::Abort;
use th_devices::MemoryFolder;

/// The arguments that make the page of a sight there and one back, whose residual is -0.01 m.
const BACK: &str = "page --benchmarks heights --weights weights --out out back.gsi";

/// Lines of that page, in order: of its head, of its picture, of its sections and of its end. They are
/// those of a program that shares no code with this one.
const LINES: [&str; 12] = [
    "<!DOCTYPE html>\n<html lang=\"en\">\n",
    "<title>out: heights</title>\n",
    "<h1>out</h1>\n<p class=\"of\">Heights from <bdi>back.gsi</bdi>, <bdi>heights</bdi>, <bdi>weights</bdi> &middot; limit 20.0 mm</p>\n",
    "<div class=\"verdict good\">\n<h2>All sights fit.</h2>\n<p><b>0 of 2 sights marked.</b> No residual is above the limit.</p>\n<p>Nothing to explain: no number has to be wrong by more than 0.02000000 m.</p>\n<p>All heights rest on one benchmark: nothing checks its height.</p>\n</div>\n",
    "<circle cx=\"6150\" cy=\"855\" r=\"38\"><title>B 102.5450</title></circle>\n",
    "<ul class=\"facts\">\n<li><b>2</b>sights\n<li><b>1</b>new points\n<li><b>1</b>sights to spare\n<li><b>10.0 mm</b>largest residual within the limit\n",
    "<tr><th>A<td>100.0000<td><td>benchmark\n<tr><th>B<td>102.5450<td><td>4\n",
    "<ul class=\"facts\">\n<li><b>1</b>weak sights\n<li><b>1</b>weak benchmarks\n",
    "<tr><td>1:2<th>A<th>B<td>2.5450<td>0.0000<td>3<td>1<th>hides\n",
    "<li>a part of the network hangs on A alone: nothing checks its height\n",
    "<li>book 1: <bdi>back.gsi</bdi> <small>228 B, SHA-256 88b572b71bd32bc347efaf3eb069022a2a7ebb24ae58efd8008e6172290499d3</small>\n<li>benchmarks: <bdi>heights</bdi> <small>19 B, SHA-256 c15a70569a2e2d0025454e42e8ef947dc907df9de97213f74d4ed8795fbdba58</small>\n<li>weights: <bdi>weights</bdi> <small>21 B, SHA-256 c8f3a58f1f4f356bc7b76a8c0ad9044b7924ebb9e180b5a0a75f26afb28df694</small>\n",
    "<p>Height Office</p>\n</section>\n</body>\n</html>\n",
];

/// A page has the lines, in order, and ends with the last of them.
fn has_lines(rt: &impl Abort, page: &str) {
    let mut left = page;
    for line in LINES {
        let found = left.split_once(line);
        assert!(rt; found.is_some(), "{line}");
        left = found.map(|(_, behind)| behind).unwrap_or("");
    }
    assert!(rt; left.is_empty());
}

#[test]
fn a_network_is_shown(rt: HostRuntime) {
    let mut folder = project(&rt, WIDE);
    assert_eq!(rt; run(&rt, &mut folder, BACK), 0);
    has_lines(&rt, page_of(&folder));
    assert!(rt; is_silent(&folder));
}

/// The page of a folder.
fn page_of(folder: &MemoryFolder) -> &str {
    str::from_utf8(file(folder, "out.html")).unwrap_or("")
}

/// Pages with a limit, and how many sights are marked above it.
const MARKED: [(&str, &str); 2] = [
    (
        "page --benchmarks heights --weights weights --blunder 10000 --out out back.gsi",
        "<b>0 of 2 sights marked.</b>",
    ),
    (
        "page --benchmarks heights --weights weights --blunder 9999 --out out back.gsi",
        "<b>1 of 2 sights marked.</b>",
    ),
];

#[test]
fn a_residual_above_the_limit_is_marked(rt: HostRuntime) {
    for (page, marked) in MARKED {
        let mut folder = project(&rt, WIDE);
        assert_eq!(rt; run(&rt, &mut folder, page), 0);
        assert!(rt; page_of(&folder).contains(marked), "{marked}");
    }
}

/// Pages, and the title that each has.
const TITLED: [(&str, &str); 3] = [
    (
        "page --benchmarks heights --weights weights --out out back.gsi",
        "<title>out: heights</title>",
    ),
    (
        "page --title a<b --benchmarks heights --weights weights --out out back.gsi",
        "<title>a&lt;b: heights</title>",
    ),
    (
        "page --benchmarks heights --weights weights --limit 9mm --title out2 --out out back.gsi",
        "<h1>out2</h1>",
    ),
];

#[test]
fn a_page_has_the_title_that_was_asked_for(rt: HostRuntime) {
    for (page, title) in TITLED {
        let mut folder = project(&rt, WIDE);
        assert_eq!(rt; run(&rt, &mut folder, page), 0);
        assert!(rt; page_of(&folder).contains(title), "{title}");
    }
}

#[test]
fn an_adjustment_stays_beside_its_page(rt: HostRuntime) {
    let mut folder = project(&rt, WIDE);
    let mut adjusted = project(&rt, WIDE);
    assert_eq!(rt; run(&rt, &mut adjusted, ADJUST_BACK), 0);
    assert_eq!(rt; run(&rt, &mut folder, ADJUST_BACK), 0);
    assert_eq!(rt; run(&rt, &mut folder, BACK), 0);
    assert!(rt; are_alike(&folder, &adjusted) && adjusted.file("out.html").is_none());
}

/// Both folders have the same files of an adjustment.
fn are_alike(folder: &MemoryFolder, other: &MemoryFolder) -> bool {
    ADJUSTED
        .iter()
        .all(|name| same(file(folder, name), file(other, name)))
}

/// Command lines, the status, and how the line on standard error begins.
const REFUSED: [(&str, u8, &[u8]); 5] = [
    (
        "page --out out --benchmarks heights site.gsi faulty.gsi",
        2,
        b"book 2 line 1: B1 ",
    ),
    (
        "page --out out --benchmarks heights --weights heights site.gsi",
        2,
        b"weights record 1: E1 ",
    ),
    (
        "page --out out --benchmarks elsewhere site.gsi",
        2,
        b"network: N3 no benchmark for A\n",
    ),
    (
        "page --out out --benchmarks heights none.gsi",
        5,
        b"read failed: book 1\n  'none.gsi'\n",
    ),
    // The page has more bytes than its sink has room for.
    (
        "page --out out --benchmarks heights site.gsi",
        5,
        b"write failed: page\n  'out.html'\n",
    ),
];

/// A folder with a faulty book, benchmarks of another place, an old page, and little room.
fn old(rt: &(impl AllocGlobal + Abort)) -> MemoryFolder {
    let mut folder = project(rt, 5_000);
    put(rt, &mut folder, "faulty.gsi", b"no block\n");
    put(rt, &mut folder, "elsewhere", b"point,height\nX,50\n");
    put(rt, &mut folder, "out.html", b"old page");
    folder
}

/// The old page is there, and standard error begins so.
fn is_old(folder: &MemoryFolder, line: &[u8]) -> bool {
    same(page_of(folder).as_bytes(), b"old page") && begins_to_report(folder, line)
}

#[test]
fn a_run_that_is_refused_leaves_the_old_page(rt: HostRuntime) {
    for (page, status, line) in REFUSED {
        let mut folder = old(&rt);
        assert_eq!(rt; run(&rt, &mut folder, page), status);
        assert!(rt; is_old(&folder, line), "{page}");
    }
}
