//! A folder in memory with a project, and a run over it.
use std::process::Abort;
use th_devices::{Folder, MemoryFolder};
use th_program::run_words;

/// A book with one sight, from A to B: B is higher by 2.545 m.
pub const BOOK: &[u8] =
    b"110001+0000000A 84..10+00000000 85..10+00000000 86..10+00100000 88..10+00001500 \n110002+0000000B 33..00+00002345 87..10+00001300 \n";

/// A sight there, and one back from a second setup, which is longer by 10 mm.
pub const THERE_AND_BACK: &[u8] =
    b"110001+0000000A 84..10+00000000 85..10+00000000 86..10+00100000 88..10+00001500 \n110002+0000000B 33..00+00002345 87..10+00001300 \n110003+0000000B 84..10+00000000 88..10+00001450 \n110004+0000000A 33..00-00002705 87..10+00001300 \n";

/// The list of the book with one sight.
pub const LIST: &[u8] = b"number,from,to,difference\n1,A,B,2.54500000\n";

/// The arguments that adjust the book with one sight.
pub const ADJUST_SITE: &str = "adjust --benchmarks heights --out out site.gsi";

/// The arguments that adjust the book with a sight there and one back.
pub const ADJUST_BACK: &str = "adjust --benchmarks heights --weights weights --out out back.gsi";

/// The files that an adjustment writes with these arguments, in order.
pub const ADJUSTED: [&str; 4] = [
    "out.heights.csv",
    "out.certificate.csv",
    "out.report.txt",
    "out.heights.gsi",
];

/// The files that a review with the prefix `out` writes, in order.
pub const REVIEWED: [&str; 5] = [
    "out.points.csv",
    "out.observations.csv",
    "out.entries.csv",
    "out.benchmarks.csv",
    "out.review.txt",
];

/// The file that a page with the prefix `out` is.
pub const PAGED: [&str; 1] = ["out.html"];

/// No bytes.
const NOTHING: &[u8] = b"";

/// How many bytes a sink has room for where a test does not say.
pub const ROOM: usize = 10_000;

/// How many bytes a sink has room for that takes a page.
pub const WIDE: usize = 20_000;

/// A folder with both books, benchmarks and weights, and the first book on standard input. Each sink
/// has this room.
pub fn project(rt: &(impl AllocGlobal + Abort), room: usize) -> MemoryFolder {
    let made = MemoryFolder::new(rt.alloc(), BOOK, room, 7);
    let mut folder = made.ok().expect(rt, "the folder");
    put(rt, &mut folder, "site.gsi", BOOK);
    put(rt, &mut folder, "back.gsi", THERE_AND_BACK);
    put(rt, &mut folder, "heights", b"point,height\nA,100\n");
    put(rt, &mut folder, "weights", b"from,to,weight\nA,B,3\n");
    folder
}

/// Puts a file into the folder.
pub fn put(rt: &(impl AllocGlobal + Abort), folder: &mut MemoryFolder, name: &str, text: &[u8]) {
    folder
        .put(rt.alloc(), name, text)
        .ok()
        .expect(rt, "the file");
}

/// Runs the program with the words of a line behind its own name, and answers its status.
pub fn run<F: Folder>(rt: &(impl AllocGlobal + Abort), folder: &mut F, line: &str) -> u8 {
    let mut words = Vec::new(rt.alloc());
    words.push("height_office").ok().expect(rt, "the name");
    for word in line.split_whitespace() {
        words.push(word).ok().expect(rt, "the word");
    }
    run_words(rt.alloc(), folder, words.as_slice())
}

/// The bytes of the file of this name, none where there is no file.
pub fn file<'a>(folder: &'a MemoryFolder, name: &str) -> &'a [u8] {
    shown(folder.file(name))
}

/// Bytes, none where there are none.
pub fn shown(text: Option<&[u8]>) -> &[u8] {
    text.unwrap_or(NOTHING)
}

/// Standard output has this text, and standard error nothing.
pub fn prints(folder: &MemoryFolder, text: &[u8]) -> bool {
    same(shown(folder.output()), text) && folder.errors().is_none()
}

/// Standard error has these lines, and standard output nothing.
pub fn reports(folder: &MemoryFolder, lines: &[u8]) -> bool {
    same(shown(folder.errors()), lines) && folder.output().is_none()
}

/// Standard error begins so and ends with a line, and standard output has nothing.
pub fn begins_to_report(folder: &MemoryFolder, line: &[u8]) -> bool {
    let errors = shown(folder.errors());
    errors.starts_with(line) && errors.ends_with(b"\n") && folder.output().is_none()
}

/// Neither stream has anything.
pub fn is_silent(folder: &MemoryFolder) -> bool {
    folder.output().is_none() && folder.errors().is_none()
}

/// Both have the same bytes.
pub fn same(text: &[u8], wanted: &[u8]) -> bool {
    text == wanted
}
