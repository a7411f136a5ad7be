//! What no clause says of files: that calls succeed, what real files then hold, and that a call which
//! the system fails is not tried again.
ghost use Rattle.std.specs.Prelude.{◌≡◌, ◌<◌};
ghost use Rattle.th_devices.specs.Limits.{call_limit};

use crate::devices::TEXT;
use crate::failing_files::{Call, FailingFiles};
use std::fs;
use std::fs::Permissions;
use std::os::unix::fs::PermissionsExt;
use std::process::Abort;
use std::rt::Files;
use std::test::Fail;
use th_devices::{
    Failed, FileSink, FileSource, ReadFault, Reason, Reasons, Sink, Source, TextSource, read_all,
    write_all,
};

/// A name for a file.
fn named(rt: &(impl AllocGlobal + Abort), name: &str) -> String {
    String::from_str(rt.alloc(), name)
        .ok()
        .expect(rt, "the name")
}

/// The first sink of the run with number 7, for the file of this name.
fn sink<'a, R: Files>(
    rt: &(impl AllocGlobal + Abort),
    files: &'a R,
    name: &str,
    reasons: &'a Reasons,
) -> FileSink<'a, R>
    ensures { result.device.counts.calls ≡ 0 }
{
    FileSink::new(rt.alloc(), files, name, 7, 1, reasons)
        .ok()
        .expect(rt, "the sink")
}

/// The file of this name has these bytes.
fn has(rt: &HostRuntime, name: &str, text: &[u8]) -> bool {
    match fs::read(rt, name) {
        Ok(bytes) => bytes.as_slice() == text,
        Err(_) => false,
    }
}

/// There is no file of this name.
fn is_absent(rt: &HostRuntime, name: &str) -> bool {
    !fs::exists(rt, name).unwrap_or(true)
}

/// The file of this name has these bytes, and none is left beside it.
fn holds(rt: &HostRuntime, name: &str, beside: &str, text: &[u8]) -> bool {
    has(rt, name, text) && is_absent(rt, beside)
}

/// The file of this name is read to its end, and has these bytes.
fn is_read(rt: &(impl AllocGlobal + Abort + Files), name: &str, limit: u32, text: &[u8]) -> bool {
    let reasons = Reasons::new();
    let mut source = FileSource::new(rt, named(rt, name), &reasons);
    match read_all(rt.alloc(), &mut source, limit) {
        Ok(bytes) => bytes.as_slice() == text,
        Err(_) => false,
    }
}

#[test]
fn a_file_is_written_and_read_back(rt: HostRuntime) {
    let reasons = Reasons::new();
    let name = "written.csv";
    let longer = b"a text that is longer than the one which is written over it, by some bytes";
    let mut out = sink(&rt, &rt, name, &reasons);
    let answers = [
        write_all(&mut out, longer),
        out.place(),
        write_all(&mut out, TEXT),
        out.place(),
    ];
    assert_eq!(rt; answers, [Ok(()); 4]);
    assert!(rt; is_read(&rt, name, 100, TEXT));
    assert!(rt; fs::remove_file(&rt, name).is_ok());
}

/// Why the file of this name is not read.
fn fault_of(
    rt: &(impl AllocGlobal + Abort + Files),
    name: &str,
    reasons: &Reasons,
) -> Option<ReadFault> {
    let mut source = FileSource::new(rt, named(rt, name), reasons);
    read_all(rt.alloc(), &mut source, 100).err()
}

#[test]
fn a_file_that_cannot_be_opened_fails_its_call(rt: HostRuntime) {
    let reasons = Reasons::new();
    let fault = fault_of(&rt, "no-such-folder/book.gsi", &reasons);
    assert_eq!(rt; fault, Some(ReadFault::Failed));
    assert_eq!(rt; reasons.last(), Some(Reason::NotFound));
    let mut out = sink(&rt, &rt, "no-such-folder/heights.csv", &reasons);
    let written = write_all(&mut out, TEXT);
    assert_eq!(rt;
        (written, reasons.last()),
        (Err(Failed), Some(Reason::NotFound))
    );
}

/// A read of no bytes from the file of this name gives none.
fn reads_none(rt: &(impl AllocGlobal + Abort + Files), name: &str) -> bool {
    let reasons = Reasons::new();
    let mut source = FileSource::new(rt, named(rt, name), &reasons);
    source.read(&mut []) == Ok(0)
}

#[test]
fn a_finished_file_is_left_alone(rt: HostRuntime) {
    let reasons = Reasons::new();
    let (name, beside) = ("left_alone.csv", "7-1.unfinished");
    let mut out = sink(&rt, &rt, name, &reasons);
    assert_eq!(rt; write_all(&mut out, TEXT), Ok(()));
    assert_eq!(rt; out.write(b"Z"), Err(Failed));
    let answers = [out.finish(), out.place(), write_all(&mut out, TEXT)];
    assert_eq!(rt; answers, [Err(Failed), Err(Failed), Ok(())]);
    assert!(rt; is_absent(&rt, name));
    assert_eq!(rt; [out.place(), out.place()], [Ok(()), Err(Failed)]);
    out.discard();
    assert!(rt; holds(&rt, name, beside, TEXT) && reads_none(&rt, name));
    assert!(rt; fs::remove_file(&rt, name).is_ok());
}

#[test]
fn a_file_stays_until_another_one_is_placed(rt: HostRuntime) {
    let reasons = Reasons::new();
    let (name, beside) = ("stays.csv", "7-1.unfinished");
    assert!(rt; fs::write(&rt, name, b"before").is_ok());
    let mut out = sink(&rt, &rt, name, &reasons);
    assert_eq!(rt; (out.begin(), out.write(TEXT)), (Ok(()), Ok(70)));
    assert!(rt; has(&rt, name, b"before") && has(&rt, beside, TEXT));
    out.discard();
    assert!(rt; holds(&rt, name, beside, b"before"));
    assert_eq!(rt; out.write(TEXT), Err(Failed));
    let answers = [out.finish(), out.place(), write_all(&mut out, TEXT)];
    assert_eq!(rt; answers, [Err(Failed), Err(Failed), Ok(())]);
    assert!(rt; has(&rt, name, b"before"));
    assert_eq!(rt; out.place(), Ok(()));
    assert!(rt; holds(&rt, name, beside, TEXT));
    assert!(rt; fs::remove_file(&rt, name).is_ok());
}

#[test]
fn a_file_of_another_run_stays(rt: HostRuntime) {
    let reasons = Reasons::new();
    let (name, beside) = ("another.csv", "7-1.unfinished");
    assert!(rt; fs::write(&rt, beside, b"of another run").is_ok());
    let mut out = sink(&rt, &rt, name, &reasons);
    assert_eq!(rt; write_all(&mut out, TEXT), Err(Failed));
    out.discard();
    assert!(rt; is_absent(&rt, name) && has(&rt, beside, b"of another run"));
    assert!(rt; fs::remove_file(&rt, beside).is_ok());
}

/// Writes a file with these permissions.
fn make(rt: &(impl AllocGlobal + Abort + Files), name: &str, mode: u32) {
    assert!(rt; fs::write(rt, name, b"before").is_ok());
    assert!(rt; fs::set_permissions(rt, name, Permissions::from_mode(mode)).is_ok());
}

/// Writes a file in place of the one of this name.
fn replace(rt: &(impl AllocGlobal + Abort + Files), name: &str) {
    let reasons = Reasons::new();
    let mut out = sink(rt, rt, name, &reasons);
    assert_eq!(rt; [write_all(&mut out, TEXT), out.place()], [Ok(()); 2]);
}

/// Writes a file in place of one that has these permissions, and returns those that it has then.
fn permissions_after(rt: &(impl AllocGlobal + Abort + Files), name: &str, mode: u32) -> u32 {
    make(rt, name, mode);
    replace(rt, name);
    let known = fs::metadata(rt, name).ok().expect(rt, "the file");
    assert!(rt; fs::remove_file(rt, name).is_ok());
    known.permissions().mode() & 0o7777
}

#[test]
fn permissions_stay_and_lend_no_rights(rt: HostRuntime) {
    // The name of a file, its permissions, and those of the file in its place.
    for &(name, mode, after) in &[
        ("private.csv", 0o600, 0o600),
        ("open.csv", 0o666, 0o666),
        ("owner.csv", 0o4755, 0o755),
        ("group.csv", 0o2775, 0o775),
        ("sticky.csv", 0o1644, 0o644),
    ] {
        assert_eq!(rt; permissions_after(&rt, name, mode), after, "{name}");
    }
}

#[test]
fn a_folder_in_the_way_stays(rt: HostRuntime) {
    let reasons = Reasons::new();
    let name = "in_the_way.csv";
    assert!(rt; fs::create_dir(&rt, name).is_ok());
    let mut out = sink(&rt, &rt, name, &reasons);
    assert_eq!(rt; [out.begin(), write_all(&mut out, TEXT)], [Err(Failed); 2]);
    out.discard();
    assert!(rt; is_absent(&rt, "7-1.unfinished"));
    assert!(rt; fs::remove_dir(&rt, name).is_ok());
}

/// A file with these bytes is written and placed.
fn is_written(rt: &(impl AllocGlobal + Abort + Files), name: &str, text: &[u8]) -> bool {
    let reasons = Reasons::new();
    let mut out = sink(rt, rt, name, &reasons);
    [write_all(&mut out, text), out.place()] == [Ok(()); 2]
}

#[test]
fn a_long_file_is_written_and_read_back(rt: HostRuntime) -> Result<(), Fail> {
    let name = "long.csv";
    let text = vec![in rt.alloc(); b'x'; 1_000_000]?;
    assert!(rt; is_written(&rt, name, text.as_slice()));
    assert!(rt; is_read(&rt, name, 2_000_000, text.as_slice()));
    assert!(rt; fs::remove_file(&rt, name).is_ok());
    Ok(())
}

#[test]
fn what_the_system_fails_is_not_tried_again(rt: HostRuntime) {
    let reasons = Reasons::new();
    let files = FailingFiles { fails: Call::First };
    let mut into = [0u8; 4];
    let mut source = FileSource::new(&files, named(&rt, "book.gsi"), &reasons);
    let read = [source.read(&mut into), source.read(&mut into)];
    assert_eq!(rt; read, [Err(Failed), Ok(0)]);
    let mut out = sink(&rt, &files, "heights.csv", &reasons);
    let answers = [out.begin(), out.finish(), out.finish()];
    assert_eq!(rt; answers, [Ok(()), Err(Failed), Ok(())]);
}

/// What is answered when an empty file is written and then placed, where this call fails.
fn written_and_placed(
    rt: &(impl AllocGlobal + Abort + Files),
    fails: Call,
) -> [Result<(), Failed>; 2] {
    let reasons = Reasons::new();
    let files = FailingFiles { fails };
    let mut out = sink(rt, &files, "heights.csv", &reasons);
    [write_all(&mut out, b""), out.place()]
}

#[test]
fn a_file_is_whole_only_on_the_disk(rt: HostRuntime) {
    // The call that fails, and what is answered when the file is written. It is never placed.
    for &(fails, written) in &[
        (Call::Sync, Err(Failed)),
        (Call::Permit, Err(Failed)),
        (Call::Rename, Ok(())),
    ] {
        assert_eq!(rt; written_and_placed(&rt, fails), [written, Err(Failed)]);
    }
}

/// A read fails, and leaves the slice as it was.
fn fails_and_leaves_its_slice<S: Source>(source: &mut S) -> bool
    requires { (S.state source.old).counts.calls < call_limit }
{
    let mut into = [7u8; 4];
    source.read(&mut into) == Err(Failed) && into == [7; 4]
}

#[test]
fn a_failed_read_leaves_its_slice(rt: HostRuntime) {
    let reasons = Reasons::new();
    let mut source = TextSource::new(TEXT, 20, Some(1));
    assert!(rt; fails_and_leaves_its_slice(&mut source));
    let mut source = FileSource::new(&rt, named(&rt, "no-such-folder/book.gsi"), &reasons);
    assert!(rt; fails_and_leaves_its_slice(&mut source));
    let files = FailingFiles { fails: Call::First };
    let mut source = FileSource::new(&files, named(&rt, "book.gsi"), &reasons);
    assert!(rt; fails_and_leaves_its_slice(&mut source));
}
