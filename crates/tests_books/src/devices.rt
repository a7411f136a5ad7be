//! What no clause says of sources and sinks in memory and of standard output: that calls succeed where
//! memory is ample, and the state after a call that fails.
ghost use Rattle.std.specs.Prelude.{◌≤◌};

use std::alloc::{AllocError, Global};
use std::cell::Cell;
use std::fmt::Display;
use std::io;
use std::test::Fail;
use th_devices::{
    Failed, ReadFault, Reasons, StandardOutput, TextSink, TextSource, read_all, write_all,
};

/// A text of 70 bytes.
pub const TEXT: &[u8] =
    b"kind,key,value\nV,1,1\nH,A,100.00000000\nH,B,102.54500000\nF,1,0\nZ,cost,0\n";

/// How many bytes are read up to a limit, at most as many at once as a piece; `None` if they are not a
/// beginning of the text.
fn length_read(alloc: Global, piece: usize, limit: u32) -> Option<usize>
    requires { 1 ≤ piece }
{
    let mut source = TextSource::new(TEXT, piece, None);
    match read_all(alloc, &mut source, limit) {
        Ok(bytes) if TEXT.starts_with(bytes.as_slice()) => Some(bytes.len()),
        _ => None,
    }
}

#[test]
fn reads_to_the_end_or_past_the_limit(rt: HostRuntime) {
    // The most bytes that a read gives, the limit, and how many bytes are then read.
    let rows = [
        (1, 100, 70),
        (20, 70, 70),
        (20, 69, 70),
        (20, 40, 41),
        (1000, 0, 1),
    ];
    for &(piece, limit, length) in &rows {
        assert!(rt; piece >= 1);
        let read = length_read(rt.alloc(), piece, limit);
        assert_eq!(rt; read, Some(length), "piece {piece}, limit {limit}");
    }
}

/// How many bytes are left once this read has failed; `None` if it does not fail.
fn left_after_failure(alloc: Global, fail_at: u128) -> Option<usize> {
    let mut source = TextSource::new(TEXT, 20, Some(fail_at));
    if !matches!(read_all(alloc, &mut source, 100), Err(ReadFault::Failed)) {
        return None;
    }
    let rest = read_all(alloc, &mut source, 100).ok()?;
    Some(rest.len())
}

#[test]
fn a_read_that_fails_takes_nothing(rt: HostRuntime) {
    // The read that fails, and how many bytes are left then.
    for &(fail_at, left) in &[(1, 70), (2, 50), (3, 30), (4, 10), (5, 0)] {
        assert_eq!(rt;
            left_after_failure(rt.alloc(), fail_at),
            Some(left),
            "read {fail_at}"
        );
    }
    let mut source = TextSource::new(TEXT, 20, Some(6));
    assert!(rt; read_all(rt.alloc(), &mut source, 100).is_ok());
}

/// The call to a sink that fails leaves as many bytes, and the text is then written whole.
fn leaves_beginning(alloc: Global, fail_at: u128, held: usize) -> Result<bool, AllocError> {
    let mut sink = TextSink::new(alloc, 70, 20, Some(fail_at))?;
    let failed = write_all(&mut sink, TEXT) == Err(Failed) && sink.bytes().len() == held;
    Ok(failed && write_all(&mut sink, TEXT) == Ok(()) && sink.bytes() == TEXT)
}

#[test]
fn a_call_that_fails_leaves_a_beginning(rt: HostRuntime) -> Result<(), Fail> {
    // The call that fails, and how many bytes are held then.
    for &(fail_at, held) in &[(1, 0), (2, 0), (3, 20), (4, 40), (5, 60), (6, 70)] {
        assert!(rt;
            leaves_beginning(rt.alloc(), fail_at, held)?,
            "call {fail_at}"
        );
    }
    Ok(())
}

#[test]
fn a_text_with_too_little_room(rt: HostRuntime) -> Result<(), Fail> {
    let mut sink = TextSink::new(rt.alloc(), 70, 20, Some(7))?;
    assert_eq!(rt; write_all(&mut sink, TEXT), Ok(()));
    let mut sink = TextSink::new(rt.alloc(), 69, 20, None)?;
    let written = write_all(&mut sink, TEXT);
    assert_eq!(rt; (written, sink.bytes().len()), (Err(Failed), 69));
    Ok(())
}

/// A standard output that takes a byte a call, and fails once it is full.
#[derive(Drop)]
struct FullOutput {
    taken: Cell<usize>,
    room: usize,
}

impl Print for FullOutput {
    fn print<D: Display + Drop>(&self, _value: D) -> io::Result<()> {
        Err(io::Error::from(io::ErrorKind::BrokenPipe))
    }

    fn println<D: Display + Drop>(&self, _value: D) -> io::Result<()> {
        Err(io::Error::from(io::ErrorKind::BrokenPipe))
    }

    fn write_all(&self, _bytes: &[u8]) -> io::Result<()> {
        Err(io::Error::from(io::ErrorKind::BrokenPipe))
    }

    fn write_some(&self, bytes: &[u8]) -> io::Result<usize> {
        let taken = self.taken.get();
        if taken == self.room {
            return Err(io::Error::from(io::ErrorKind::BrokenPipe));
        }
        let count = bytes.len().min(1);
        self.taken.set(taken.saturating_add(count));
        Ok(count)
    }
}

/// What is answered when the text is written to a standard output with this room, and how many bytes it
/// takes.
fn written_to_output(room: usize) -> (Result<(), Failed>, usize) {
    let taken = Cell::new(0);
    let output = FullOutput { taken, room };
    let reasons = Reasons::new();
    let mut sink = StandardOutput::new(&output, &reasons);
    let written = write_all(&mut sink, TEXT);
    (written, output.taken.get())
}

#[test]
fn standard_output_takes_all_or_fails(rt: HostRuntime) {
    // How many bytes it takes, and the answer.
    for &(room, answer) in &[(70, Ok(())), (69, Err(Failed)), (0, Err(Failed))] {
        assert_eq!(rt; written_to_output(room), (answer, room));
    }
}

/// The text is read in very many calls.
fn is_read(alloc: Global, text: &[u8]) -> bool {
    let mut source = TextSource::new(text, 1, None);
    match read_all(alloc, &mut source, 1_000_000) {
        Ok(bytes) => bytes.as_slice() == text,
        Err(_) => false,
    }
}

/// The text is written in very many calls.
fn is_written(alloc: Global, text: &[u8]) -> Result<bool, AllocError> {
    let mut sink = TextSink::new(alloc, 1_000_000, 1, None)?;
    Ok(write_all(&mut sink, text) == Ok(()) && sink.bytes() == text)
}

#[test]
fn a_long_text_comes_and_goes_in_very_many_calls(rt: HostRuntime) -> Result<(), Fail> {
    let text = vec![in rt.alloc(); b'x'; 1_000_000]?;
    assert!(rt; is_read(rt.alloc(), text.as_slice()));
    assert!(rt; is_written(rt.alloc(), text.as_slice())?);
    Ok(())
}
