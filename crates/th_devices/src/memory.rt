//! Devices in memory, for tests: they give or take a few bytes a call, and fail at a chosen call.
ghost use Rattle.std.specs.Prelude.{◌≡◌, ◌+◌, ◌<◌, ◌≤◌, ◌↔◌, ◌-◌, ◌⊎◌, [], true, IsErr, IsTrue, IfOk, OnErr, Some, length, min};
ghost use Rattle.th_devices.specs.Devices.{IsBegun, IsFinish, IsMade, IsRead, IsWrite};
ghost use Rattle.th_devices.specs.Memory.{FindsNoRoom, text_sink, text_source};
ghost use Rattle.th_devices.specs.Limits.{call_limit};
ghost use Rattle.th_devices.specs.Spots.{nowhere};

use crate::bytes::copy_front;
use crate::devices::{Counts, Failed, Sink, Source};
use std::alloc::{AllocError, Global};
use std::marker::Model;

/// A source over borrowed bytes.
#[derive(Drop)]
pub struct TextSource<'a> {
    rest: &'a [u8],
    piece: usize,
    fail_at: Option<u128>,
    counts: Counts,
}

impl<'a> Model for TextSource<'a> {
    ghost use Rattle.std.specs.Prelude.{◌≤◌};
    ghost use Rattle.th_devices.specs.Memory.{TextSourceState};

    ghost Value = { TextSourceState };

    ghost view = { λ source. record {
      left = source.rest.now;
      piece = source.piece;
      fail_at = source.fail_at;
      counts = source.counts;
    } };

    ghost invariant = { λ source. 1 ≤ source.piece };
}

impl<'a> TextSource<'a> {
    /// A source of these bytes that gives at most `piece` of them a read. Its read number
    /// `fail_at`, counted from 1, fails.
    pub fn new(bytes: &'a [u8], piece: usize, fail_at: Option<u128>) -> TextSource<'a>
        requires { 1 ≤ piece }
        ensures left { result.left ≡ bytes.entry.now }
        ensures piece { result.piece ≡ piece }
        ensures fail_at { result.fail_at ≡ fail_at }
        ensures calls { result.counts.calls ≡ 0 }
    {
        TextSource {
            rest: bytes,
            piece,
            fail_at,
            counts: Counts::new(),
        }
    }
}

/// The next call is the one that is to fail.
fn is_due(fail_at: Option<u128>, counts: &Counts) -> bool
    requires { counts.now.calls < call_limit }
    ensures { IsTrue result ↔ (fail_at ≡ Some (counts.now.calls + 1)) }
{
    fail_at == Some(counts.calls + 1)
}

impl<'a> Source for TextSource<'a> {
    ghost state = { text_source };

    fn read(&mut self, into: &mut [u8]) -> Result<usize, Failed>
        requires { self.old.counts.calls < call_limit }
        ensures read { IsRead (text_source self.old) (text_source self.new) into.old into.new result }
        ensures fails_there { IsErr result ↔ (self.old.fail_at ≡ Some self.new.counts.calls) }
        ensures piece { IfOk result (λ count.
            count ≡ min (min self.old.piece (length self.old.left)) (length into.old)) }
        ensures settings { (self.new.piece ≡ self.old.piece) × (self.new.fail_at ≡ self.old.fail_at) }
    {
        let answer = if is_due(self.fail_at, &self.counts) {
            Err(Failed)
        } else {
            let all: &[u8] = self.rest;
            let count = copy_front(all, self.piece, into);
            self.rest = &all[count..];
            Ok(count)
        };
        self.counts.count(&answer);
        answer
    }
}

/// A sink that keeps what is written to it in memory.
#[derive(Drop)]
pub struct TextSink {
    held: Vec<u8>,
    room: usize,
    piece: usize,
    fail_at: Option<u128>,
    finished: bool,
    counts: Counts,
}

impl Model for TextSink {
    ghost use Rattle.std.specs.Prelude.{◌≤◌, vec_len, vec_capacity};
    ghost use Rattle.th_devices.specs.Memory.{TextSinkState};

    ghost Value = { TextSinkState };

    ghost view = { λ sink. record {
      held = sink.held.items;
      settings = record { room = sink.room; piece = sink.piece; fail_at = sink.fail_at };
      finished = sink.finished;
      counts = sink.counts;
    } };

    ghost invariant = { λ sink. (1 ≤ sink.piece) × (vec_len sink.held ≤ sink.room)
        × (sink.room ≤ vec_capacity sink.held) };
}

impl TextSink {
    /// A sink with room for `room` bytes that takes at most `piece` bytes a write. Its call number
    /// `fail_at`, counted from 1 over all its calls, fails, and so does a write that finds no room.
    pub fn new(
        alloc: Global,
        room: usize,
        piece: usize,
        fail_at: Option<u128>,
    ) -> Result<TextSink, AllocError>
        requires { 1 ≤ piece }
        ensures held { IfOk result (λ sink. sink.held ≡ []) }
        ensures settings { IfOk result (λ sink.
            sink.settings ≡ record { room = room; piece = piece; fail_at = fail_at }) }
        ensures made { IfOk result (λ sink. IsMade true true nowhere (text_sink sink)) }
    {
        Ok(TextSink {
            held: Vec::with_capacity(alloc, room)?,
            room,
            piece,
            fail_at,
            finished: false,
            counts: Counts::new(),
        })
    }

    /// A sink that holds these bytes, and was not called yet. It has no room for more.
    pub fn holding(alloc: Global, text: &[u8]) -> Result<TextSink, AllocError>
        ensures held { IfOk result (λ sink. sink.held ≡ text.now) }
    {
        Ok(TextSink {
            held: Vec::from_slice(alloc, text)?,
            room: text.len(),
            piece: 1,
            fail_at: None,
            finished: false,
            counts: Counts::new(),
        })
    }

    /// A sink without room, which takes no memory.
    pub fn without_room(alloc: Global) -> TextSink
        ensures held { result.held ≡ [] }
        ensures made { IsMade true true nowhere (text_sink result) }
    {
        TextSink {
            held: Vec::new(alloc),
            room: 0,
            piece: 1,
            fail_at: None,
            finished: false,
            counts: Counts::new(),
        }
    }

    /// Whether it was called.
    pub fn is_called(&self) -> bool
        ensures { IsTrue result ↔ (0 < self.now.counts.calls) }
    {
        self.counts.calls > 0
    }

    /// Whether it was finished, and neither begun nor written since.
    pub fn is_finished(&self) -> bool
        ensures { result ≡ self.now.finished }
    {
        self.finished
    }

    /// The bytes that it holds.
    pub fn bytes(&self) -> &[u8]
        ensures { result.now ≡ self.now.held }
    {
        self.held.as_slice()
    }
}

impl Sink for TextSink {
    ghost state = { text_sink };

    fn begin(&mut self) -> Result<(), Failed>
        requires { self.old.counts.calls < call_limit }
        ensures begun { IsBegun (text_sink self.old) (text_sink self.new) result }
        ensures failed { OnErr result (self.new.held ≡ self.old.held) }
        ensures fails_there { IsErr result ↔ (self.old.settings.fail_at ≡ Some self.new.counts.calls) }
        ensures settings { self.new.settings ≡ self.old.settings }
    {
        let answer = if is_due(self.fail_at, &self.counts) {
            Err(Failed)
        } else {
            self.held.clear();
            Ok(())
        };
        self.finished = false;
        self.counts.count(&answer);
        answer
    }

    fn write(&mut self, bytes: &[u8]) -> Result<usize, Failed>
        requires { self.old.counts.calls < call_limit }
        ensures write { IsWrite (text_sink self.old) (text_sink self.new) bytes.now result }
        ensures fails_there { IsErr result
            ↔ ((self.old.settings.fail_at ≡ Some self.new.counts.calls) ⊎ FindsNoRoom self.old bytes.now) }
        ensures piece { IfOk result (λ count. let set = self.old.settings in count
            ≡ min (min set.piece (length bytes.now)) (set.room - length self.old.held)) }
        ensures settings { self.new.settings ≡ self.old.settings }
    {
        let room = self.room - self.held.len();
        let has_room = bytes.is_empty() || room > 0;
        let answer = if is_due(self.fail_at, &self.counts) || !has_room {
            Err(Failed)
        } else {
            let count = self.piece.min(bytes.len()).min(room);
            self.held.extend_from_slice(&bytes[..count]).unwrap();
            Ok(count)
        };
        self.finished = false;
        self.counts.count(&answer);
        answer
    }

    fn finish(&mut self) -> Result<(), Failed>
        requires { self.old.counts.calls < call_limit }
        ensures finish { IsFinish (text_sink self.old) (text_sink self.new) result }
        ensures fails_there { IsErr result ↔ (self.old.settings.fail_at ≡ Some self.new.counts.calls) }
        ensures settings { self.new.settings ≡ self.old.settings }
    {
        let answer = if is_due(self.fail_at, &self.counts) {
            Err(Failed)
        } else {
            Ok(())
        };
        self.finished = answer.is_ok();
        self.counts.count(&answer);
        answer
    }
}
