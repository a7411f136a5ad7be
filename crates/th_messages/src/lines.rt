//! A line that grows part by part.
ghost use Rattle.std.specs.Prelude.{◌≡◌, ◌+◌, ◌*◌, ◌^◌, ◌≤◌, ◌∷◌, [], decimal, length};
ghost use Rattle.th_devices.specs.Devices.{IsReady};
ghost use Rattle.th_devices.specs.Limits.{calls_before};
ghost use Rattle.th_messages.specs.Lines.{HasRoom, IsEnded, IsNew, IsPut, IsPutIn};
ghost use Rattle.th_inputs.specs.Shown.{shown, shown_lines};
ghost use Rattle.th_messages.specs.declared.lines.TheConstants.{CAPACITY};
ghost use Rattle.th_units.specs.Metres.{metres};

use gsi_word::Name;
use itoa::Buffer;
use std::marker::Model;
use th_devices::{Failed, Sink};
use th_inputs::shown_byte;
use th_units::metre_text;

/// How many bytes wait until they are passed on together.
const CAPACITY: usize = 1_024;

/// The byte that ends a line.
const LINE_FEED: u8 = b'\n';

/// A text that is put together part by part and passed on to a sink. It allocates nothing. After a
/// call of the sink failed, it passes nothing on.
#[derive(Drop)]
pub struct Line<K: Sink> {
    sink: K,
    waiting: [u8; CAPACITY],
    count: usize,
    passed: Result<(), Failed>,
}

impl<K: Sink> Model for Line<K> {
    ghost use Rattle.std.specs.Prelude.{◌≡◌, ◌≤◌, ◌<◌, false, is_ok, take};
    ghost use Rattle.th_devices.specs.Devices.{SinkState};
    ghost use Rattle.th_messages.specs.Lines.{line_of};
    ghost use Rattle.th_messages.specs.declared.lines.TheConstants.{CAPACITY};

    ghost Value = { SinkState };

    ghost view = { λ line. line_of (K.state line.sink) (take line.count line.waiting) };

    ghost invariant = { λ line. (line.count ≤ CAPACITY)
        × (is_ok line.passed ≡ false → 0 < (K.state line.sink).counts.failures) };
}

impl<K: Sink> Line<K> {
    /// An empty text for this sink.
    pub fn begin(mut sink: K) -> Line<K>
        requires { IsReady (K.state sink).counts }
        ensures { IsNew (K.state sink) result }
    {
        let passed = sink.begin();
        Line {
            sink,
            waiting: [0; CAPACITY],
            count: 0,
            passed,
        }
    }

    /// Puts a part behind what is there. An error shows that a call of the sink failed.
    pub fn put(&mut self, text: &str) -> Result<(), Failed>
        requires { HasRoom 1 self.old }
        ensures { IsPut 1 text.now self.old self.new result }
    {
        self.put_bytes(text.as_bytes())
    }

    /// Puts a number in base 10.
    pub fn put_number(&mut self, number: u32) -> Result<(), Failed>
        requires { HasRoom 1 self.old }
        ensures { IsPut 1 (decimal number) self.old self.new result }
    {
        let mut digits = Buffer::new();
        self.put(digits.format(number))
    }

    /// Puts the name of a point, which has printable ASCII alone.
    pub fn put_name(&mut self, name: &Name) -> Result<(), Failed>
        requires { HasRoom 1 self.old }
        ensures { IsPut 1 name.now self.old self.new result }
    {
        self.put_bytes(name.as_bytes())
    }

    /// Puts a length in units of 10 nm, in metres.
    pub fn put_metres(&mut self, units: i64) -> Result<(), Failed>
        requires { HasRoom 1 self.old }
        ensures { IsPut 1 (metres units) self.old self.new result }
    {
        self.put_bytes(metre_text(units).as_bytes())
    }

    /// Puts a text as its bytes are shown.
    pub fn put_shown(&mut self, text: &str) -> Result<(), Failed>
        requires { HasRoom 1 self.old }
        ensures { IsPut 1 (shown text.now) self.old self.new result }
    {
        for byte in text.as_bytes() {
            self.put_bytes(shown_byte(*byte).as_bytes())?;
        }
        Ok(())
    }

    /// Puts a text of several lines as its bytes are shown.
    pub fn put_shown_lines(&mut self, text: &str) -> Result<(), Failed>
        requires { HasRoom 1 self.old }
        ensures { IsPut 1 (shown_lines text.now) self.old self.new result }
    {
        for byte in text.as_bytes() {
            if *byte == LINE_FEED {
                self.put_byte(LINE_FEED)?;
            } else {
                self.put_bytes(shown_byte(*byte).as_bytes())?;
            }
        }
        Ok(())
    }

    /// Puts bytes.
    fn put_bytes(&mut self, bytes: &[u8]) -> Result<(), Failed>
        requires { self.old.counts.calls + 1024 * length bytes.now ≤ calls_before }
        ensures { IsPutIn (1024 * length bytes.now) bytes.now self.old self.new result }
    {
        for byte in bytes {
            self.put_byte(*byte)?;
        }
        Ok(())
    }

    /// Puts a byte.
    fn put_byte(&mut self, byte: u8) -> Result<(), Failed>
        requires { self.old.counts.calls ≤ calls_before }
        ensures { IsPutIn 1024 (byte ∷ []) self.old self.new result }
    {
        self.passed?;
        if self.count == CAPACITY {
            self.passed = pass_on(&mut self.sink, &self.waiting);
            self.count = 0;
            self.passed?;
        }
        self.waiting[self.count] = byte;
        self.count += 1;
        Ok(())
    }

    /// Passes on what waits, finishes the sink, and gives it back.
    pub fn end(mut self) -> K
        requires { self.counts.calls + 1024 ≤ calls_before }
        ensures { IsEnded self (K.state result) }
    {
        let mut sink = self.sink;
        if self.passed.is_ok() && pass_on(&mut sink, &self.waiting[..self.count]).is_ok() {
            let _ = sink.finish();
        }
        sink
    }
}

/// Writes all of these bytes.
fn pass_on<K: Sink>(sink: &mut K, bytes: &[u8]) -> Result<(), Failed>
    requires { (K.state sink.old).counts.calls + length bytes.now ≤ calls_before + 1024 }
    ensures { IsPutIn (length bytes.now) bytes.now (K.state sink.old) (K.state sink.new) result }
{
    let mut done = 0;
    while done < bytes.len() {
        done += sink.write(&bytes[done..])?;
    }
    Ok(())
}
