//! What the program reads from and writes to.
//!
//! A source reports the bytes that it has left, and a sink those that it holds, to contracts:
//! `Some` of them, or `None`, as for real files. Both count their calls, and how many of these
//! failed, and a call fails only if the device may fail, which is fixed for its life. A sink also
//! reports whether it was finished.
ghost use Rattle.std.specs.Prelude.{◌≡◌, ◌<◌, ◌≤◌};
ghost use Rattle.th_devices.specs.Limits.{call_limit};

/// A device failed: the call did not do its work.
#[derive(Clone, Copy, Debug, PartialEq, Eq)]
pub struct Failed;

/// How often a device was called, and how many of these calls failed.
#[derive(Clone, Copy, Debug)]
pub struct Counts {
    /// How often the device was called.
    pub calls: u128,
    /// How many of these calls failed.
    pub failures: u128,
    ghost failures_are_calls: { failures ≤ calls },
}

impl Counts {
    ghost use Rattle.th_devices.specs.Devices.{IsCounted};

    /// The counts of a device that was not called yet.
    pub fn new() -> Counts
        ensures { result.calls ≡ 0 }
    {
        Counts {
            calls: 0,
            failures: 0,
        }
    }

    /// Counts a call that returned this.
    pub fn count<T>(&mut self, answer: &Result<T, Failed>)
        requires { self.old.calls < call_limit }
        ensures { IsCounted self.old self.new answer.now }
    {
        self.calls += 1;
        if answer.is_err() {
            self.failures += 1;
        }
    }
}

/// What bytes are read from.
pub trait Source {
    ghost use Rattle.th_devices.specs.Devices.{IsRead, SourceState};

    // What contracts see of it.
    ghost state: { Self → SourceState };

    /// Reads the next bytes into the front of `into`, and returns how many.
    ///
    /// For a slice that is not empty this is 0 exactly at the end of the source. The rest of the
    /// slice stays as it is. A read that fails takes nothing and leaves the slice as it is.
    fn read(&mut self, into: &mut [u8]) -> Result<usize, Failed>
        requires { (state self.old).counts.calls < call_limit }
        ensures { IsRead (state self.old) (state self.new) into.old into.new result };
}

/// What a text is written to.
pub trait Sink {
    ghost use Rattle.th_devices.specs.Devices.{IsBegun, IsFinish, IsWrite, SinkState};

    // What contracts see of it.
    ghost state: { Self → SinkState };

    /// Empties the output. If the call fails, the bytes stay as they are. Either way the output is not
    /// finished afterwards.
    fn begin(&mut self) -> Result<(), Failed>
        requires { (state self.old).counts.calls < call_limit }
        ensures { IsBegun (state self.old) (state self.new) result };

    /// Takes bytes from the front of `bytes`, at least one unless it is empty, and returns how
    /// many. A write that fails takes none. The output is not finished afterwards.
    fn write(&mut self, bytes: &[u8]) -> Result<usize, Failed>
        requires { (state self.old).counts.calls < call_limit }
        ensures { IsWrite (state self.old) (state self.new) bytes.now result };

    /// Brings the bytes to where they are to stay. The output is finished afterwards unless the
    /// call fails. Either way the bytes stay as they are.
    fn finish(&mut self) -> Result<(), Failed>
        requires { (state self.old).counts.calls < call_limit }
        ensures { IsFinish (state self.old) (state self.new) result };
}
