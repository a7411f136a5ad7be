//! Standard error as a sink. It does not report its bytes.
ghost use Rattle.std.specs.Prelude.{◌≡◌, ◌<◌, true, false, IfOk, length};
ghost use Rattle.th_devices.specs.Devices.{IsMade, untold};
ghost use Rattle.th_devices.specs.Spots.{errors as errors_spot};

use crate::devices::{Counts, Failed, Sink};
use std::marker::Model;
use std::str;

/// Standard error. A write takes all of its bytes, and fails if they are not UTF-8.
#[derive(Drop)]
pub struct StandardError<'a, R: Eprint> {
    errors: &'a R,
    finished: bool,
    counts: Counts,
}

impl<'a, R: Eprint> Model for StandardError<'a, R> {
    ghost use Rattle.th_devices.specs.Devices.{UntoldState};
    ghost use Rattle.th_devices.specs.Spots.{errors as errors_spot};

    ghost Value = { UntoldState };

    ghost view = { λ sink. record {
      spot = errors_spot;
      is_finished = sink.finished;
      counts = sink.counts;
    } };
}

impl<'a, R: Eprint> StandardError<'a, R> {
    /// Standard error.
    pub fn new(errors: &'a R) -> StandardError<'a, R>
        ensures { IsMade false true errors_spot (untold result) }
    {
        StandardError {
            errors,
            finished: false,
            counts: Counts::new(),
        }
    }

    /// Prints all of the bytes, or fails.
    fn print(&self, bytes: &[u8]) -> Result<usize, Failed>
        ensures { IfOk result (λ count. count ≡ length bytes.now) }
    {
        let text = str::from_utf8(bytes).map_err(|_| Failed)?;
        self.errors.eprint(text).map_err(|_| Failed)?;
        Ok(bytes.len())
    }
}

impl<'a, R: Eprint> Sink for StandardError<'a, R> {
    ghost state = { untold };

    fn begin(&mut self) -> Result<(), Failed> {
        let begun = Ok(());
        self.finished = false;
        self.counts.count(&begun);
        begun
    }

    fn write(&mut self, bytes: &[u8]) -> Result<usize, Failed> {
        let answer = self.print(bytes);
        self.finished = false;
        self.counts.count(&answer);
        answer
    }

    fn finish(&mut self) -> Result<(), Failed> {
        let finished = Ok(());
        self.finished = true;
        self.counts.count(&finished);
        finished
    }
}
