//! Real files as sources. A source reports the bytes that are left if its open file does, which
//! files of the system do not.
ghost use Rattle.std.specs.Prelude.{◌≡◌, ◌<◌, true, false, is_some, None, OnOk, option_and_then, string_bytes};
ghost use Rattle.th_devices.specs.Devices.{Gives, IsOpened, IsRead};
ghost use Rattle.th_devices.specs.Limits.{call_limit};

use crate::bytes::read_some;
use crate::devices::{Counts, Failed, Source};
use crate::reasons::Reasons;
use std::fs;
use std::marker::Model;
use std::rt::Files;

/// A file that is opened at the first read. If it cannot be opened, that read fails.
#[derive(Drop)]
pub struct FileSource<'a, R: Files> {
    files: &'a R,
    reasons: &'a Reasons,
    name: String,
    file: Option<R::File>,
    counts: Counts,
}

impl<'a, R: Files> Model for FileSource<'a, R> {
    ghost use Rattle.std.specs.Prelude.{true, is_some, option_and_then, string_bytes};
    ghost use Rattle.th_devices.specs.Files.{FileSourceState};

    ghost Value = { FileSourceState };

    ghost view = { λ source. record {
      name = string_bytes source.name;
      opened = is_some source.file;
      device = record {
        left = option_and_then R.File.remaining source.file;
        may_fail = true;
        counts = source.counts;
      };
    } };
}

impl<'a, R: Files> FileSource<'a, R> {
    /// The file of this name, not opened yet.
    pub fn new(files: &'a R, name: String, reasons: &'a Reasons) -> FileSource<'a, R>
        ensures name { result.name ≡ string_bytes name }
        ensures unopened { result.opened ≡ false }
        ensures device { IsOpened true None result.device }
    {
        FileSource {
            files,
            reasons,
            name,
            file: None,
            counts: Counts::new(),
        }
    }
}

/// Reads from the file that is open, or from the one that is opened now.
fn read_opened<R: Files>(
    files: &R,
    name: &str,
    file: &mut Option<R::File>,
    into: &mut [u8],
    reasons: &Reasons,
) -> Result<usize, Failed>
    ensures opened { OnOk result (is_some file.new ≡ true) }
    ensures bytes { Gives (option_and_then R.File.remaining file.old)
        (option_and_then R.File.remaining file.new) into.old into.new result }
{
    if let Some(open) = file {
        return read_some(open, into, reasons);
    }
    let mut open = fs::open(files, name).map_err(|error| reasons.failed(&error))?;
    let answer = read_some(&mut open, into, reasons);
    *file = Some(open);
    answer
}

impl<'a, R: Files> Source for FileSource<'a, R> {
    ghost state = { λ source. source.device };

    fn read(&mut self, into: &mut [u8]) -> Result<usize, Failed>
        requires { self.old.device.counts.calls < call_limit }
        ensures read { IsRead self.old.device self.new.device into.old into.new result }
        ensures opened { OnOk result (self.new.opened ≡ true) }
        ensures name { self.new.name ≡ self.old.name }
    {
        let answer = read_opened(
            self.files,
            self.name.as_str(),
            &mut self.file,
            into,
            self.reasons,
        );
        self.counts.count(&answer);
        answer
    }
}
