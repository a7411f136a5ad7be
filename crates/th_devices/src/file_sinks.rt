//! Real files as sinks. The bytes go to a file beside the named one. When they are whole and on the
//! disk, it can take the name. So the name has either the whole text or what it had before. These
//! sinks do not report their bytes.
ghost use Rattle.std.specs.Prelude.{◌≡◌, ◌<◌, ◌||◌, true, false, is_ok, is_some, None, IfOk, OnErr, OnOk, IsErr, option_and_then, string_bytes};
ghost use Rattle.std.specs.Io.KnownBytes.{Keeps};
ghost use Rattle.th_devices.specs.Devices.{IsBegun, IsFinish, IsMade, IsWrite, Takes, untold};
ghost use Rattle.th_devices.specs.Files.{IsBeside, IsWhole, TakesBytes};
ghost use Rattle.th_devices.specs.Inside.Opening.{Opens};
ghost use Rattle.th_devices.specs.Limits.{call_limit};
ghost use Rattle.th_devices.specs.Spots.{file};

use crate::bytes::taken_of;
use crate::devices::{Counts, Failed, Sink};
use crate::reasons::Reasons;
use std::alloc::{AllocError, Global};
use std::fs::{Metadata, OpenFile, OpenOptions, Permissions};
use std::io::{ErrorKind, Write};
use std::marker::Model;
use std::os::unix::fs::{FileTypeExt, MetadataExt, OpenOptionsExt, PermissionsExt};
use std::rt::Files;
use std::{fs, io};

/// Who may read, write and run a file, without the bits that lend the rights of its owner or group.
const PERMISSIONS: u32 = 0o777;

/// The permissions of a file that is being written: its owner alone may use it.
const PRIVATE: u32 = 0o600;

/// The permissions that the system reduces by the umask for a new file.
const ORDINARY: u32 = 0o666;

/// Where devices are. A name that was typed below it may be one.
const DEVICES: &str = "/dev/";

/// Links below it that lead to the standard streams of the process, and to what else it has open.
const STREAMS: [&str; 2] = ["/dev/stdout", "/dev/stderr"];

/// Where links to what the process has open are, by number.
const OPENED: &str = "/dev/fd/";

/// Where the bytes of a file go.
#[derive(Clone, Copy, Debug, PartialEq, Eq)]
enum Way {
    /// To a file beside it, which gets these permissions when it is whole.
    Beside(u32),
    /// Directly to what has its name: a device or a pipe.
    Straight,
}

/// A file that is written beside its name, and takes the name at `place`. Until then, and if a call
/// fails, a file of that name stays as it was. A character device is written directly, if its own name
/// begins with `/dev/`, and so is what `/dev/stdout`, `/dev/stderr` and `/dev/fd/N` lead to. Other names
/// that are or lead to a device, a pipe or a folder are refused. A link to a file, or to none, is
/// replaced, and what it leads to is not touched.
#[derive(Drop)]
pub struct FileSink<'a, R: Files> {
    files: &'a R,
    reasons: &'a Reasons,
    name: String,
    unfinished: String,
    way: Way,
    file: Option<R::File>,
    whole: bool,
    finished: bool,
    counts: Counts,
}

impl<'a, R: Files> Model for FileSink<'a, R> {
    ghost use Rattle.std.specs.Prelude.{is_some, option_and_then, string_bytes};
    ghost use Rattle.th_devices.specs.Files.{FileSinkState, IsBeside};
    ghost use Rattle.th_devices.specs.Spots.{file as file_spot};

    ghost Value = { FileSinkState };

    ghost view = { λ sink. record {
      device = record {
        spot = file_spot (string_bytes sink.name);
        is_finished = sink.finished;
        counts = sink.counts;
      };
      opened = is_some sink.file;
      contents = option_and_then R.File.contents sink.file;
      whole = sink.whole;
    } };

    // The file beside it is in the same folder.
    ghost invariant = { λ sink. IsBeside (string_bytes sink.name) (string_bytes sink.unfinished) };
}

impl<'a, R: Files> FileSink<'a, R> {
    /// The file of this name, not touched yet. The name of the file beside it has the number of the
    /// run, which no other run has, and that of the sink, which no other sink of the run has.
    pub fn new(
        alloc: Global,
        files: &'a R,
        name: &str,
        run: u64,
        number: u32,
        reasons: &'a Reasons,
    ) -> Result<FileSink<'a, R>, AllocError>
        ensures made { IfOk result (λ sink. IsMade false true (file name.now) (untold sink.device)) }
        ensures unopened { IfOk result (λ sink. sink.opened ≡ false) }
        ensures not_whole { IfOk result (λ sink. sink.whole ≡ false) }
    {
        Ok(FileSink {
            files,
            reasons,
            name: String::from_str(alloc, name)?,
            unfinished: beside(alloc, name, run, number)?,
            way: Way::Straight,
            file: None,
            whole: false,
            finished: false,
            counts: Counts::new(),
        })
    }

    /// The name of the file.
    pub(crate) fn name(&self) -> &str {
        self.name.as_str()
    }

    /// Closes the file, and removes what was written beside it unless that took its name.
    pub fn discard(&mut self)
        ensures { self.new ≡ record self.old { opened = false; contents = None } }
    {
        let is_left = self.file.is_some();
        self.file = None;
        if is_left && self.way != Way::Straight {
            let _ = fs::remove_file(self.files, self.unfinished.as_str());
        }
    }

    /// Gives the finished file its name, in place of the file that has it, and closes it. If that
    /// fails, the file of that name stays as it was.
    pub fn place(&mut self) -> Result<(), Failed>
        ensures whole { OnOk result (IsWhole self.old) }
        ensures placed { OnOk result (self.new ≡ record self.old { opened = false; contents = None }) }
        ensures failed { OnErr result (self.new ≡ self.old) }
    {
        if self.file.is_none() || !self.finished {
            return Err(Failed);
        }
        if self.way != Way::Straight {
            let renamed = fs::rename(self.files, self.unfinished.as_str(), self.name.as_str());
            renamed.map_err(|error| self.reasons.failed(&error))?;
        }
        self.file = None;
        Ok(())
    }

    /// Brings what was written to the disk, with the permissions that the file is to have.
    fn complete(&mut self) -> Result<(), Failed>
        ensures takes { OnOk result (TakesBytes self.old) }
        ensures same { self.new ≡ record self.old { contents = self.new.contents } }
        ensures bytes { Keeps self.old.contents self.new.contents }
    {
        if self.whole {
            return Err(Failed);
        }
        flush_opened(&mut self.file, self.reasons)?;
        match self.way {
            Way::Beside(mode) => keep_opened(&self.file, mode, self.reasons),
            Way::Straight => Ok(()),
        }
    }

    /// Opens what takes the bytes of the file.
    fn open(&mut self) -> io::Result<()>
        ensures { Opens self.old self.new result }
    {
        match fs::symlink_metadata(self.files, self.name.as_str()) {
            Ok(known) if known.is_file() => self.open_over(&known),
            Ok(known) if known.is_symlink() => self.open_link(),
            Ok(known) if is_device(self.name.as_str(), &known) => self.open_straight(),
            Ok(known) => Err(refused(&known)),
            Err(error) if error.kind() == ErrorKind::NotFound => self.open_ordinary(),
            Err(error) => Err(error),
        }
    }

    /// Opens what takes the bytes where the name is a link: a file in its place, if it leads to a file or
    /// to none. What it leads to is opened only if that is one of the process's own streams.
    fn open_link(&mut self) -> io::Result<()>
        ensures { Opens self.old self.new result }
    {
        match fs::metadata(self.files, self.name.as_str()) {
            Ok(_) if is_stream(self.name.as_str()) => self.open_straight(),
            Ok(known) if known.is_file() => self.open_ordinary(),
            Ok(known) => Err(refused(&known)),
            Err(error) if error.kind() == ErrorKind::NotFound => self.open_ordinary(),
            Err(error) => Err(error),
        }
    }

    /// Opens a file that is to replace the one that has the name, which must be one that may be
    /// written. Its permissions are kept if it has no other name and both files have one owner: nobody
    /// else is to choose them.
    fn open_over(&mut self, old: &Metadata) -> io::Result<()>
        ensures { Opens self.old self.new result }
    {
        let name = self.name.as_str();
        OpenOptions::new().write(true).open(self.files, name)?;
        self.create(PRIVATE)?;
        if is_by_one_owner(&self.file, old)? {
            self.way = Way::Beside(old.mode() & PERMISSIONS);
            return Ok(());
        }
        self.discard();
        self.open_ordinary()
    }

    /// Opens a file that is to get the permissions which the system gives a new file. An empty one shows
    /// them, and goes: whoever opened it in that moment sees nothing of what is written afterwards.
    fn open_ordinary(&mut self) -> io::Result<()>
        ensures { Opens self.old self.new result }
    {
        self.create(ORDINARY)?;
        let mode = permissions_of(&self.file)?;
        self.discard();
        self.create(PRIVATE)?;
        self.way = Way::Beside(mode);
        Ok(())
    }

    /// Makes the file beside the named one, with these permissions less the umask.
    fn create(&mut self, mode: u32) -> io::Result<()>
        ensures { Opens self.old self.new result }
    {
        let file = OpenOptions::new()
            .write(true)
            .create_new(true)
            .mode(mode)
            .open(self.files, self.unfinished.as_str())?;
        self.file = Some(file);
        self.way = Way::Beside(mode);
        Ok(())
    }

    /// Opens the device of this name, or the stream.
    fn open_straight(&mut self) -> io::Result<()>
        ensures { Opens self.old self.new result }
    {
        let device = OpenOptions::new()
            .write(true)
            .open(self.files, self.name.as_str())?;
        self.file = Some(device);
        self.way = Way::Straight;
        Ok(())
    }
}

/// The name of a file in the same folder: it has the number of the run and that of the sink.
fn beside(alloc: Global, name: &str, run: u64, number: u32) -> Result<String, AllocError>
    ensures { IfOk result (λ own. IsBeside name.now (string_bytes own)) }
{
    match name.rsplit_once("/") {
        Some((folder, _)) => format!(in alloc; "{folder}/{run}-{number}.unfinished"),
        None => format!(in alloc; "{run}-{number}.unfinished"),
    }
}

/// Whether what has this name is a character device below `/dev/`, and no `..` in the name leads out
/// again.
fn is_device(name: &str, known: &Metadata) -> bool {
    name.starts_with(DEVICES) && !name.contains("..") && known.file_type().is_char_device()
}

/// Whether a name is that of a stream of the process.
fn is_stream(name: &str) -> bool {
    match name.strip_prefix(OPENED) {
        Some(number) => !number.contains("/"),
        None => STREAMS.contains(&name),
    }
}

/// Why what has a name, and is no file, is refused.
fn refused(known: &Metadata) -> io::Error {
    io::Error::from(if known.is_dir() {
        ErrorKind::IsADirectory
    } else {
        ErrorKind::InvalidInput
    })
}

/// Whether the file that is open has the owner of this one, which has no other name.
fn is_by_one_owner<F: OpenFile>(file: &Option<F>, old: &Metadata) -> io::Result<bool> {
    match file {
        Some(open) => Ok(old.nlink() < 2 && open.metadata()?.uid() == old.uid()),
        None => Ok(false),
    }
}

/// The permissions of the file that is open.
fn permissions_of<F: OpenFile>(file: &Option<F>) -> io::Result<u32> {
    match file {
        Some(open) => Ok(open.metadata()?.mode() & PERMISSIONS),
        None => Ok(PRIVATE),
    }
}

/// Writes to the file that `begin` opened.
fn write_opened<F: Write>(
    file: &mut Option<F>,
    bytes: &[u8],
    reasons: &Reasons,
) -> Result<usize, Failed>
    ensures unopened { file.old ≡ None → IsErr result }
    ensures opened { is_some file.new ≡ is_some file.old }
    ensures bytes { Takes (option_and_then F.contents file.old)
        (option_and_then F.contents file.new) bytes.now result }
{
    match file {
        Some(open) => taken_of(open.write(bytes), bytes, reasons),
        None => Err(Failed),
    }
}

/// Brings what was written to the file.
fn flush_opened<F: Write>(file: &mut Option<F>, reasons: &Reasons) -> Result<(), Failed>
    ensures unopened { file.old ≡ None → IsErr result }
    ensures opened { is_some file.new ≡ is_some file.old }
    ensures bytes { Keeps (option_and_then F.contents file.old) (option_and_then F.contents file.new) }
{
    match file {
        Some(open) => open.flush().map_err(|error| reasons.failed(&error)),
        None => Err(Failed),
    }
}

/// Gives the file these permissions, and brings it and what was written to the disk.
fn keep_opened<F: OpenFile>(file: &Option<F>, mode: u32, reasons: &Reasons) -> Result<(), Failed> {
    let Some(open) = file else {
        return Err(Failed);
    };
    permit(open, mode)
        .and_then(|()| open.sync_all())
        .map_err(|error| reasons.failed(&error))
}

/// Gives a file these permissions. That fails only if it has others afterwards: some file systems
/// know no permissions.
fn permit<F: OpenFile>(file: &F, mode: u32) -> io::Result<()> {
    let given = file.set_permissions(Permissions::from_mode(mode));
    if given.is_err() && file.metadata()?.mode() & PERMISSIONS == mode {
        return Ok(());
    }
    given
}

impl<'a, R: Files> Sink for FileSink<'a, R> {
    ghost state = { λ sink. untold sink.device };

    fn begin(&mut self) -> Result<(), Failed>
        requires { self.old.device.counts.calls < call_limit }
        ensures begun { IsBegun (untold self.old.device) (untold self.new.device) result }
        ensures opened { self.new.opened ≡ is_ok result }
        ensures not_whole { self.new.whole ≡ false }
    {
        self.discard();
        let opened = self.open();
        let answer = opened.map_err(|error| self.reasons.failed(&error));
        if answer.is_err() {
            self.discard();
        }
        self.whole = false;
        self.finished = false;
        self.counts.count(&answer);
        answer
    }

    fn write(&mut self, bytes: &[u8]) -> Result<usize, Failed>
        requires { self.old.device.counts.calls < call_limit }
        ensures write { IsWrite (untold self.old.device) (untold self.new.device) bytes.now result }
        ensures takes { OnOk result (TakesBytes self.old) }
        ensures bytes { Takes self.old.contents self.new.contents bytes.now result }
        ensures opened { self.new.opened ≡ self.old.opened }
        ensures whole { self.new.whole ≡ self.old.whole }
    {
        let answer = if self.whole {
            Err(Failed)
        } else {
            write_opened(&mut self.file, bytes, self.reasons)
        };
        self.finished = false;
        self.counts.count(&answer);
        answer
    }

    fn finish(&mut self) -> Result<(), Failed>
        requires { self.old.device.counts.calls < call_limit }
        ensures finish { IsFinish (untold self.old.device) (untold self.new.device) result }
        ensures takes { OnOk result (TakesBytes self.old) }
        ensures bytes { Keeps self.old.contents self.new.contents }
        ensures opened { self.new.opened ≡ self.old.opened }
        ensures whole { self.new.whole ≡ (self.old.whole || is_ok result) }
    {
        let answer = self.complete();
        self.finished = answer.is_ok();
        self.whole = self.whole || answer.is_ok();
        self.counts.count(&answer);
        answer
    }
}
