//! The second line of a refusal: the file as it was given, and what helps.
ghost use Rattle.std.specs.Prelude.{◌≡◌, option_map};
ghost use Rattle.th_messages.specs.Helps.{help_line, read_reason, reason_line, whole_name, write_reason};
ghost use Rattle.th_messages.specs.Lines.{HasRoom, IsPut};
ghost use Rattle.th_inputs.specs.Shown.{shown};

use crate::lines::Line;
use th_devices::{Failed, Reason, Sink};

/// The name of a file, as it was given. That of an output ends in what the program added.
#[derive(Clone, Copy, Debug)]
pub struct FileName<'a> {
    /// What was given.
    pub begin: &'a str,
    /// What the program added.
    pub end: &'a str,
}

/// Puts the second line of a refusal: what helps.
#[tactic(auto, using(crate::proofs::LineLemmas::appended))]
pub fn put_help_line<K: Sink>(
    line: &mut Line<K>,
    name: Option<FileName<'_>>,
    help: &str,
) -> Result<(), Failed>
    requires { HasRoom 8 line.old }
    ensures { IsPut 8 (help_line (option_map whole_name name.entry) help.now) line.old line.new result }
{
    match name {
        Some(name) => {
            line.put("  '")?;
            put_name(line, name)?;
            line.put("': ")?;
        }
        None => line.put("  ")?,
    }
    line.put(help)?;
    line.put("\n")
}

/// Puts the second line after a call of a device failed: why it did, if the system told that.
#[tactic(auto, using(crate::proofs::LineLemmas::appended))]
pub fn put_reason_line<K: Sink>(
    line: &mut Line<K>,
    name: Option<FileName<'_>>,
    reason: Option<&str>,
) -> Result<(), Failed>
    requires { HasRoom 8 line.old }
    ensures { IsPut 8 (reason_line (option_map whole_name name.entry)
        (option_map (λ own. own.now) reason.entry)) line.old line.new result }
{
    match (name, reason) {
        (name, Some(reason)) => put_help_line(line, name, reason),
        (Some(name), None) => {
            line.put("  '")?;
            put_name(line, name)?;
            line.put("'\n")
        }
        (None, None) => Ok(()),
    }
}

/// Puts the name of a file as its bytes are shown.
#[tactic(auto, using(crate::proofs::LineLemmas::appended))]
fn put_name<K: Sink>(line: &mut Line<K>, name: FileName<'_>) -> Result<(), Failed>
    requires { HasRoom 2 line.old }
    ensures { IsPut 2 (shown (whole_name name.entry)) line.old line.new result }
{
    line.put_shown(name.begin)?;
    line.put_shown(name.end)
}

/// Why an input was not read, in words.
pub fn read_reason(reason: Reason) -> &'static str
    ensures { result.now ≡ read_reason reason }
{
    match reason {
        Reason::NotFound => "no such file",
        Reason::IsFolder => "a folder",
        Reason::NoFile => "not a file",
        Reason::NotPermitted => "permission denied",
        Reason::NoSpace => "no space left",
        Reason::ReadOnly => "a read-only file system",
        Reason::NameTooLong => "file name too long",
        Reason::ClosedPipe => "nobody is at the other end of the pipe",
        Reason::LeadsNowhere => "a link that leads nowhere",
        Reason::DeviceFault => "the device failed",
        Reason::OtherSystem => "on another file system",
        Reason::InUse => "in use by the system",
        Reason::TooManyOpen => "too many open files",
        Reason::OtherRun => "another run writes here",
    }
}

/// Why an output was not written, in words.
pub fn write_reason(reason: Reason) -> &'static str
    ensures { result.now ≡ write_reason reason }
{
    match reason {
        Reason::NotFound => "no such folder",
        other => read_reason(other),
    }
}
