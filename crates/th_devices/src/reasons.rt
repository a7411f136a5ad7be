//! Why calls of the system failed, for whoever reads a refusal. Contracts leave this open.

use crate::devices::Failed;
use std::cell::Cell;
use std::io;
use std::io::ErrorKind;

/// Linux's number of an input or output error (`EIO`).
const INPUT_OUTPUT: i32 = 5;

/// Linux's number of too many open files in the system (`ENFILE`).
const FILES_OF_SYSTEM: i32 = 23;

/// Linux's number of too many open files in the process (`EMFILE`).
const FILES_OF_PROCESS: i32 = 24;

/// Why a call of the system failed, in the cases that a user can do something about.
#[derive(Clone, Copy, Debug, PartialEq, Eq)]
pub enum Reason {
    /// There is no file or folder of this name.
    NotFound,
    /// A folder has this name.
    IsFolder,
    /// Neither a file nor a new one: a device or a pipe.
    NoFile,
    /// The user may not do this.
    NotPermitted,
    /// The file system is full.
    NoSpace,
    /// The file system may not be written.
    ReadOnly,
    /// The file system takes no name of this length.
    NameTooLong,
    /// Nobody reads what is written.
    ClosedPipe,
    /// Links lead to one another, and to no file.
    LeadsNowhere,
    /// The device failed.
    DeviceFault,
    /// A file cannot take a name on another file system.
    OtherSystem,
    /// The system uses what has the name.
    InUse,
    /// The process, or the system, has as many files open as it may.
    TooManyOpen,
    /// Another run gives its outputs their places.
    OtherRun,
}

/// What the last call of the system that failed reported.
#[derive(Drop)]
pub struct Reasons {
    last: Cell<Option<Reason>>,
}

impl Reasons {
    /// No call failed yet.
    pub fn new() -> Reasons {
        Reasons {
            last: Cell::new(None),
        }
    }

    /// Why the last call failed, as far as that is known.
    pub fn last(&self) -> Option<Reason> {
        self.last.get()
    }

    /// Remembers that another run holds the folder.
    pub(crate) fn held(&self) -> Failed {
        self.last.set(Some(Reason::OtherRun));
        Failed
    }

    /// Remembers why a call failed.
    pub(crate) fn failed(&self, error: &io::Error) -> Failed {
        self.last.set(reason_of(error));
        Failed
    }
}

/// The reason that an error of the system reports.
fn reason_of(error: &io::Error) -> Option<Reason> {
    match error.kind() {
        ErrorKind::NotFound | ErrorKind::NotADirectory => Some(Reason::NotFound),
        ErrorKind::IsADirectory => Some(Reason::IsFolder),
        ErrorKind::InvalidInput => Some(Reason::NoFile),
        ErrorKind::PermissionDenied => Some(Reason::NotPermitted),
        ErrorKind::StorageFull | ErrorKind::QuotaExceeded => Some(Reason::NoSpace),
        ErrorKind::ReadOnlyFilesystem => Some(Reason::ReadOnly),
        ErrorKind::InvalidFilename => Some(Reason::NameTooLong),
        ErrorKind::BrokenPipe => Some(Reason::ClosedPipe),
        ErrorKind::FilesystemLoop => Some(Reason::LeadsNowhere),
        ErrorKind::CrossesDevices => Some(Reason::OtherSystem),
        ErrorKind::ResourceBusy => Some(Reason::InUse),
        _ => reason_of_number(error.raw_os_error()?),
    }
}

/// The reason that an error reports which the library knows by its number alone.
fn reason_of_number(number: i32) -> Option<Reason> {
    match number {
        INPUT_OUTPUT => Some(Reason::DeviceFault),
        FILES_OF_SYSTEM | FILES_OF_PROCESS => Some(Reason::TooManyOpen),
        _ => None,
    }
}
