//! The files and standard streams of the system as a folder.
ghost use Rattle.std.proofs.Common.{refl};
ghost use Rattle.std.specs.Prelude.{false, true, None};

use crate::choices::{OneOf, Untold};
use crate::devices::Failed;
use crate::errors::StandardError;
use crate::file_sinks::FileSink;
use crate::files::FileSource;
use crate::folders::{Folder, Origin, Target};
use crate::reasons::{Reason, Reasons};
use crate::streams::{StandardInput, StandardOutput};
use std::alloc::{AllocError, Global};
use std::cell::Cell;
use std::fs::{File, TryLockError};
use std::io::ErrorKind;
use std::os::unix::fs::MetadataExt;
use std::rt::{Clock, Files};
use std::time::{Duration, Instant};
use std::{fs, io, mem, thread};
use th_progress::Meter;

/// The name of standard input. A file of this name is `./-`.
const INPUT_NAME: &str = "-";

/// How often a run tries to lock a folder that another run has locked, and how long it waits each time.
const TRIES: u32 = 1_000;

const PAUSE_IN_MILLISECONDS: u64 = 10;

/// The files and standard streams of the system. It does not report their bytes.
///
/// From its first file that takes its place to the end of the process a run has the lock of the folder, so
/// that the outputs of two runs do not mix. The system gives the lock back, also if the run is killed. Without the right
/// to read the folder, and where the file system has no locks, a run goes on without.
#[derive(Drop)]
pub struct HostFolder<'a, R> {
    rt: &'a R,
    run: u64,
    sinks: Cell<u32>,
    has_lock: Cell<bool>,
    watched: Option<Instant>,
    reasons: &'a Reasons,
}

impl<'a, R> HostFolder<'a, R> {
    /// The files and streams that this runtime reaches. The number of the run, which no other run has,
    /// is part of the names of unfinished files. `watched` is when the run began, if standard error
    /// is to show how far it is. Why calls fail is remembered in `reasons`.
    pub fn new(
        rt: &'a R,
        run: u64,
        watched: Option<Instant>,
        reasons: &'a Reasons,
    ) -> HostFolder<'a, R> {
        HostFolder {
            rt,
            run,
            sinks: Cell::new(0),
            has_lock: Cell::new(false),
            watched,
            reasons,
        }
    }

    /// The number of the next sink of a file, from 1.
    fn next_sink(&self) -> u32 {
        let number = self.sinks.get().saturating_add(1);
        self.sinks.set(number);
        number
    }
}

impl<'a, R: Files<File = File> + Clock> HostFolder<'a, R> {
    /// Locks the folder of the file of this name, unless this run has locked one. It stays open to the end of
    /// the process, and so does the lock.
    fn lock(&self, name: &str) -> Result<(), Failed> {
        if self.has_lock.get() {
            return Ok(());
        }
        if let Ok(folder) = fs::open(self.rt, folder_of(name))
            && let Some(locked) = self.wait_for(folder)?
        {
            mem::forget(locked);
            self.has_lock.set(true);
        }
        Ok(())
    }

    /// The folder, locked as soon as no other run has it locked, or nothing where the system locks none.
    fn wait_for(&self, folder: File) -> Result<Option<File>, Failed> {
        for _ in 0..TRIES {
            match folder.try_lock() {
                Ok(()) => return Ok(Some(folder)),
                Err(TryLockError::WouldBlock) => {
                    thread::sleep(self.rt, Duration::from_millis(PAUSE_IN_MILLISECONDS));
                }
                Err(TryLockError::Error(_)) => return Ok(None),
            }
        }
        Err(self.reasons.held())
    }
}

impl<'a, R: Files<File = File> + Input + Print + Eprint + Clock> Folder for HostFolder<'a, R> {
    type In = Untold<OneOf<FileSource<'a, R>, StandardInput<'a, R>>>;

    type Out = OneOf<FileSink<'a, R>, OneOf<StandardOutput<'a, R>, StandardError<'a, R>>>;

    type Shown = Meter<'a, R>;

    ghost tells = { false };

    ghost held = { λ _ _. None };

    ghost has_failed = { λ _ _. true };

    ghost failing = { λ _. record { reading = λ _. true; writing = λ _. true } };

    fn source(&mut self, alloc: Global, origin: Origin<'_>) -> Result<Self::In, AllocError> {
        let source = match origin {
            Origin::File(name) if name != INPUT_NAME => {
                let name = String::from_str(alloc, name)?;
                OneOf::First(FileSource::new(self.rt, name, self.reasons))
            }
            Origin::File(_) | Origin::Input => {
                OneOf::Second(StandardInput::new(self.rt, self.reasons))
            }
        };
        Ok(Untold { source })
    }

    fn sink(&mut self, alloc: Global, target: Target<'_>) -> Result<Self::Out, AllocError> {
        Ok(match target {
            Target::File(name) => {
                let number = self.next_sink();
                OneOf::First(FileSink::new(alloc, self.rt, name, self.run, number, self.reasons)?)
            }
            Target::Output => {
                OneOf::Second(OneOf::First(StandardOutput::new(self.rt, self.reasons)))
            }
        })
    }

    fn standard_error(&mut self) -> Self::Out {
        OneOf::Second(OneOf::Second(StandardError::new(self.rt)))
    }

    fn close(&mut self, sink: Self::Out) {
        if let OneOf::First(mut file) = sink {
            file.discard();
        }
    }

    fn place(&mut self, sink: Self::Out) -> Result<(), Failed> {
        if let OneOf::First(mut file) = sink {
            let answer = self.lock(file.name()).and_then(|()| file.place());
            file.discard();
            return answer;
        }
        Ok(())
    }

    fn progress(&self, name: &'static str) -> Self::Shown {
        Meter::new(self.rt, name, self.watched)
    }

    fn settle(&self, name: &str) {
        if let Ok(folder) = fs::open(self.rt, folder_of(name)) {
            let _ = folder.sync_all();
        }
    }

    fn reason(&self) -> Option<Reason> {
        self.reasons.last()
    }

    fn would_change(&self, _alloc: Global, output: &str, input: &str) -> Result<bool, AllocError> {
        Ok(is_same_file(self.rt, output, input))
    }

    ghost tells_or_not = { λ _ _ _. refl };
}

/// The folder of the file of this name.
fn folder_of(name: &str) -> &str {
    match name.rsplit_once("/") {
        Some((folder, _)) if folder.is_empty() => "/",
        Some((folder, _)) => folder,
        None => ".",
    }
}

/// Whether the names are the same, or the system reports that they name one file. Two files that
/// it cannot tell apart are taken for one.
fn is_same_file<R: Files>(files: &R, first: &str, second: &str) -> bool {
    if first == second {
        return true;
    }
    match (fs::metadata(files, first), fs::metadata(files, second)) {
        (Ok(first), Ok(second)) if first.ino() == 0 || second.ino() == 0 => true,
        (Ok(first), Ok(second)) => first.ino() == second.ino() && first.dev() == second.dev(),
        (Ok(_), Err(error)) | (Err(error), Ok(_)) => !leads_nowhere(&error),
        (Err(first), Err(second)) => !leads_nowhere(&first) && !leads_nowhere(&second),
    }
}

/// Whether an error shows that no file can be opened by the name: so none can be overwritten.
fn leads_nowhere(error: &io::Error) -> bool {
    matches!(
        error.kind(),
        ErrorKind::NotFound
            | ErrorKind::NotADirectory
            | ErrorKind::PermissionDenied
            | ErrorKind::InvalidFilename
            | ErrorKind::InvalidInput
            | ErrorKind::FilesystemLoop
    )
}
