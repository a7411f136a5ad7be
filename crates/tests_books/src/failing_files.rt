//! Files that can always be opened and made; one call of each fails.
use std::alloc::Allocator;
use std::fs::{Metadata, OpenFile, OpenOptions};
use std::io;
use std::io::{Read, Seek, SeekFrom, Write};
use std::rt::Files;

/// The call that fails.
#[derive(Clone, Copy, PartialEq, Eq)]
pub enum Call {
    /// The first read, write or flush of each file.
    First,
    /// Each request to bring a file to the disk.
    Sync,
    /// Each request to give a file its permissions.
    Permit,
    /// Each rename.
    Rename,
}

/// An open file, one call of which fails.
#[derive(Drop)]
pub struct FailingFile {
    fails: Call,
    calls: u32,
}

impl FailingFile {
    fn call(&mut self) -> io::Result<()> {
        self.calls = self.calls.saturating_add(1);
        if self.calls == 1 && self.fails == Call::First {
            return Err(io::Error::from(io::ErrorKind::BrokenPipe));
        }
        Ok(())
    }
}

impl Read for FailingFile {
    fn read(&mut self, _buf: &mut [u8]) -> io::Result<usize> {
        self.call()?;
        Ok(0)
    }
}

impl Write for FailingFile {
    fn write(&mut self, _buf: &[u8]) -> io::Result<usize> {
        self.call()?;
        Ok(0)
    }

    fn flush(&mut self) -> io::Result<()> {
        self.call()
    }
}

/// What all other calls, which no device makes, return.
fn unsupported<T>() -> io::Result<T> {
    Err(io::Error::from(io::ErrorKind::Unsupported))
}

impl Seek for FailingFile {
    fn seek(&mut self, _to: SeekFrom) -> io::Result<u64> {
        unsupported()
    }
}

impl OpenFile for FailingFile {
    // Where permissions cannot be given, they are not those that are wanted.
    fn metadata(&self) -> io::Result<Metadata> {
        Ok(match self.fails {
            Call::Permit => Metadata::of_symlink(0),
            _ => Metadata::of_file(0),
        })
    }

    fn set_len(&self, _size: u64) -> io::Result<()> {
        unsupported()
    }

    fn sync_all(&self) -> io::Result<()> {
        match self.fails {
            Call::Sync => unsupported(),
            _ => Ok(()),
        }
    }

    fn sync_data(&self) -> io::Result<()> {
        unsupported()
    }
}

/// A file system of such files.
#[derive(Drop)]
pub struct FailingFiles {
    pub fails: Call,
}

impl Files for FailingFiles {
    type File = FailingFile;

    type Dir = FailingFile;

    fn open_file(&self, how: &OpenOptions, _path: &str) -> io::Result<FailingFile> {
        how.check()?;
        Ok(FailingFile {
            fails: self.fails,
            calls: 0,
        })
    }

    fn open_dir(&self, _path: &str) -> io::Result<FailingFile> {
        unsupported()
    }

    fn metadata(&self, _path: &str) -> io::Result<Metadata> {
        Ok(Metadata::of_file(0))
    }

    fn symlink_metadata(&self, _path: &str) -> io::Result<Metadata> {
        Ok(Metadata::of_file(0))
    }

    fn copy(&self, _from: &str, _to: &str) -> io::Result<u64> {
        unsupported()
    }

    fn rename(&self, _from: &str, _to: &str) -> io::Result<()> {
        match self.fails {
            Call::Rename => unsupported(),
            _ => Ok(()),
        }
    }

    fn remove_file(&self, _path: &str) -> io::Result<()> {
        unsupported()
    }

    fn create_dir(&self, _path: &str) -> io::Result<()> {
        unsupported()
    }

    fn remove_dir(&self, _path: &str) -> io::Result<()> {
        unsupported()
    }

    fn remove_dir_all<B: Allocator>(&self, _alloc: B, _path: &str) -> io::Result<()> {
        unsupported()
    }
}
