//! A folder in memory, for tests. It reports all of its bytes. Reading what is there never fails;
//! writing may, where the room of a sink ends.
ghost use Rattle.std.specs.Prelude.{◌≡◌, ◌≤◌, ℕ, true, List, Some, None, IfOk, OnOk, is_none, option_map, string_bytes};
ghost use Rattle.th_devices.specs.Memory.{left_of};
ghost use Rattle.th_devices.specs.Spots.{errors, file, output};
ghost use Rattle.th_devices.specs.MemoryFolders.{files_in, found_in, memory_failed, memory_held};

use crate::devices::{Failed, Sink};
use crate::folders::{Folder, Origin, Target};
use crate::memory::TextSink;
use crate::memory_sources::MemorySource;
use crate::reasons::Reason;
use std::alloc::{AllocError, Global};
use std::marker::Model;
use std::mem;
use th_progress::Silent;

/// The files of a folder in memory, the last that was closed first.
#[cycle(files)]
#[derive(Drop)]
pub enum Files {
    /// There are no more.
    End,
    /// A file, and those before it.
    More(Box<Shelf>),
}

/// A file of a folder in memory, and the files that were closed before it.
#[cycle(files)]
#[derive(Drop)]
pub struct Shelf {
    name: String,
    sink: TextSink,
    next: Files,
}

/// A sink of a folder in memory.
#[derive(Drop)]
pub enum MemorySink {
    /// That of a file, with its place in the folder.
    File(Box<Shelf>),
    /// That of standard output.
    Output(TextSink),
    /// That of standard error.
    Errors(TextSink),
}

impl Sink for MemorySink {
    ghost use Rattle.th_devices.specs.MemoryFolders.{memory_sink};

    ghost state = { memory_sink };

    fn begin(&mut self) -> Result<(), Failed> {
        match self {
            MemorySink::File(shelf) => shelf.sink.begin(),
            MemorySink::Output(sink) => sink.begin(),
            MemorySink::Errors(sink) => sink.begin(),
        }
    }

    fn write(&mut self, bytes: &[u8]) -> Result<usize, Failed> {
        match self {
            MemorySink::File(shelf) => shelf.sink.write(bytes),
            MemorySink::Output(sink) => sink.write(bytes),
            MemorySink::Errors(sink) => sink.write(bytes),
        }
    }

    fn finish(&mut self) -> Result<(), Failed> {
        match self {
            MemorySink::File(shelf) => shelf.sink.finish(),
            MemorySink::Output(sink) => sink.finish(),
            MemorySink::Errors(sink) => sink.finish(),
        }
    }
}

/// A folder in memory. Each sink has the same room and takes at most `piece` bytes a write, and each
/// source gives at most as many a read. A source of a file that is not there fails at each read.
#[derive(Drop)]
pub struct MemoryFolder {
    files: Files,
    input: Vec<u8>,
    output: Option<TextSink>,
    errors: Option<TextSink>,
    spare: TextSink,
    room: usize,
    piece: usize,
    alloc: Global,
}

impl Model for MemoryFolder {
    ghost use Rattle.std.specs.Prelude.{◌≤◌, ◌≡◌, [], false};
    ghost use Rattle.th_devices.specs.MemoryFolders.{MemoryFolderState, files_in};

    ghost Value = { MemoryFolderState };

    ghost view = { λ folder. record {
      files = files_in folder.files;
      input = folder.input.items;
      output = folder.output;
      errors = folder.errors;
    } };

    ghost invariant = { λ folder. (1 ≤ folder.piece) × (folder.spare.held ≡ [])
        × (folder.spare.counts.calls ≡ 0) × (folder.spare.finished ≡ false) };
}

impl MemoryFolder {
    /// A folder without files, with this standard input.
    pub fn new(
        alloc: Global,
        input: &[u8],
        room: usize,
        piece: usize,
    ) -> Result<MemoryFolder, AllocError>
        requires { 1 ≤ piece }
        ensures held { IfOk result (λ folder. (name : List ℕ) → memory_held folder (file name) ≡ None) }
    {
        Ok(MemoryFolder {
            files: Files::End,
            input: Vec::from_slice(alloc, input)?,
            output: None,
            errors: None,
            spare: TextSink::new(alloc, room, piece, None)?,
            room,
            piece,
            alloc,
        })
    }

    /// Puts a file into the folder.
    pub fn put(&mut self, alloc: Global, name: &str, text: &[u8]) -> Result<(), AllocError>
        ensures { OnOk result (memory_held self.new (file name.now) ≡ Some text.now) }
    {
        let sink = TextSink::holding(alloc, text)?;
        let mut shelf = shelf_of(alloc, name, sink)?;
        shelf.next = mem::replace(&mut self.files, Files::End);
        self.files = Files::More(shelf);
        Ok(())
    }

    /// The bytes of the file of this name, if there is one.
    pub fn file(&self, name: &str) -> Option<&[u8]>
        ensures { option_map (λ text. text.now) result ≡ memory_held self.now (file name.now) }
    {
        match find(&self.files, name) {
            Some(sink) => Some(sink.bytes()),
            None => None,
        }
    }

    /// The bytes on standard output, if it was written.
    pub fn output(&self) -> Option<&[u8]>
        ensures { option_map (λ text. text.now) result ≡ memory_held self.now output }
    {
        match &self.output {
            Some(sink) => Some(sink.bytes()),
            None => None,
        }
    }

    /// The bytes on standard error, if it was written.
    pub fn errors(&self) -> Option<&[u8]>
        ensures { option_map (λ text. text.now) result ≡ memory_held self.now errors }
    {
        match &self.errors {
            Some(sink) => Some(sink.bytes()),
            None => None,
        }
    }
}

/// A place for a file of this name, with its sink.
fn shelf_of(alloc: Global, name: &str, sink: TextSink) -> Result<Box<Shelf>, AllocError>
    ensures name { IfOk result (λ shelf. string_bytes shelf.value.name ≡ name.now) }
    ensures sink { IfOk result (λ shelf. shelf.value.sink ≡ sink) }
{
    let shelf = Shelf {
        name: String::from_str(alloc, name)?,
        sink,
        next: Files::End,
    };
    Ok(Box::new(alloc, shelf)?)
}

/// The newest file of this name.
fn find<'a>(files: &'a Files, name: &str) -> Option<&'a TextSink>
    ensures { option_map (λ sink. sink.now) result ≡ found_in (files_in files.now) name.entry.now }
{
    match files {
        Files::More(shelf) if shelf.name.as_str() == name => Some(&shelf.sink),
        Files::More(shelf) => find(&shelf.next, name),
        Files::End => None,
    }
}

/// A copy of a text, where there is one.
fn copied(alloc: Global, text: Option<&[u8]>) -> Result<Option<Vec<u8>>, AllocError>
    ensures { IfOk result (λ copy. left_of copy 0 ≡ option_map (λ own. own.now) text.entry) }
{
    match text {
        Some(text) => Ok(Some(Vec::from_slice(alloc, text)?)),
        None => Ok(None),
    }
}

impl Folder for MemoryFolder {
    type In = MemorySource;

    type Out = MemorySink;

    type Shown = Silent;

    ghost tells = { true };

    ghost held = { memory_held };

    ghost has_failed = { memory_failed };

    ghost failing = { λ folder. record {
      reading = λ spot. is_none (memory_held folder spot);
      writing = λ _. true;
    } };

    fn source(&mut self, alloc: Global, origin: Origin<'_>) -> Result<Self::In, AllocError> {
        let text = match origin {
            Origin::File(name) => copied(alloc, self.file(name))?,
            Origin::Input => Some(Vec::from_slice(alloc, self.input.as_slice())?),
        };
        Ok(MemorySource::new(text, self.piece))
    }

    fn sink(&mut self, alloc: Global, target: Target<'_>) -> Result<Self::Out, AllocError> {
        let sink = TextSink::new(alloc, self.room, self.piece, None)?;
        Ok(match target {
            Target::File(name) => MemorySink::File(shelf_of(alloc, name, sink)?),
            Target::Output => MemorySink::Output(sink),
        })
    }

    fn standard_error(&mut self) -> Self::Out {
        let empty = TextSink::without_room(self.alloc);
        MemorySink::Errors(mem::replace(&mut self.spare, empty))
    }

    fn close(&mut self, sink: Self::Out) {
        match sink {
            MemorySink::File(_) => {}
            MemorySink::Output(sink) => {
                if sink.is_called() || sink.is_finished() {
                    self.output = Some(sink);
                }
            }
            MemorySink::Errors(sink) => {
                if sink.is_called() || sink.is_finished() {
                    self.errors = Some(sink);
                }
            }
        }
    }

    fn place(&mut self, sink: Self::Out) -> Result<(), Failed> {
        match sink {
            MemorySink::File(mut shelf) => {
                shelf.next = mem::replace(&mut self.files, Files::End);
                self.files = Files::More(shelf);
            }
            MemorySink::Output(sink) => self.output = Some(sink),
            MemorySink::Errors(sink) => self.errors = Some(sink),
        }
        Ok(())
    }

    fn progress(&self, _name: &'static str) -> Silent {
        Silent
    }

    fn settle(&self, _name: &str) {}

    fn reason(&self) -> Option<Reason> {
        None
    }

    fn would_change(&self, _alloc: Global, output: &str, input: &str) -> Result<bool, AllocError> {
        Ok(output == input)
    }

    ghost tells_or_not = { λ folder spot e. cc e };
}
