//! A folder in memory whose writing never fails: a call that would fail ends the process in its place.
//!
//! Where a command reads what is there, no device of its run may fail. So over this folder a run meets
//! the premise of the headline.
ghost use Rattle.std.specs.Prelude.{false, is_none, true};
ghost use Rattle.th_devices.specs.MemoryFolders.{memory_failed, memory_held};

use std::alloc::{AllocError, Global};
use std::marker::Model;
use std::process::Abort;
use th_devices::{
    Failed, Folder, MemoryFolder, MemorySink, MemorySource, Origin, Reason, Sink, Target,
};
use th_progress::Silent;

/// A sink of a folder in memory that takes whatever is written, or ends the process.
#[derive(Drop)]
pub struct SureSink<'a, R: Abort> {
    sink: MemorySink,
    rt: &'a R,
}

impl<'a, R: Abort> Sink for SureSink<'a, R> {
    ghost use Rattle.std.specs.Prelude.{Some, false};
    ghost use Rattle.th_devices.specs.MemoryFolders.{sink_of, spot_of};

    ghost state = { λ own. record {
      spot = spot_of own.sink;
      held = Some (sink_of own.sink).held;
      is_finished = (sink_of own.sink).finished;
      may_fail = false;
      counts = (sink_of own.sink).counts;
    } };

    fn begin(&mut self) -> Result<(), Failed> {
        match self.sink.begin() {
            Ok(()) => Ok(()),
            Err(Failed) => panic!(self.rt; "a sink was not begun"),
        }
    }

    fn write(&mut self, bytes: &[u8]) -> Result<usize, Failed> {
        match self.sink.write(bytes) {
            Ok(count) => Ok(count),
            Err(Failed) => panic!(self.rt; "a sink has no room"),
        }
    }

    fn finish(&mut self) -> Result<(), Failed> {
        match self.sink.finish() {
            Ok(()) => Ok(()),
            Err(Failed) => panic!(self.rt; "a sink was not finished"),
        }
    }
}

/// A folder in memory whose sinks do not fail.
#[derive(Drop)]
pub struct SureFolder<'a, R: Abort> {
    /// Its files and streams.
    pub folder: MemoryFolder,
    /// What ends the process.
    pub rt: &'a R,
}

impl<'a, R: Abort> Folder for SureFolder<'a, R> {
    type In = MemorySource;

    type Out = SureSink<'a, R>;

    type Shown = Silent;

    ghost tells = { true };

    ghost held = { λ own spot. memory_held own.folder spot };

    ghost has_failed = { λ own spot. memory_failed own.folder spot };

    ghost failing = { λ own. record {
      reading = λ spot. is_none (memory_held own.folder spot);
      writing = λ _. false;
    } };

    fn source(&mut self, alloc: Global, origin: Origin<'_>) -> Result<Self::In, AllocError> {
        self.folder.source(alloc, origin)
    }

    fn sink(&mut self, alloc: Global, target: Target<'_>) -> Result<Self::Out, AllocError> {
        let sink = self.folder.sink(alloc, target)?;
        Ok(SureSink { sink, rt: self.rt })
    }

    fn standard_error(&mut self) -> Self::Out {
        let sink = self.folder.standard_error();
        SureSink { sink, rt: self.rt }
    }

    fn close(&mut self, sink: Self::Out) {
        self.folder.close(sink.sink);
    }

    fn place(&mut self, sink: Self::Out) -> Result<(), Failed> {
        match self.folder.place(sink.sink) {
            Ok(()) => Ok(()),
            Err(Failed) => panic!(self.rt; "a file has no place"),
        }
    }

    fn progress(&self, name: &'static str) -> Silent {
        self.folder.progress(name)
    }

    fn settle(&self, name: &str) {
        self.folder.settle(name);
    }

    fn reason(&self) -> Option<Reason> {
        self.folder.reason()
    }

    fn would_change(&self, alloc: Global, output: &str, input: &str) -> Result<bool, AllocError> {
        self.folder.would_change(alloc, output, input)
    }

    ghost tells_or_not = { λ folder spot e. cc e };
}
