//! Folders give sources and sinks by name, and take sinks back.
//!
//! A contract of a program over a folder mentions the folder before and after, and none of the
//! devices that it gave.
ghost use Rattle.std.specs.Prelude.{◌≡◌, ◌↔◌, Bool, List, None, Option, ℕ, IfOk, IsTrue, OnErr, OnOk, false, true};
ghost use Rattle.th_devices.specs.Devices.{IsMade, IsOpened};
ghost use Rattle.th_devices.specs.Folders.{Failing, IsClosed, IsPlaced, spot_of_origin, spot_of_target};
ghost use Rattle.th_devices.specs.Spots.{Spot, errors};

use crate::devices::{Failed, Sink, Source};
use crate::reasons::Reason;
use std::alloc::{AllocError, Global};
use th_progress::Progress;

/// Where bytes are read from.
#[derive(Clone, Copy, Debug)]
pub enum Origin<'a> {
    /// The file of this name.
    File(&'a str),
    /// Standard input.
    Input,
}

/// Where bytes are written to.
#[derive(Clone, Copy, Debug)]
pub enum Target<'a> {
    /// The file of this name.
    File(&'a str),
    /// Standard output.
    Output,
}

/// Named files and standard streams.
pub trait Folder {
    /// What it gives for reading.
    type In: Source + Drop;

    /// What it gives for writing.
    type Out: Sink + Drop;

    /// What shows people how far a run is.
    type Shown: Progress + Drop;

    // Whether it reports the bytes that are written.
    ghost tells: { Bool };

    // The bytes at each spot, where they are told.
    ghost held: { Self → Spot → Option (List ℕ) };

    // Whether a call failed of the sink whose bytes are at a spot. Only a folder that reports its
    // bytes knows.
    ghost has_failed: { Self → Spot → Bool };

    // Whether reading what is at a spot may fail, as it does where nothing is, and whether writing to
    // it may. Taking sinks back does not change where writing may fail.
    ghost failing: { Self → Failing };

    /// Whether writing the file `output` would change the file `input`: they are one file under two
    /// names, or one of them is written in place of the other.
    fn would_change(&self, alloc: Global, output: &str, input: &str) -> Result<bool, AllocError>
        ensures { IfOk result (λ would. tells ≡ true → (IsTrue would ↔ (output.now ≡ input.now))) };

    /// A source of the bytes there. Nothing is opened yet.
    fn source(&mut self, alloc: Global, origin: Origin<'_>) -> Result<Self::In, AllocError>
        ensures same { self.new ≡ self.old }
        ensures opened { IfOk result (λ source. let spot = spot_of_origin origin.entry in
            IsOpened ((failing self.old).reading spot) (held self.old spot) (Self.In.state source)) };

    /// A sink for the bytes there. Nothing is changed yet.
    fn sink(&mut self, alloc: Global, target: Target<'_>) -> Result<Self::Out, AllocError>
        ensures same { self.new ≡ self.old }
        ensures made { IfOk result (λ sink. let spot = spot_of_target target.entry in
            IsMade tells ((failing self.old).writing spot) spot (Self.Out.state sink)) };

    /// A sink for standard error. It allocates nothing, so that a program that is out of memory can
    /// report it.
    fn standard_error(&mut self) -> Self::Out
        ensures same { self.new ≡ self.old }
        ensures made { IsMade tells ((failing self.old).writing errors) errors (Self.Out.state result) };

    /// Takes a sink back. Its bytes stay where it is a stream. Where it is a file, they are dropped,
    /// and the file of that name is as it was.
    fn close(&mut self, sink: Self::Out)
        ensures closed { IsClosed tells held has_failed (Self.Out.state sink) self.old self.new }
        ensures fixed { (failing self.new).writing ≡ (failing self.old).writing };

    /// Takes a finished sink back, and gives its bytes their place. If that fails, what was there stays
    /// as it was.
    fn place(&mut self, sink: Self::Out) -> Result<(), Failed>
        requires { (Self.Out.state sink).is_finished ≡ true }
        ensures placed { OnOk result
            (IsPlaced tells held has_failed (Self.Out.state sink) self.old self.new) }
        ensures left { OnErr result (self.new ≡ self.old) }
        ensures allowed { OnErr result
            ((failing self.old).writing (Self.Out.state sink).spot ≡ true) }
        ensures fixed { (failing self.new).writing ≡ (failing self.old).writing };

    /// What shows people how far a run is that they know by this name.
    fn progress(&self, name: &'static str) -> Self::Shown;

    /// Makes the places that files took beside the file of this name last through a loss of power, as
    /// far as the system can.
    fn settle(&self, name: &str);

    /// Why a call of the system failed last, where the folder knows. One that reports its bytes knows none.
    fn reason(&self) -> Option<Reason>
        ensures { tells ≡ true → result ≡ None };

    // A folder that does not report the bytes that are written reports none.
    ghost tells_or_not: { (folder : Self) (spot : Spot) → tells ≡ false → held folder spot ≡ None };
}
