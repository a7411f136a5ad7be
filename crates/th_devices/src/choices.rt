//! One of two devices as a device, and a source that hides the bytes that another one reports.
ghost use Rattle.std.specs.Prelude.{None};

use crate::devices::{Failed, Sink, Source};

/// One of two devices.
#[derive(Drop)]
pub enum OneOf<A, B> {
    /// The first.
    First(A),
    /// The second.
    Second(B),
}

impl<A: Source, B: Source> Source for OneOf<A, B> {
    ghost use Rattle.th_devices.specs.declared.choices.OneOf.TheVariants.{First, Second};

    ghost state = { elim [ First own ↦ A.state own | Second own ↦ B.state own ] };

    fn read(&mut self, into: &mut [u8]) -> Result<usize, Failed> {
        match self {
            OneOf::First(own) => own.read(into),
            OneOf::Second(own) => own.read(into),
        }
    }
}

impl<A: Sink, B: Sink> Sink for OneOf<A, B> {
    ghost use Rattle.th_devices.specs.declared.choices.OneOf.TheVariants.{First, Second};

    ghost state = { elim [ First own ↦ A.state own | Second own ↦ B.state own ] };

    fn begin(&mut self) -> Result<(), Failed> {
        match self {
            OneOf::First(own) => own.begin(),
            OneOf::Second(own) => own.begin(),
        }
    }

    fn write(&mut self, bytes: &[u8]) -> Result<usize, Failed> {
        match self {
            OneOf::First(own) => own.write(bytes),
            OneOf::Second(own) => own.write(bytes),
        }
    }

    fn finish(&mut self) -> Result<(), Failed> {
        match self {
            OneOf::First(own) => own.finish(),
            OneOf::Second(own) => own.finish(),
        }
    }
}

/// A source that gives the bytes of another one, and does not report them.
#[derive(Drop)]
pub struct Untold<S> {
    /// The other one.
    pub source: S,
}

impl<S: Source> Source for Untold<S> {
    ghost state = { λ own. let source = S.state own.source in
        record { left = None; may_fail = source.may_fail; counts = source.counts } };

    fn read(&mut self, into: &mut [u8]) -> Result<usize, Failed> {
        self.source.read(into)
    }
}
