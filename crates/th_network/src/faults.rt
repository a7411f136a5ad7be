//! The faults of a network, in the order in which they count, and their texts.
ghost use Rattle.std.specs.Prelude.{◌≡◌};
ghost use Rattle.th_network.specs.declared.faults.NetFault.TheVariants.{NoMemory};
ghost use Rattle.th_network.specs.Texts.{fault_beginning};

use gsi_word::Name;
use std::alloc::AllocError;
use std::error::Error;
use std::{fmt, str};

/// Why observations and benchmarks make no network. The first fault in this order counts.
#[derive(Clone, Copy, Debug, PartialEq, Eq)]
pub enum NetFault {
    /// N1: there are more than `MAX_OBSERVATIONS` observations.
    TooManyObservations,
    /// N2: there are more than `MAX_POINTS` points.
    TooManyPoints,
    /// N3: from this point, the first of its kind, no chain of observations leads to a benchmark.
    NoBenchmark(Name),
    /// Out of memory. The observations are not at fault.
    NoMemory,
}

impl From<AllocError> for NetFault {
    ghost from_gives = { λ _ fault. fault ≡ NoMemory };

    fn from(_error: AllocError) -> NetFault {
        NetFault::NoMemory
    }
}

impl NetFault {
    /// The text of the fault, or its beginning: the name of a point without a benchmark follows.
    pub fn beginning(self) -> &'static str
        ensures { result.now ≡ fault_beginning self }
    {
        match self {
            NetFault::TooManyObservations => "N1 too many observations",
            NetFault::TooManyPoints => "N2 too many points",
            NetFault::NoBenchmark(_) => "N3 no benchmark for ",
            NetFault::NoMemory => "out of memory",
        }
    }
}

impl fmt::Display for NetFault {
    ghost use Rattle.std.specs.Prelude.{Some};
    ghost use Rattle.th_network.specs.Texts.{fault_text};

    ghost output = { λ fault. Some (fault_text fault) };

    fn fmt<W: fmt::Write>(&self, f: &mut fmt::Formatter<W>) -> fmt::Result {
        f.write_str(self.beginning())?;
        match self {
            NetFault::NoBenchmark(name) => f.write_str(text_of(name)),
            _ => Ok(()),
        }
    }
}

impl Error for NetFault {}

/// The text of a name, which has printable ASCII alone.
fn text_of(name: &Name) -> &str
    ensures { result.now ≡ name.now }
{
    match str::from_utf8(name.as_bytes()) {
        Ok(text) => text,
        Err(_) => "",
    }
}
