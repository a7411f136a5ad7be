//! Why a run was refused, in one line for the user, and the status that the program ends with.
ghost use Rattle.std.specs.Prelude.{◌≡◌};
ghost use Rattle.th_run_parts.specs.Refusals.{status_of, status_of_verdict};

use crate::outputs::Output;
use std::alloc::AllocError;
use std::fmt;
use th_book::BookFault;
use th_certificate::CertFault;
use th_checker::Verdict;
use th_conversions::{DifferenceFault, HeightFault};
use th_inputs::Input;
use th_mend::{ChangeFault, RowFault};
use th_network::NetFault;
use th_tables::TableFault;
use thiserror::Error;

/// Done. The verdict on a certificate that was checked is yes.
pub const DONE: u8 = 0;

/// The checker rejected the certificate.
pub const REFUSED_VERDICT: u8 = 1;

/// An input was refused.
pub const INPUT_REFUSED: u8 = 2;

/// The command line is not valid, or requests help or the version.
pub const USAGE: u8 = 3;

/// Out of memory.
pub const NO_MEMORY: u8 = 4;

/// A device failed.
pub const DEVICE_FAILED: u8 = 5;

/// Why a run was refused. It displays as the line for standard error. A run that is out of memory
/// returns `Refusal::NoMemory`, and never a fault of that kind.
#[derive(Clone, Copy, Debug, PartialEq, Eq, Error)]
pub enum Refusal {
    /// The book with this number, from 1, has a fault.
    Book(u32, BookFault),
    /// The table of the benchmarks has a fault.
    Benchmarks(TableFault),
    /// The table of the weights has a fault.
    Weights(TableFault),
    /// The certificate has a fault.
    Certificate(CertFault),
    /// The table of differences has a fault.
    Differences(DifferenceFault),
    /// The book with heights, which is book 1, has a fault.
    Heights(HeightFault),
    /// The table of changes has a fault.
    Changes(ChangeFault),
    /// A change has no place in the book, which is book 1.
    Unfit(RowFault),
    /// The mended book has a fault.
    Mended(BookFault),
    /// Observations and benchmarks make no network.
    Network(NetFault),
    /// This input was not read to its end.
    Read(Input),
    /// This output was not written whole.
    Write(Output),
    /// Out of memory.
    NoMemory,
}

impl fmt::Display for Refusal {
    ghost use Rattle.std.specs.Prelude.{Some};
    ghost use Rattle.th_run_parts.specs.Refusals.{refusal_text};

    ghost output = { λ refusal. Some (refusal_text refusal) };

    fn fmt<W: fmt::Write>(&self, f: &mut fmt::Formatter<W>) -> fmt::Result {
        match self {
            Refusal::Book(number, fault) => write!(f, "book {number} {fault}"),
            Refusal::Benchmarks(fault) => write!(f, "benchmarks {fault}"),
            Refusal::Weights(fault) => write!(f, "weights {fault}"),
            Refusal::Certificate(fault) => write!(f, "certificate {fault}"),
            Refusal::Differences(fault) => write!(f, "differences {fault}"),
            Refusal::Heights(fault) => write!(f, "book 1 {fault}"),
            Refusal::Changes(fault) => write!(f, "changes {fault}"),
            Refusal::Unfit(fault) => write!(f, "changes {fault}"),
            Refusal::Mended(fault) => write!(f, "mended {fault}"),
            Refusal::Network(fault) => write!(f, "network: {fault}"),
            Refusal::Read(input) => write!(f, "read failed: {input}"),
            Refusal::Write(output) => write!(f, "write failed: {output}"),
            Refusal::NoMemory => f.write_str("out of memory"),
        }
    }
}

impl From<AllocError> for Refusal {
    ghost use Rattle.th_run_parts.specs.declared.refusals.Refusal.TheVariants.{NoMemory};

    ghost from_gives = { λ _ refusal. refusal ≡ NoMemory };

    fn from(_error: AllocError) -> Refusal {
        Refusal::NoMemory
    }
}

/// The status that the program ends with after a refusal.
pub fn status_of(refusal: &Refusal) -> u8
    ensures { result ≡ status_of refusal.now }
{
    match refusal {
        Refusal::Book(_, _)
        | Refusal::Benchmarks(_)
        | Refusal::Weights(_)
        | Refusal::Certificate(_)
        | Refusal::Differences(_)
        | Refusal::Heights(_)
        | Refusal::Changes(_)
        | Refusal::Unfit(_)
        | Refusal::Mended(_)
        | Refusal::Network(_) => INPUT_REFUSED,
        Refusal::Read(_) | Refusal::Write(_) => DEVICE_FAILED,
        Refusal::NoMemory => NO_MEMORY,
    }
}

/// The status that the program ends with after a verdict.
pub fn status_of_verdict(verdict: &Verdict) -> u8
    ensures { result ≡ status_of_verdict verdict.now }
{
    match verdict {
        Verdict::Yes => DONE,
        Verdict::No(_) => REFUSED_VERDICT,
    }
}
