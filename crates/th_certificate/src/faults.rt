//! The faults of a certificate, C1 to C7, and an allocation failure, with their texts.
ghost use Rattle.std.specs.Prelude.{◌≡◌};
ghost use Rattle.th_certificate.specs.declared.faults.CertKind.TheVariants.{NoMemory};
ghost use Rattle.th_certificate.specs.Faults.{kind_text};

use std::alloc::{AllocError, AllocFailed};
use std::error::Error;
use std::fmt;

/// What is wrong with a certificate. A record has the first kind that applies, in this order; a
/// certificate of too many bytes is `TooLarge` before all else.
#[derive(Clone, Copy, Debug, PartialEq, Eq)]
pub enum CertKind {
    /// C1: record 1 is not the header, or there is no record.
    BadHeader,
    /// C2: a record has another number of fields than three.
    FieldCount,
    /// C3: a row of this kind, or with this key, is not allowed there.
    BadKind,
    /// C4: the key of a height's row gives no name, or that of an earlier row of its kind.
    BadName,
    /// C5: a number has another form, or the number of a flow is not the next one.
    BadNumber,
    /// C6: a number has too many digits, the count is too large, or the certificate has more than
    /// `MAX_CERTIFICATE` bytes.
    TooLarge,
    /// C7: the records end before the cost.
    Truncated,
    /// Out of memory. The certificate is not at fault.
    NoMemory,
}

/// Why a certificate is refused.
#[derive(Clone, Copy, Debug, PartialEq, Eq)]
pub struct CertFault {
    /// The record, counted from 1, the header being record 1; for `Truncated` the one that is
    /// missing. It is 0 for too many bytes and for `NoMemory`.
    pub row: u32,
    /// The first kind of fault that applies to it.
    pub kind: CertKind,
}

impl CertFault {
    /// Out of memory.
    pub(crate) const NO_MEMORY: CertFault = CertFault {
        row: 0,
        kind: CertKind::NoMemory,
    };

    /// The certificate has too many bytes.
    pub(crate) const TOO_LONG: CertFault = CertFault {
        row: 0,
        kind: CertKind::TooLarge,
    };

    /// Record 1 is not the header.
    pub(crate) const BAD_HEADER: CertFault = CertFault {
        row: 1,
        kind: CertKind::BadHeader,
    };
}

impl From<AllocError> for CertFault {
    ghost from_gives = { λ _ fault. fault ≡ record { row = 0; kind = NoMemory } };

    fn from(_error: AllocError) -> CertFault {
        CertFault::NO_MEMORY
    }
}

impl<T: Drop> From<AllocFailed<T>> for CertFault {
    ghost from_gives = { λ _ fault. fault ≡ record { row = 0; kind = NoMemory } };

    fn from(_refused: AllocFailed<T>) -> CertFault {
        CertFault::NO_MEMORY
    }
}

impl CertKind {
    /// The text of the kind.
    pub fn text(self) -> &'static str
        ensures { result.now ≡ kind_text self }
    {
        match self {
            CertKind::BadHeader => "C1 bad header",
            CertKind::FieldCount => "C2 field count",
            CertKind::BadKind => "C3 bad kind",
            CertKind::BadName => "C4 bad name",
            CertKind::BadNumber => "C5 bad number",
            CertKind::TooLarge => "C6 too large",
            CertKind::Truncated => "C7 truncated",
            CertKind::NoMemory => "out of memory",
        }
    }
}

impl fmt::Display for CertKind {
    ghost use Rattle.std.specs.Prelude.{Some};

    ghost output = { λ fault. Some (kind_text fault) };

    fn fmt<W: fmt::Write>(&self, f: &mut fmt::Formatter<W>) -> fmt::Result {
        f.write_str(self.text())
    }
}

impl Error for CertKind {}

impl fmt::Display for CertFault {
    ghost use Rattle.std.specs.Prelude.{Some};
    ghost use Rattle.th_certificate.specs.Faults.{fault_text};

    ghost output = { λ fault. Some (fault_text fault) };

    fn fmt<W: fmt::Write>(&self, f: &mut fmt::Formatter<W>) -> fmt::Result {
        let row = self.row;
        let kind = self.kind;
        write!(f, "record {row}: {kind}")
    }
}

impl Error for CertFault {}
