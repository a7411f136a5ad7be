//! Why a line or a text was not written.

use crate::faults::RowFault;
use std::alloc::{AllocError, AllocFailed};

/// Why a line was not mended.
#[derive(Clone, Copy, Debug)]
pub enum Stop {
    /// A record has a fault in it.
    Row(RowFault),
    /// Memory ran out.
    NoMemory,
}

impl From<AllocError> for Stop {
    ghost use Rattle.std.specs.Prelude.{◌≡◌};
    ghost use Rattle.th_mend.specs.declared.stops.Stop.TheVariants.{NoMemory};

    ghost from_gives = { λ _ stop. stop ≡ NoMemory };

    fn from(_error: AllocError) -> Stop {
        Stop::NoMemory
    }
}

impl<T: Drop> From<AllocFailed<T>> for Stop {
    ghost use Rattle.std.specs.Prelude.{◌≡◌};
    ghost use Rattle.th_mend.specs.declared.stops.Stop.TheVariants.{NoMemory};

    ghost from_gives = { λ _ stop. stop ≡ NoMemory };

    fn from(_refused: AllocFailed<T>) -> Stop {
        Stop::NoMemory
    }
}

impl From<RowFault> for Stop {
    ghost use Rattle.std.specs.Prelude.{◌≡◌};
    ghost use Rattle.th_mend.specs.declared.stops.Stop.TheVariants.{Row};

    ghost from_gives = { λ fault stop. stop ≡ Row fault };

    fn from(fault: RowFault) -> Stop {
        Stop::Row(fault)
    }
}
