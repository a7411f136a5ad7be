//! Bytes that readers give and writers take, as sources and sinks pass them on.
ghost use Rattle.std.specs.Prelude.{◌≡◌, ◌<◌, ◌≤◌, ◌↔◌, ◌⊎◌, ◌++◌, Ok, IfOk, IsErr, length, take, drop, min};
ghost use Rattle.th_devices.specs.Devices.{Gives};

use crate::devices::Failed;
use crate::reasons::Reasons;
use std::io;
use std::io::Read;

/// The most bytes that one read of a file or a stream takes. They go through an array, since the
/// system does not promise that a read that fails leaves the slice as it was.
const MAX_READ: usize = 16_384;

/// Copies the front of `from` over the front of `into`, at most `most` bytes, and says how many.
pub(crate) fn copy_front(from: &[u8], most: usize, into: &mut [u8]) -> usize
    ensures count { result ≡ min (min most (length from.now)) (length into.old) }
    ensures copied { into.new ≡ take result from.now ++ drop result into.old }
{
    let count = most.min(from.len()).min(into.len());
    into[..count].copy_from_slice(&from[..count]);
    count
}

/// Reads into the front of `into`, and leaves the rest as it was; all of it if the read fails.
pub(crate) fn read_some<T: Read>(
    reader: &mut T,
    into: &mut [u8],
    reasons: &Reasons,
) -> Result<usize, Failed>
    ensures { Gives (T.remaining reader.old) (T.remaining reader.new) into.old into.new result }
{
    let mut chunk = [0u8; MAX_READ];
    let asked = MAX_READ.min(into.len());
    match reader.read(&mut chunk[..asked]) {
        Ok(count) => Ok(copy_front(&chunk[..count], count, into)),
        Err(error) => Err(reasons.failed(&error)),
    }
}

/// How many bytes a write took that the system answered so: one that took none of bytes that were
/// there failed.
pub(crate) fn taken_of(
    answer: io::Result<usize>,
    bytes: &[u8],
    reasons: &Reasons,
) -> Result<usize, Failed>
    requires { IfOk answer (λ count. count ≤ length bytes.now) }
    ensures within { IfOk result (λ count. count ≤ length bytes.now) }
    ensures some { IfOk result (λ count. 0 < length bytes.now → 0 < count) }
    ensures same { IfOk result (λ count. answer ≡ Ok count) }
    ensures failed { IsErr result ↔ (IsErr answer ⊎ ((answer ≡ Ok 0) × (0 < length bytes.now))) }
{
    match answer {
        Ok(count) if count > 0 || bytes.is_empty() => Ok(count),
        Ok(_) => Err(Failed),
        Err(error) => Err(reasons.failed(&error)),
    }
}
