//! Somebody else's heights, taken only where they are least.
ghost use Rattle.std.specs.Prelude.{◌≤◌, IfOk, length};
ghost use Rattle.th_certificate.specs.Certified.{stated_height};
ghost use Rattle.th_network.specs.Heights.{LeastFine};
ghost use Rattle.th_network.specs.Limits.{max_observations};

use std::alloc::Global;
use th_certificate::{CertFault, Certificate, read_certificate};
use th_checker::laws::yes_implies_least;
use th_checker::{Reason, Verdict, check};
use th_observations::Observation;
use th_tables::{Benchmarks, Weights};

/// The certificate of these bytes, or why it does not show that its heights are least.
pub fn accepted(
    alloc: Global,
    observations: &[Observation],
    benchmarks: &Benchmarks,
    weights: &Weights,
    bytes: &[u8],
) -> Result<Result<Certificate, Reason>, CertFault>
    requires few { length observations.now ≤ max_observations }
    ensures least { IfOk result (λ judged. IfOk judged (λ certificate.
        LeastFine observations.now benchmarks.now weights.now (stated_height certificate.heights))) }
{
    yes_implies_least();
    let certificate = read_certificate(alloc, bytes)?;
    match check(alloc, observations, benchmarks, weights, &certificate)? {
        Verdict::Yes => Ok(Ok(certificate)),
        Verdict::No(reason) => Ok(Err(reason)),
    }
}
