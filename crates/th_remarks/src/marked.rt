//! The note that sights are marked: how many, and how large their residuals are.
ghost use Rattle.std.specs.Prelude.{◌≡◌, ◌<◌, ◌≤◌, ◌⊎◌, All, Contains, length, map, unsigned_abs};
ghost use Rattle.th_blunders.specs.Residuals.{residual_limit};
ghost use Rattle.th_network.specs.Limits.{max_observations};
ghost use Rattle.th_remarks.specs.Marks.{IsMarksNote};

use crate::residuals::Marks;
use th_blunders::blunder_count;
use th_observations::Observation;

/// The note on the sights that a limit marks, given their residuals in order. All lengths are in units of
/// 10 nm.
pub fn marks_of(observations: &[Observation], residuals: &[i64], limit: i64) -> Option<Marks>
    requires few { length observations.now ≤ max_observations }
    requires each { length residuals.now ≡ length observations.now }
    requires small { All (λ residual. unsigned_abs residual < residual_limit) residuals.now }
    ensures { IsMarksNote limit residuals.now result }
{
    let count = blunder_count(observations, residuals, limit);
    if count == 0 {
        return None;
    }
    Some(Marks {
        count,
        sights: observations.len() as u32,
        largest: largest(residuals),
    })
}

/// The largest size of a residual.
fn largest(residuals: &[i64]) -> u64
    requires some { 0 < length residuals.now }
    requires small { All (λ residual. unsigned_abs residual < residual_limit) residuals.now }
    ensures small { result < residual_limit }
    ensures largest { All (λ residual. unsigned_abs residual ≤ result) residuals.now }
    ensures reached { Contains (map unsigned_abs residuals.now) result }
{
    let mut largest = 0;
    for residual in residuals {
        largest = larger(largest, residual.unsigned_abs());
    }
    largest
}

/// The larger one of two sizes.
fn larger(size: u64, other: u64) -> u64
    ensures first { size ≤ result }
    ensures second { other ≤ result }
    ensures one { (result ≡ size) ⊎ (result ≡ other) }
{
    if size < other { other } else { size }
}
