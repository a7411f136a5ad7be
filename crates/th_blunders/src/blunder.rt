//! Blunders: which residuals are above a limit in size, and how many there are.
ghost use Rattle.std.specs.Prelude.{◌≡◌, ◌<◌, ◌≤◌, All, IfOk, count_by, length, unsigned_abs};
ghost use Rattle.th_network.specs.Limits.{max_observations};
ghost use Rattle.th_blunders.specs.Blunders.{blunders as blunders_of, is_blunder};
ghost use Rattle.th_blunders.specs.Residuals.{residual_limit};

use std::alloc::{AllocError, Global};
use th_observations::Observation;

/// Whether a residual is above a limit in size. One that is just the limit in size is no blunder.
pub fn is_blunder(residual: i64, limit: i64) -> bool
    ensures { result ≡ is_blunder limit residual }
{
    limit < 0 || residual.unsigned_abs() > limit.unsigned_abs()
}

/// The numbers, in order and from 1, of the residuals that are blunders.
pub fn blunders(alloc: Global, residuals: &[i64], limit: i64) -> Result<Vec<u32>, AllocError>
    requires few { length residuals.now ≤ max_observations }
    requires small { All (λ residual. unsigned_abs residual < residual_limit) residuals.now }
    ensures { IfOk result (λ numbers. numbers.items ≡ blunders_of limit residuals.now) }
{
    let mut numbers = Vec::new(alloc);
    for (i, residual) in residuals.iter().enumerate() {
        if is_blunder(*residual, limit) {
            numbers.push(i as u32 + 1)?;
        }
    }
    Ok(numbers)
}

/// How many of the residuals of some observations are blunders.
pub fn blunder_count(observations: &[Observation], residuals: &[i64], limit: i64) -> u32
    requires few { length observations.now ≤ max_observations }
    requires each { length residuals.now ≡ length observations.now }
    ensures { result ≡ count_by (is_blunder limit) residuals.now }
{
    let mut count = 0;
    for residual in residuals {
        if is_blunder(*residual, limit) {
            count += 1;
        }
    }
    count
}
