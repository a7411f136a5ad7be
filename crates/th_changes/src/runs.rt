//! Where the observations are that a number touches.
ghost use Rattle.std.specs.Prelude.{◌≡◌, false, length, true};
ghost use Rattle.th_changes.specs.Rerouted.{HoldsNumber};
ghost use Rattle.th_reliability.specs.Runs.{AreTheSights, HoldsSights};

use crate::numbers::Number;
use th_reliability::{Runs, Sights};

/// Where the observations are that a number touches, counted from 0: from the first place up to the
/// second, without it.
#[derive(Clone, Copy, Debug)]
pub struct Run {
    pub start: usize,
    pub end: usize,
    /// Whether the number is known to touch all that are there, and all of them alike.
    pub is_whole: bool,
}

/// Where the observations are that a number touches.
pub fn run_of(number: &Number, runs: &Runs<'_>) -> Run
    ensures { HoldsNumber runs.now.observations.now number.now result }
{
    match number {
        Number::Added(sights) => run_of_sights(runs, sights),
        Number::Subtracted(sights) => run_of_sights(runs, sights),
        Number::Benchmark(_) => all_of(runs),
    }
}

/// Where some sights are.
fn run_of_sights(runs: &Runs<'_>, sights: &Sights) -> Run
    ensures all { HoldsSights runs.now.observations.now sights.now (result.start, result.end) }
    ensures alone { result.is_whole ≡ true
        → AreTheSights runs.now.observations.now sights.now (result.start, result.end) }
{
    match runs.exact_run(sights) {
        Some((start, end)) => Run {
            start,
            end,
            is_whole: true,
        },
        None => all_of(runs),
    }
}

/// All observations.
fn all_of(runs: &Runs<'_>) -> Run
    ensures start { result.start ≡ 0 }
    ensures end { result.end ≡ length runs.now.observations.now }
    ensures part { result.is_whole ≡ false }
{
    Run {
        start: 0,
        end: runs.observations.len(),
        is_whole: false,
    }
}
