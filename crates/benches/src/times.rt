//! Times of steps: a watch, the least of repeated times, and the lines that are printed of them.
use anyhow::Result;
use std::rt::Clock;
use std::time::{Duration, Instant};

/// A watch that runs since it was started.
#[derive(Clone, Copy)]
pub struct Watch {
    start: Option<Instant>,
}

impl Watch {
    /// A watch that starts now.
    pub fn start(clock: &impl Clock) -> Watch {
        Watch {
            start: Instant::now(clock).ok(),
        }
    }

    /// The time since the start: the longest there is where the clock could not be read, which is never
    /// the best.
    pub fn time(self, clock: &impl Clock) -> Duration {
        match self.start {
            Some(start) => start.elapsed(clock).unwrap_or(longest()),
            None => longest(),
        }
    }
}

fn longest() -> Duration {
    Duration::from_secs(u64::MAX)
}

/// Keeps the lesser time of each step.
pub fn keep_least(best: &mut [Duration], times: &[Duration]) {
    for (best, time) in best.iter_mut().zip(times) {
        *best = (*best).min(*time);
    }
}

/// Prints a line for each step.
pub fn print_times(out: &impl Print, steps: &[&str], times: &[Duration]) -> Result<()> {
    for (step, time) in steps.iter().zip(times) {
        println!(out; "{step:17} {:8} us", time.as_micros())?;
    }
    Ok(())
}
