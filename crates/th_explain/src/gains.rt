//! What a number gains if it alone is mended and all heights stay. Nothing is promised of it: it only spares searches
//! that would show nothing.
use std::alloc::{AllocError, Global};
use th_blunders::Fit;
use th_changes::Run;
use th_network::Network;

/// How often a median is narrowed at most.
const ROUNDS: u32 = 64;

/// Of a longer run at least so many residuals are looked at, and fewer than twice as many: each second one, or each third,
/// and so on.
const FEWEST_LOOKED_AT: usize = 256;

/// The residuals of a network at its best heights, in units of 10 nm.
#[derive(Drop)]
pub(crate) struct Gains {
    residuals: Vec<i64>,
    /// Those of a run that are looked at, each with its weight.
    looked_at: Vec<(i64, u32)>,
}

impl Gains {
    /// Of a network whose best heights fit like this.
    pub fn of(alloc: Global, fit: &Fit) -> Result<Gains, AllocError> {
        Ok(Gains {
            residuals: Vec::from_slice(alloc, &fit.residuals)?,
            looked_at: Vec::with_capacity(alloc, 2 * FEWEST_LOOKED_AT)?,
        })
    }

    /// Whether a number whose observations are a whole run gains by a change beyond a limit.
    pub fn are_some_beyond(&mut self, network: &Network, run: Run, limit: u64) -> bool {
        if self.look_at(network, run).is_none() {
            return false;
        }
        let change = i64::try_from(limit).unwrap_or(i64::MAX).saturating_add(1);
        self.gain(change) > 0 || self.gain(change.saturating_neg()) > 0
    }

    /// Whether it gains more than this by some change.
    pub fn are_above(&mut self, network: &Network, run: Run, worth: u64) -> bool {
        let Some(step) = self.look_at(network, run) else {
            return false;
        };
        let best = self.median().saturating_neg();
        i128::from(self.gain(best)).saturating_mul(i128::from(step)) > i128::from(worth)
    }

    /// Looks at the residuals of a run, if it is whole, and tells for how many each of them stands.
    fn look_at(&mut self, network: &Network, run: Run) -> Option<u32> {
        self.looked_at.clear();
        if !run.is_whole {
            return None;
        }
        let count = run.end.saturating_sub(run.start);
        let step = (count / FEWEST_LOOKED_AT).max(1);
        for k in 0..count / step {
            let place = run.start.saturating_add(k.saturating_mul(step));
            let residual = *self.residuals.get(place)?;
            let weight = *network.weights().get(place)?;
            self.looked_at.push((residual, weight)).ok()?;
        }
        u32::try_from(step).ok()
    }

    /// How much less the residuals that are looked at cost, if all of them grow by so much.
    fn gain(&self, change: i64) -> i64 {
        let mut gain = 0i64;
        for (residual, weight) in self.looked_at.iter() {
            let before = residual.saturating_abs();
            let behind = residual.saturating_add(change).saturating_abs();
            let less = before.saturating_sub(behind);
            gain = gain.saturating_add(less.saturating_mul(i64::from(*weight)));
        }
        gain
    }

    /// Their weighted median.
    fn median(&self) -> i64 {
        let (mut low, mut high) = self.ends();
        for _ in 0..ROUNDS {
            if low >= high {
                break;
            }
            let middle = low.saturating_add(high.saturating_sub(low) / 2);
            if self.is_half_up_to(middle) {
                high = middle;
            } else {
                low = middle.saturating_add(1);
            }
        }
        low
    }

    /// The least and the greatest of them.
    fn ends(&self) -> (i64, i64) {
        let (mut low, mut high) = (i64::MAX, i64::MIN);
        for (residual, _) in self.looked_at.iter() {
            low = low.min(*residual);
            high = high.max(*residual);
        }
        (low, high)
    }

    /// Whether those up to this weigh at least as much as those beyond.
    fn is_half_up_to(&self, most: i64) -> bool {
        let (mut before, mut behind) = (0u64, 0u64);
        for (residual, weight) in self.looked_at.iter() {
            if *residual <= most {
                before = before.saturating_add(u64::from(*weight));
            } else {
                behind = behind.saturating_add(u64::from(*weight));
            }
        }
        before >= behind
    }
}
