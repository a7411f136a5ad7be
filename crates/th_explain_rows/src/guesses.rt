//! Which numbers are looked at first. Nothing is promised: what is found of them only makes others quicker.
use std::alloc::{AllocError, Global};
use th_blunders::Fit;
use th_changes::{Run, run_of};
use th_explain::{Case, Number};
use th_network::Network;
use th_numbers::Candidate;
use th_reliability::Runs;

/// So many numbers of each kind are freed before all others.
const FIRST_FREED: usize = 60;

/// Numbers that gain most if they alone are mended and all heights stay: so many of all but the changes that were
/// forgotten, and so many of these. What a change gains is reckoned by squares, which need no median.
pub(crate) fn first_freed(
    alloc: Global,
    case: &Case<'_>,
    candidates: &[Candidate],
) -> Result<Vec<Candidate>, AllocError> {
    let network = case.network;
    let fit = case.fit;
    let runs = Runs::of(network.observations());
    let sums = Sums::of(alloc, network, fit)?;
    let mut residuals = Vec::new(alloc);
    let mut gains = Vec::new(alloc);
    let mut gains_of_changes = Vec::new(alloc);
    for (place, candidate) in candidates.iter().enumerate() {
        let number = candidate.number();
        let run = run_of(&number, &runs);
        if candidate.whole().is_some() {
            gains_of_changes.push((sums.gain(run), place))?;
        } else {
            list_residuals(&mut residuals, network, fit, &number, run)?;
            gains.push((gain_of(&mut residuals), place))?;
        }
    }
    let mut first = Vec::with_capacity(alloc, 2 * FIRST_FREED)?;
    add_best(&mut first, &mut gains, candidates)?;
    add_best(&mut first, &mut gains_of_changes, candidates)?;
    Ok(first)
}

/// Adds the numbers that gain most.
fn add_best(
    first: &mut Vec<Candidate>,
    gains: &mut [(u128, usize)],
    candidates: &[Candidate],
) -> Result<(), AllocError> {
    gains.sort_unstable();
    for (gain, place) in gains.iter().rev().take(FIRST_FREED) {
        if let Some(candidate) = candidates.get(*place)
            && *gain > 0
        {
            first.push(*candidate)?;
        }
    }
    Ok(())
}

/// Sums over the first observations: of weights, and of residuals times weight.
#[derive(Drop)]
struct Sums {
    weights: Vec<u64>,
    residuals: Vec<i128>,
}

impl Sums {
    fn of(alloc: Global, network: &Network, fit: &Fit) -> Result<Sums, AllocError> {
        let count = network.observations().len().saturating_add(1);
        let mut weights = Vec::with_capacity(alloc, count)?;
        let mut residuals = Vec::with_capacity(alloc, count)?;
        let (mut weight, mut residual) = (0u64, 0i128);
        weights.push(weight)?;
        residuals.push(residual)?;
        for (own, own_weight) in fit.residuals.iter().zip(network.weights()) {
            let times = i128::from(*own).saturating_mul(i128::from(*own_weight));
            weight = weight.saturating_add(u64::from(*own_weight));
            residual = residual.saturating_add(times);
            weights.push(weight)?;
            residuals.push(residual)?;
        }
        Ok(Sums { weights, residuals })
    }

    /// How much less the squares of a run's residuals cost, if all of them change by their mean.
    fn gain(&self, run: Run) -> u128 {
        let ends = (self.weights.get(run.start), self.weights.get(run.end));
        let sums = (self.residuals.get(run.start), self.residuals.get(run.end));
        let ((Some(before), Some(behind)), (Some(start), Some(end))) = (ends, sums) else {
            return 0;
        };
        let weight = u128::from(behind.saturating_sub(*before));
        let sum = end.saturating_sub(*start).unsigned_abs();
        sum.checked_div(weight).unwrap_or(0).saturating_mul(sum)
    }
}

/// Lists the residuals that a number touches, each with the sign of its touch and with its weight.
fn list_residuals(
    residuals: &mut Vec<(i64, u32)>,
    network: &Network,
    fit: &Fit,
    number: &Number,
    run: Run,
) -> Result<(), AllocError> {
    residuals.clear();
    for place in run.start..run.end {
        if let (Some(o), Some(residual), Some(weight)) = (
            network.observations().get(place),
            fit.residuals.get(place),
            network.weights().get(place),
        ) {
            let touch = number.touch(o);
            if touch != 0 {
                residuals.push((residual.saturating_mul(touch), *weight))?;
            }
        }
    }
    Ok(())
}

/// How much less residuals cost, each with its weight, if all of them change by what suits them best: by their
/// weighted median.
fn gain_of(residuals: &mut [(i64, u32)]) -> u128 {
    residuals.sort_unstable();
    let mut all = 0u64;
    for (_, weight) in residuals.iter() {
        all = all.saturating_add(u64::from(*weight));
    }
    let mut half = 0u64;
    let mut median = 0i64;
    for (residual, weight) in residuals.iter() {
        half = half.saturating_add(u64::from(*weight));
        if half.saturating_mul(2) >= all {
            median = *residual;
            break;
        }
    }
    let (mut before, mut behind) = (0u128, 0u128);
    for (residual, weight) in residuals.iter() {
        before = before.saturating_add(cost_of(*residual, *weight));
        behind = behind.saturating_add(cost_of(residual.saturating_sub(median), *weight));
    }
    before.saturating_sub(behind)
}

/// What a residual costs.
fn cost_of(residual: i64, weight: u32) -> u128 {
    u128::from(residual.unsigned_abs()).saturating_mul(u128::from(weight))
}
