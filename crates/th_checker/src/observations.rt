//! Flows of observations against their weights and residuals, and what heights cost.
ghost use Rattle.std.specs.Prelude.{◌≡◌, ◌<◌, ◌≤◌, IfOk, IfSome, get_or, length, map, pos, unsigned_abs};
ghost use Rattle.std.specs.List.{zip};
ghost use Rattle.th_tables.specs.Rows.{weight_of};
ghost use Rattle.th_certificate.specs.Certified.{flow_limit};
ghost use Rattle.th_certificate.specs.Limits.{most_residual};
ghost use Rattle.th_checker.specs.Inside.Tests.{AreHeightsAt, AreTested, cost_at, is_slack_at, listed_in, not_slack_at, residuals_at, span_not_slack_at, too_large_at};

use crate::maps::SpanHeights;
use std::alloc::{AllocError, Global};
use th_observations::Observation;
use th_tables::Weights;

/// What is tested: observations, and for each the places of its ends among the points, its weight and
/// its flow.
#[derive(Clone, Copy)]
pub(crate) struct Tested<'a> {
    /// How many points there are.
    pub points: usize,
    pub observations: &'a [Observation],
    pub ends: &'a [(usize, usize)],
    pub weights: &'a [u32],
    pub flows: &'a [i64],
    ghost tested: { AreTested points observations.now ends.now weights.now flows.now },
}

impl<'a> Tested<'a> {
    /// The number, from 1, of the first flow that is above its weight in size.
    pub fn first_too_large(&self) -> Option<u32>
        ensures { result ≡ too_large_at self.now.weights.now self.now.flows.now }
    {
        for (i, flow) in self.flows.iter().enumerate() {
            if flow.unsigned_abs() > u64::from(self.weights[i]) {
                return Some(i as u32 + 1);
            }
        }
        None
    }

    /// The number, from 1, of the first flow that is not the whole weight with the sign of its
    /// residual over these heights, where the residual is not zero.
    pub fn first_not_slack(&self, heights: &[i64]) -> Option<u32>
        requires { AreHeightsAt self.now.points heights.now }
        ensures { result ≡ not_slack_at self.now.weights.now
            (zip self.now.observations.now self.now.ends.now) self.now.flows.now heights.now }
    {
        for (i, flow) in self.flows.iter().enumerate() {
            let residual = self.residual(heights, i);
            if !is_slack(self.weights[i], residual, *flow) {
                return Some(i as u32 + 1);
            }
        }
        None
    }

    /// The same over the heights of a span; none where there is no span.
    pub fn span_not_slack(&self, span: &SpanHeights) -> Option<u32>
        requires { IfSome (listed_in span.now) (AreHeightsAt self.now.points) }
        ensures { result ≡ span_not_slack_at self.now.weights.now
            (zip self.now.observations.now self.now.ends.now) self.now.flows.now (listed_in span.now) }
    {
        match span {
            SpanHeights::Listed(heights) => self.first_not_slack(heights),
            SpanHeights::Absent => None,
        }
    }

    /// What these heights cost: the sum of the weighted sizes of their residuals.
    pub fn cost(&self, heights: &[i64]) -> u128
        requires { AreHeightsAt self.now.points heights.now }
        ensures { result ≡ cost_at self.now.weights.now
            (zip self.now.observations.now self.now.ends.now) heights.now }
    {
        let mut total = 0;
        for (i, weight) in self.weights.iter().enumerate() {
            let residual = self.residual(heights, i);
            total += u128::from(*weight) * u128::from(residual.unsigned_abs());
        }
        total
    }

    /// The residual of an observation over these heights.
    fn residual(&self, heights: &[i64], i: usize) -> i64
        requires place { i < length self.now.observations.now }
        requires heights { AreHeightsAt self.now.points heights.now }
        ensures value { result ≡ get_or (residuals_at
            (zip self.now.observations.now self.now.ends.now) heights.now) i (pos 0) }
        ensures small { unsigned_abs result ≤ most_residual }
    {
        let o = &self.observations[i];
        let (station, target) = self.ends[i];
        o.difference() - (heights[target] - heights[station])
    }
}

/// Whether a flow is a whole weight with the sign of a residual, or the residual is zero.
fn is_slack(weight: u32, residual: i64, flow: i64) -> bool
    requires residual { unsigned_abs residual ≤ most_residual }
    requires flow { unsigned_abs flow < flow_limit }
    ensures { result ≡ is_slack_at (weight, (residual, flow)) }
{
    let shown = i128::from(flow) * i128::from(residual);
    let whole = i128::from(weight) * i128::from(residual.unsigned_abs());
    shown == whole
}

/// The weights of some observations, in their order.
pub(crate) fn weights_of(
    alloc: Global,
    observations: &[Observation],
    weights: &Weights,
) -> Result<Vec<u32>, AllocError>
    ensures { IfOk result (λ found. found.items
        ≡ map (λ o. weight_of weights.now o.station o.target) observations.now) }
{
    let mut found = Vec::with_capacity(alloc, observations.len())?;
    for o in observations {
        let (station, target) = o.ends();
        found.push(weights.of(&station, &target))?;
    }
    Ok(found)
}
