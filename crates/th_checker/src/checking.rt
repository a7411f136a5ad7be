//! The tests of a certificate, in the order of the reasons that a verdict gives.
ghost use Rattle.std.specs.Prelude.{◌≡◌, ◌≤◌, IfOk, length};
ghost use Rattle.std.specs.List.{zip};
ghost use Rattle.th_network.specs.Limits.{max_observations};
ghost use Rattle.th_points.specs.Ends.{ArePoints};
ghost use Rattle.th_checker.specs.Inside.Tests.{AreMaps, AreMapsAt, listed_in, slack_verdict_at};
ghost use Rattle.th_checker.specs.Verdicts.{flow_verdict, map_verdict, verdict_of};

use crate::balances::{balances_of, first_unbalanced};
use crate::maps::{Maps, all_keep, maps_at};
use crate::observations::{Tested, weights_of};
use crate::verdicts::{Reason, Verdict};
use std::alloc::{AllocError, Global};
use th_certificate::Certificate;
use th_observations::Observation;
use th_points::Points;
use th_tables::{Benchmarks, Weights};

/// The verdict on a certificate for observations, benchmarks and weights: yes, or the first reason
/// that applies.
pub fn check(
    alloc: Global,
    observations: &[Observation],
    benchmarks: &Benchmarks,
    weights: &Weights,
    certificate: &Certificate,
) -> Result<Verdict, AllocError>
    requires { length observations.now ≤ max_observations }
    ensures { IfOk result (λ verdict. verdict
        ≡ verdict_of observations.now benchmarks.now weights.now certificate.now) }
{
    let points = Points::of(alloc, observations, benchmarks)?;
    let maps = match maps_at(alloc, &points.names, certificate)? {
        Some(maps) => maps,
        None => return Ok(Verdict::No(Reason::PointsDiffer)),
    };
    if !all_keep(benchmarks, certificate) {
        return Ok(Verdict::No(Reason::BenchmarkMoved));
    }
    if certificate.flows().len() != observations.len() {
        return Ok(Verdict::No(Reason::FlowCount));
    }
    check_flows(
        alloc,
        observations,
        benchmarks,
        weights,
        certificate,
        &points,
        &maps,
    )
}

/// The verdict where the maps keep the benchmarks and each observation has a flow.
fn check_flows(
    alloc: Global,
    observations: &[Observation],
    benchmarks: &Benchmarks,
    weights: &Weights,
    certificate: &Certificate,
    points: &Points,
    maps: &Maps,
) -> Result<Verdict, AllocError>
    requires few { length observations.now ≤ max_observations }
    requires each { length certificate.now.flows ≡ length observations.now }
    requires points { ArePoints observations.now benchmarks.now points.now.names.keys points.now.ends.items }
    requires maps { AreMaps points.now.names.keys certificate.now maps.now }
    ensures { IfOk result (λ verdict. verdict
        ≡ flow_verdict observations.now benchmarks.now weights.now certificate.now) }
{
    let weights = weights_of(alloc, observations, weights)?;
    let tested = Tested {
        points: points.names.len(),
        observations,
        ends: &points.ends,
        weights: &weights,
        flows: certificate.flows(),
    };
    if let Some(number) = tested.first_too_large() {
        return Ok(Verdict::No(Reason::FlowTooLarge(number)));
    }
    let balances = balances_of(alloc, &tested)?;
    if let Some(name) = first_unbalanced(points.names.as_slice(), benchmarks, &balances) {
        return Ok(Verdict::No(Reason::Unbalanced(name)));
    }
    Ok(check_slack(&tested, certificate, maps))
}

/// The verdict where the flows, which are those of the certificate, are in balance.
fn check_slack(tested: &Tested<'_>, certificate: &Certificate, maps: &Maps) -> Verdict
    requires flows { tested.now.flows.now ≡ certificate.now.flows }
    requires maps { AreMapsAt tested.now.points maps.now }
    ensures { result ≡ slack_verdict_at tested.now.weights.now
        (zip tested.now.observations.now tested.now.ends.now) certificate.now
        maps.now.heights.items (listed_in maps.now.low) (listed_in maps.now.high) }
{
    if let Some(number) = tested.first_not_slack(&maps.heights) {
        return Verdict::No(Reason::NotSlack(number));
    }
    if certificate.cost() != tested.cost(&maps.heights) {
        return Verdict::No(Reason::WrongCost);
    }
    if let Some(number) = tested.span_not_slack(&maps.low) {
        return Verdict::No(Reason::LowNotSlack(number));
    }
    if let Some(number) = tested.span_not_slack(&maps.high) {
        return Verdict::No(Reason::HighNotSlack(number));
    }
    Verdict::Yes
}
