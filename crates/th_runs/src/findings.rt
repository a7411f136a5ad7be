//! What a review finds of a network: what a mistake in it would do.
ghost use Rattle.std.specs.Prelude.{◌≡◌, All, IfErr, IfOk, [], map};
ghost use Rattle.std.specs.List.{AllZip};
ghost use Rattle.th_entries.specs.Stations.{HasOneStation};
ghost use Rattle.th_reliability.specs.Numbers.{AreControls, AreStrengths};
ghost use Rattle.th_reliability.specs.Effects.{IsEffect};
ghost use Rattle.th_reliability.specs.Sights.{in_sights};
ghost use Rattle.th_review_rows.specs.Entries.{entries_of, sights_of};
ghost use Rattle.th_review_rows.specs.Found.{numbers_in};
ghost use Rattle.th_run_parts.specs.Inputs.{MakesNetwork};
ghost use Rattle.th_runs.specs.Reviewed.{AreFound};

use std::alloc::{AllocError, Global};
use th_entries::{BookReview, Entry};
use th_network::Network;
use th_network::laws::faults_exclude_each_other;
use th_progress::Progress;
use th_reliability::{
    Effect, Reliability, Sights, benchmark_mistakes, point_strengths, shared_mistakes,
};
use th_review_rows::{Findings, entries_of, sights_of};
use th_run_parts::{Refusal, network_of};
use th_tables::Weights;

/// What a review finds of a network and of the entries of its books.
pub(crate) fn findings_of<'a, P: Progress>(
    alloc: Global,
    network: &'a Network<'a>,
    reviews: &'a [BookReview],
    progress: &mut P,
) -> Result<Findings<'a>, Refusal>
    requires network { MakesNetwork network.now }
    requires stations { All (HasOneStation network.now.observations) (entries_of reviews.now) }
    ensures network { IfOk result (λ findings. findings.network.now ≡ network.now) }
    ensures reviews { IfOk result (λ findings. findings.reviews.now ≡ reviews.now) }
    ensures found { IfOk result (λ findings. AreFound network.now reviews.now (numbers_in findings)) }
    ensures refused { IfErr result (λ own. own ≡ Refusal.NoMemory) }
{
    let Reliability {
        strengths,
        controls,
        blames,
    } = Reliability::of(alloc, network, progress)?;
    let unit_strengths = unit_strengths_of(alloc, network, &strengths, progress)?;
    let effects = effects_of(alloc, network, &controls, reviews, progress)?;
    let benchmarks = benchmark_mistakes(alloc, network)?;
    Ok(Findings {
        network,
        reviews,
        strengths,
        unit_strengths,
        controls,
        blames,
        effects,
        benchmarks,
    })
}

/// The strengths of a network's points if each observation weighs 1. Without a row of weights these are
/// its strengths.
fn unit_strengths_of<P: Progress>(
    alloc: Global,
    network: &Network,
    strengths: &[Option<u32>],
    progress: &mut P,
) -> Result<Vec<Option<u32>>, Refusal>
    requires network { MakesNetwork network.now }
    requires strengths { AreStrengths network.now strengths.now }
    ensures strengths { IfOk result (λ strengths.
        AreStrengths (record network.now { weights = [] }) strengths.items) }
    ensures refused { IfErr result (λ own. own ≡ Refusal.NoMemory) }
{
    if network.weight_table().len() == 0 {
        return Ok(Vec::from_slice(alloc, strengths)?);
    }
    faults_exclude_each_other();
    let observations = Vec::from_slice(alloc, network.observations())?;
    let weights = Weights::empty(alloc);
    let unit = network_of(alloc, observations, network.benchmarks(), &weights)?;
    Ok(point_strengths(alloc, &unit, progress)?)
}

/// What a mistake in each entry of the books would do.
fn effects_of<P: Progress>(
    alloc: Global,
    network: &Network,
    controls: &[Option<u32>],
    reviews: &[BookReview],
    progress: &mut P,
) -> Result<Vec<Effect>, AllocError>
    requires controls { AreControls network.now controls.now }
    requires stations { All (HasOneStation network.now.observations) (entries_of reviews.now) }
    ensures { IfOk result (λ effects. AllZip (λ entry effect.
        IsEffect network.now (in_sights (sights_of entry)) effect) (entries_of reviews.now) effects.items) }
{
    let entries = entries_of(alloc, reviews)?;
    let sights = sights_of_all(alloc, &entries)?;
    shared_mistakes(alloc, network, controls, &sights, progress)
}

/// The sights of each entry.
fn sights_of_all(alloc: Global, entries: &[Entry]) -> Result<Vec<Sights>, AllocError>
    ensures { IfOk result (λ sights. sights.items ≡ map sights_of entries.now) }
{
    let mut sights = Vec::with_capacity(alloc, entries.len())?;
    for entry in entries {
        sights.push(sights_of(entry))?;
    }
    Ok(sights)
}
