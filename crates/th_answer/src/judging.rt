//! The groups of sights.
ghost use Rattle.std.specs.Prelude.{◌≡◌, ◌<◌, ℕ, ℤ, List, All, IfOk, length, map};
ghost use Rattle.th_network.specs.Networks.{weights_of};
ghost use Rattle.th_answer.specs.Corrected.{Corrected};
ghost use Rattle.th_answer.specs.Groups.{group_of, is_beyond};
ghost use Rattle.th_answer.specs.Inside.Judging.{IsJudge, all_marked, group_at, is_in_any, is_unlike_at, judged_in, size_in};

use crate::answers::Group;
use crate::correcting::Readjusted;
use crate::judge::Judge;
use std::alloc::{AllocError, Global};
use th_blunders::is_blunder;
use th_observations::Observation;
use th_remarks::{is_far_beyond, weighted_size};

/// The group of each observation.
pub(crate) fn groups_of(alloc: Global, judge: &Judge<'_>) -> Result<Vec<Group>, AllocError>
    requires each { length judge.now.residuals.now ≡ length judge.now.network.now.observations }
    requires marks { All (λ own. length own.marks.items ≡ length judge.now.network.now.observations) judge.now.corrected.now }
    ensures { IfOk result (λ groups. (heights : List ℕ → ℤ) (after : List Corrected) → IsJudge judge.now heights after
        → groups.items ≡ map (group_of (judged_in judge.now heights after)) judge.now.network.now.observations) }
{
    let observations = judge.network.observations();
    let mut groups = Vec::with_capacity(alloc, observations.len())?;
    for (place, o) in observations.iter().enumerate() {
        groups.push(group_at(judge, place, o))?;
    }
    Ok(groups)
}

/// The group of the sight at a place.
fn group_at(judge: &Judge<'_>, place: usize, o: &Observation) -> Group
    requires residual { place < length judge.now.residuals.now }
    requires weight { place < length (weights_of judge.now.network.now) }
    requires marks { All (λ own. place < length own.marks.items) judge.now.corrected.now }
    ensures { result ≡ group_at judge.now place o.now }
{
    if is_in_any(judge, o) {
        return Group::Question;
    }
    if is_blunder(judge.residuals[place], judge.limit) {
        if are_all_marked(judge.corrected, place) {
            Group::Stays
        } else {
            Group::Cleared
        }
    } else if is_unlike_at(judge, place) {
        Group::Unlike
    } else {
        Group::Fits
    }
}

/// Whether one of the rows has the sight.
fn is_in_any(judge: &Judge<'_>, o: &Observation) -> bool
    ensures { result ≡ is_in_any judge.now o.now }
{
    for remedy in judge.remedies {
        if remedy.has_sight(o) {
            return true;
        }
    }
    false
}

/// Whether the sight at a place is marked whichever row is put right.
fn are_all_marked(corrected: &[Readjusted], place: usize) -> bool
    requires { All (λ own. place < length own.marks.items) corrected.now }
    ensures { result ≡ all_marked corrected.now place }
{
    for own in corrected {
        if !own.marks[place] {
            return false;
        }
    }
    true
}

/// Whether nothing is wrong, and the residual at a place is far beyond the usual one.
fn is_unlike_at(judge: &Judge<'_>, place: usize) -> bool
    requires residual { place < length judge.now.residuals.now }
    requires weight { place < length (weights_of judge.now.network.now) }
    ensures { result ≡ is_unlike_at judge.now place }
{
    judge.is_quiet && is_beyond(judge, place)
}

/// Whether the residual at a place is far beyond the usual one, if there is a usual one.
fn is_beyond(judge: &Judge<'_>, place: usize) -> bool
    requires residual { place < length judge.now.residuals.now }
    requires weight { place < length (weights_of judge.now.network.now) }
    ensures { result ≡ is_beyond judge.now.usual (size_in judge.now place) }
{
    let size = weighted_size(judge.network.weights()[place], judge.residuals[place]);
    match judge.usual {
        Some(usual) => is_far_beyond(size, usual),
        None => false,
    }
}
