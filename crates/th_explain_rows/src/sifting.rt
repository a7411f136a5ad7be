//! Which numbers are rows: those beyond the limit, and those beyond half of it that leave no more than the best of
//! these.
ghost use Rattle.std.specs.Prelude.{◌≡◌, ◌≤◌, ℕ, IfOk, OnOk, Some, true};
ghost use Rattle.std.specs.List.{AllZip, enumerate_from};
ghost use Rattle.th_explain.specs.Explained.{IsAtLeast};
ghost use Rattle.th_explain_rows.specs.Inside.Passing.{IsMildIf, IsPassedOrBehind};
ghost use Rattle.th_explain_rows.specs.Inside.Sifting.{IsKnownOrMilder, IsSettled, IsSiftedOrBehind, least_left, lesser};
ghost use Rattle.th_explain_rows.specs.Rows.{IsBehind, IsBestBeyond, half_of, sifting};

use crate::finder::{Finder, at_most, half_of, next};
use crate::passing::{Passed, add_freed};
use crate::rows::{Cutoff, Filter, is_behind};
use std::alloc::{AllocError, Global};
use th_explain::Freed;
use th_explain::laws::freed_is_one;
use th_numbers::Candidate;
use th_progress::{Progress, Work};

/// Numbers that pass a filter, and the cutoff behind which they may be missing.
#[derive(Drop)]
pub(crate) struct Sifted {
    pub filter: Filter,
    pub cutoff: Option<Cutoff>,
    pub freed: Vec<Option<Freed>>,
}

/// Whether none of the numbers behind the cutoff leaves less than all that were found.
pub(crate) fn is_settled(found: &Passed) -> bool
    ensures { result ≡ true → IsSettled (least_left found.now.freed.items) found.now.cutoff }
{
    match (least_left(&found.freed), found.cutoff) {
        (_, None) => true,
        (None, Some(_)) => false,
        (Some(least), Some(cutoff)) => least <= cutoff.left,
    }
}

/// The numbers that are rows, given those beyond the limit.
pub(crate) fn filtered<P: Progress>(
    alloc: Global,
    finder: &mut Finder<'_>,
    candidates: &[Candidate],
    found: Passed,
    progress: &mut P,
) -> Result<Sifted, AllocError>
    requires found { AllZip (IsPassedOrBehind finder.old.misfit.case.now.network.now finder.old.misfit.limit found.cutoff) (enumerate_from 0 candidates.now) found.freed.items }
    requires mild { AllZip (IsMildIf finder.old.misfit.case.now.network.now finder.old.misfit.limit found.cutoff) (enumerate_from 0 candidates.now) found.mild.items }
    requires settled { IsSettled (least_left found.freed.items) found.cutoff }
    ensures limit { IfOk result (λ own. own.filter.limit ≡ finder.old.misfit.limit) }
    ensures best { IfOk result (λ own. IsBestBeyond finder.old.misfit.case.now.network.now finder.old.misfit.limit candidates.now own.filter.best) }
    ensures found { IfOk result (λ own.
        AllZip (IsSiftedOrBehind finder.old.misfit.case.now.network.now own.filter own.cutoff) (enumerate_from 0 candidates.now) own.freed.items) }
    ensures cutoff { IfOk result (λ own. own.cutoff ≡ found.cutoff) }
    ensures misfit { OnOk result (finder.new.misfit ≡ finder.old.misfit) }
{
    freed_is_one();
    let limit = finder.misfit.limit;
    let best = least_left(&found.freed);
    match best {
        Some(least) => {
            let known = Known {
                candidates,
                found: &found,
                best: least,
            };
            let freed = with_milder(alloc, finder, &known, progress)?;
            Ok(Sifted {
                filter: Filter { limit, best },
                cutoff: found.cutoff,
                freed,
            })
        }
        None => Ok(Sifted {
            filter: Filter { limit, best },
            cutoff: found.cutoff,
            freed: found.freed,
        }),
    }
}

/// The numbers beyond the limit, and the least that one of them leaves, in units of 10 nm times weight.
#[derive(Clone, Copy)]
struct Known<'a> {
    candidates: &'a [Candidate],
    found: &'a Passed,
    best: u128,
}

/// What is known of a number beyond the limit, and whether none passes beyond half of it either, ahead of the cutoff.
#[derive(Clone, Copy)]
struct Earlier {
    freed: Option<Freed>,
    is_mild: bool,
}

/// A number is sought that leaves no more than `best`. One that leaves at least `least` may be missing, if it is given.
#[derive(Clone, Copy)]
struct Sought {
    best: u128,
    least: Option<u128>,
}

impl Known<'_> {
    /// What is sought at this place, in the order of numbers: what is not behind the cutoff.
    fn sought(&self, place: usize) -> Sought
        ensures best { result.best ≡ self.now.best }
        ensures least { (left : ℕ) → left ≤ self.now.best → IsAtLeast result.least left → IsBehind self.now.found.now.cutoff place left }
    {
        let best = self.best;
        let least = if is_behind(self.found.cutoff, place, best) {
            Some(best)
        } else {
            next(Some(best))
        };
        Sought { best, least }
    }
}

/// The numbers beyond the limit, with those beyond half of it that leave no more than the best.
fn with_milder<P: Progress>(
    alloc: Global,
    finder: &mut Finder<'_>,
    known: &Known<'_>,
    progress: &mut P,
) -> Result<Vec<Option<Freed>>, AllocError>
    requires found { AllZip (IsPassedOrBehind finder.old.misfit.case.now.network.now finder.old.misfit.limit known.now.found.now.cutoff) (enumerate_from 0 known.now.candidates.now) known.now.found.now.freed.items }
    requires mild { AllZip (IsMildIf finder.old.misfit.case.now.network.now finder.old.misfit.limit known.now.found.now.cutoff) (enumerate_from 0 known.now.candidates.now) known.now.found.now.mild.items }
    ensures found { IfOk result (λ freed.
        AllZip (IsSiftedOrBehind finder.old.misfit.case.now.network.now (sifting finder.old.misfit.limit (Some known.now.best)) known.now.found.now.cutoff) (enumerate_from 0 known.now.candidates.now) freed.items) }
    ensures misfit { OnOk result (finder.new.misfit ≡ finder.old.misfit) }
{
    let limit = finder.misfit.limit;
    finder.look_beyond(half_of(limit));
    let mut freed = Vec::with_capacity(alloc, known.candidates.len())?;
    for place in 0..known.candidates.len() {
        progress.show(Work::Numbers, place, known.candidates.len());
        let earlier = Earlier {
            freed: known.found.freed[place],
            is_mild: known.found.mild[place],
        };
        let sought = known.sought(place);
        let own = known_or_milder(alloc, finder, &known.candidates[place], &earlier, sought)?;
        add_freed(&mut freed, own)?;
    }
    finder.look_beyond(limit);
    Ok(freed)
}

/// What is left if a number is freed that is beyond the limit; or else what is found of it now, if it may be beyond
/// half of the limit.
fn known_or_milder(
    alloc: Global,
    finder: &mut Finder<'_>,
    candidate: &Candidate,
    earlier: &Earlier,
    sought: Sought,
) -> Result<Option<Freed>, AllocError>
    ensures found { IfOk result (IsKnownOrMilder finder.old.misfit.case.now.network.now finder.old.misfit.limit sought.best sought.least candidate.now earlier.now) }
    ensures misfit { finder.new.misfit ≡ finder.old.misfit }
{
    if earlier.is_mild {
        return Ok(None);
    }
    match earlier.freed {
        Some(freed) => Ok(Some(freed)),
        None => {
            let own = finder.passed(alloc, candidate, sought.least)?;
            Ok(at_most(&own, sought.best))
        }
    }
}

/// The least that one of the numbers leaves that were found.
fn least_left(found: &[Option<Freed>]) -> Option<u128>
    ensures { result ≡ least_left found.now }
{
    let mut least = None;
    for own in found {
        least = lesser(least, own);
    }
    least
}

/// The lesser of what was left before, and what a number leaves.
fn lesser(least: Option<u128>, own: &Option<Freed>) -> Option<u128>
    ensures { result ≡ lesser least own.now }
{
    match (least, own) {
        (None, None) => None,
        (None, Some(freed)) => Some(freed.left),
        (Some(least), None) => Some(least),
        (Some(least), Some(freed)) => Some(least.min(freed.left)),
    }
}
