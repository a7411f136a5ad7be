//! What is left if each of all numbers is freed, where it passes, up to a cutoff.
ghost use Rattle.std.specs.Prelude.{◌≡◌, ◌++◌, IfOk, OnOk, [], ◌∷◌, None, Some, drop, length, map, take};
ghost use Rattle.std.specs.List.{AllZip, enumerate_from};
ghost use Rattle.th_explain_rows.specs.Inside.Passing.{IsFinding, IsMildIf, IsMore, IsNoChangeOr, IsPassedOr, IsPassedOrBehind, freed_of, is_mild};

use crate::finder::{Finder, Finding, next};
use crate::growing::{Findings, lowered};
use crate::rows::Cutoff;
use std::alloc::{AllocError, Global};
use th_explain::Freed;
use th_explain_texts::MOST_ROWS;
use th_numbers::Candidate;
use th_progress::{Progress, Work};

/// Numbers in their order, and what was found of each, compared with `least`, if it is given.
#[derive(Clone, Copy)]
struct Found<'a> {
    candidates: &'a [Candidate],
    findings: &'a [Finding],
    least: Option<u128>,
}

/// Numbers that pass, and the cutoff behind which they may be missing.
#[derive(Drop)]
pub(crate) struct Passed {
    pub cutoff: Option<Cutoff>,
    pub freed: Vec<Option<Freed>>,
    /// Of which numbers it is known that none passes beyond half of the limit either, ahead of the cutoff.
    pub mild: Vec<bool>,
}

/// All numbers that pass.
pub(crate) fn all_passed<P: Progress>(
    alloc: Global,
    finder: &mut Finder<'_>,
    candidates: &[Candidate],
    progress: &mut P,
) -> Result<Passed, AllocError>
    ensures found { IfOk result (λ found.
        AllZip (IsPassedOrBehind finder.old.misfit.case.now.network.now finder.old.misfit.limit found.cutoff) (enumerate_from 0 candidates.now) found.freed.items) }
    ensures mild { IfOk result (λ found.
        AllZip (IsMildIf finder.old.misfit.case.now.network.now finder.old.misfit.limit found.cutoff) (enumerate_from 0 candidates.now) found.mild.items) }
    ensures all { IfOk result (λ found. found.cutoff ≡ None) }
    ensures misfit { finder.new.misfit ≡ finder.old.misfit }
{
    let mut freed = Vec::with_capacity(alloc, candidates.len())?;
    for candidate in candidates {
        progress.show(Work::Numbers, freed.len(), candidates.len());
        let own = finder.passed(alloc, candidate, None)?;
        add_freed(&mut freed, own)?;
    }
    let mild = vec![in alloc; false; candidates.len()]?;
    Ok(Passed {
        cutoff: None,
        freed,
        mild,
    })
}

/// The numbers that pass, up to a cutoff if so many of them pass as may be printed. What is found of the first numbers
/// only makes others quicker. That as many are ahead of the cutoff is not promised: it is checked when there are rows.
pub(crate) fn passed_before_cutoff<P: Progress>(
    alloc: Global,
    finder: &mut Finder<'_>,
    first: &[Candidate],
    candidates: &[Candidate],
    progress: &mut P,
) -> Result<Passed, AllocError>
    ensures found { IfOk result (λ found.
        AllZip (IsPassedOrBehind finder.old.misfit.case.now.network.now finder.old.misfit.limit found.cutoff) (enumerate_from 0 candidates.now) found.freed.items) }
    ensures mild { IfOk result (λ found.
        AllZip (IsMildIf finder.old.misfit.case.now.network.now finder.old.misfit.limit found.cutoff) (enumerate_from 0 candidates.now) found.mild.items) }
    ensures misfit { finder.new.misfit ≡ finder.old.misfit }
{
    let known = found_of(alloc, finder, first, None, progress)?;
    let found = found_of(alloc, finder, candidates, known.least, progress)?;
    match found.least {
        Some(left) => {
            let found = Found {
                candidates,
                findings: &found.all,
                least: Some(left),
            };
            cut_off(alloc, finder, &found, left, progress)
        }
        None => {
            let freed = all_freed(alloc, &found.all)?;
            let mild = all_mild(alloc, &found.all)?;
            Ok(Passed {
                cutoff: None,
                freed,
                mild,
            })
        }
    }
}

/// What is found of each of some numbers, compared with `least`, if it is given, or with what the last of those leaves
/// that may be printed. Changes that were forgotten are looked at last: most of them are shown not to pass by what was
/// found of others.
fn found_of<P: Progress>(
    alloc: Global,
    finder: &mut Finder<'_>,
    candidates: &[Candidate],
    least: Option<u128>,
    progress: &mut P,
) -> Result<Findings, AllocError>
    ensures found { IfOk result (λ found.
        AllZip (IsFinding finder.old.misfit.case.now.network.now finder.old.misfit.limit found.least) candidates.now found.all.items) }
    ensures misfit { finder.new.misfit ≡ finder.old.misfit }
{
    let others = others_found(alloc, finder, candidates, least, progress)?;
    with_changes(alloc, finder, candidates, others, progress)
}

/// The same, but for changes that were forgotten.
fn others_found<P: Progress>(
    alloc: Global,
    finder: &mut Finder<'_>,
    candidates: &[Candidate],
    least: Option<u128>,
    progress: &mut P,
) -> Result<Findings, AllocError>
    ensures found { IfOk result (λ found.
        AllZip (IsNoChangeOr finder.old.misfit.case.now.network.now finder.old.misfit.limit found.least) candidates.now found.all.items) }
    ensures misfit { finder.new.misfit ≡ finder.old.misfit }
{
    let mut found = Findings::new(alloc, least);
    for candidate in candidates {
        progress.show(Work::Numbers, found.all.len(), candidates.len());
        let own = other_found(alloc, finder, candidate, found.least)?;
        found.add(alloc, own)?;
    }
    Ok(found)
}

/// What is found of a number. Of a change that was forgotten nothing is found yet.
fn other_found(
    alloc: Global,
    finder: &mut Finder<'_>,
    candidate: &Candidate,
    least: Option<u128>,
) -> Result<Finding, AllocError>
    ensures found { IfOk result (IsNoChangeOr finder.old.misfit.case.now.network.now finder.old.misfit.limit least candidate.now) }
    ensures misfit { finder.new.misfit ≡ finder.old.misfit }
{
    if candidate.whole().is_some() {
        return Ok(Finding::AtLeast);
    }
    finder.look(alloc, candidate, least)
}

/// What was found of other numbers, and what is found of the changes that were forgotten.
fn with_changes<P: Progress>(
    alloc: Global,
    finder: &mut Finder<'_>,
    candidates: &[Candidate],
    others: Findings,
    progress: &mut P,
) -> Result<Findings, AllocError>
    requires { AllZip (IsNoChangeOr finder.old.misfit.case.now.network.now finder.old.misfit.limit others.least) candidates.now others.all.items }
    ensures found { IfOk result (λ found.
        AllZip (IsFinding finder.old.misfit.case.now.network.now finder.old.misfit.limit found.least) candidates.now found.all.items) }
    ensures misfit { finder.new.misfit ≡ finder.old.misfit }
{
    let mut found = Findings::new(alloc, others.least);
    for k in 0..candidates.len() {
        progress.show(Work::Numbers, k, candidates.len());
        let known = lowered(&others.all[k], others.least, found.least);
        let own = with_change(alloc, finder, &candidates[k], &known, found.least)?;
        found.add(alloc, own)?;
    }
    Ok(found)
}

/// What was found of a number, or if it is a change that was forgotten, what is found of it now.
fn with_change(
    alloc: Global,
    finder: &mut Finder<'_>,
    candidate: &Candidate,
    other: &Finding,
    least: Option<u128>,
) -> Result<Finding, AllocError>
    requires { IsNoChangeOr finder.old.misfit.case.now.network.now finder.old.misfit.limit least candidate.now other.now }
    ensures found { IfOk result (IsFinding finder.old.misfit.case.now.network.now finder.old.misfit.limit least candidate.now) }
    ensures misfit { finder.new.misfit ≡ finder.old.misfit }
{
    if candidate.whole().is_some() {
        return finder.look(alloc, candidate, least);
    }
    Ok(*other)
}

/// The numbers that pass up to the cutoff that leaves so much: those that leave as much are found in their order,
/// until as many pass as may be printed.
fn cut_off<P: Progress>(
    alloc: Global,
    finder: &mut Finder<'_>,
    found: &Found<'_>,
    left: u128,
    progress: &mut P,
) -> Result<Passed, AllocError>
    requires least { found.now.least ≡ Some left }
    requires found { AllZip (IsFinding finder.old.misfit.case.now.network.now finder.old.misfit.limit found.now.least) found.now.candidates.now found.now.findings.now }
    ensures found { IfOk result (λ passed.
        AllZip (IsPassedOrBehind finder.old.misfit.case.now.network.now finder.old.misfit.limit passed.cutoff) (enumerate_from 0 found.now.candidates.now) passed.freed.items) }
    ensures mild { IfOk result (λ passed.
        AllZip (IsMildIf finder.old.misfit.case.now.network.now finder.old.misfit.limit passed.cutoff) (enumerate_from 0 found.now.candidates.now) passed.mild.items) }
    ensures misfit { finder.new.misfit ≡ finder.old.misfit }
{
    let mut freed = passed_with_ties(alloc, finder, found, progress)?;
    let place = freed.len();
    let known = all_freed(alloc, found.findings)?;
    add_others(&mut freed, &known)?;
    let mild = all_mild(alloc, found.findings)?;
    Ok(Passed {
        cutoff: Some(Cutoff { left, place }),
        freed,
        mild,
    })
}

/// The first of some numbers, with those that leave no more than `least`: so many numbers that as many pass as may
/// be printed, with those behind them that leave less. Numbers that leave more are not looked at again.
fn passed_with_ties<P: Progress>(
    alloc: Global,
    finder: &mut Finder<'_>,
    found: &Found<'_>,
    progress: &mut P,
) -> Result<Vec<Option<Freed>>, AllocError>
    requires { AllZip (IsFinding finder.old.misfit.case.now.network.now finder.old.misfit.limit found.now.least) found.now.candidates.now found.now.findings.now }
    ensures first { IfOk result (λ first.
        AllZip (IsPassedOr finder.old.misfit.case.now.network.now finder.old.misfit.limit (IsMore found.now.least)) (take (length first.items) found.now.candidates.now) first.items) }
    ensures misfit { finder.new.misfit ≡ finder.old.misfit }
{
    let candidates = found.candidates;
    let findings = found.findings;
    let mut count = count_of_less(found);
    let mut first = Vec::new(alloc);
    for k in 0..candidates.len() {
        if count >= MOST_ROWS {
            return Ok(first);
        }
        progress.show(Work::Numbers, k, candidates.len());
        let own = passed_again(alloc, finder, &candidates[k], &findings[k], found.least)?;
        if is_tie(&own, found.least) {
            count += 1;
        }
        add_freed(&mut first, own)?;
    }
    Ok(first)
}

/// What is left if a number is freed, where it passes and leaves no more than `least`. It is looked at again only if
/// it may leave just so much.
fn passed_again(
    alloc: Global,
    finder: &mut Finder<'_>,
    candidate: &Candidate,
    known: &Finding,
    least: Option<u128>,
) -> Result<Option<Freed>, AllocError>
    requires { IsFinding finder.old.misfit.case.now.network.now finder.old.misfit.limit least candidate.now known.now }
    ensures found { IfOk result (IsPassedOr finder.old.misfit.case.now.network.now finder.old.misfit.limit (IsMore least) candidate.now) }
    ensures misfit { finder.new.misfit ≡ finder.old.misfit }
{
    match known {
        Finding::Exactly(freed) => Ok(Some(*freed)),
        Finding::Mild => Ok(None),
        Finding::More => Ok(None),
        Finding::AtLeast => finder.passed(alloc, candidate, next(least)),
    }
}

/// How many of some numbers leave less than `least`.
fn count_of_less(found: &Found<'_>) -> usize {
    let mut count = 0usize;
    for own in found.findings {
        if let (Finding::Exactly(freed), Some(least)) = (own, found.least)
            && freed.left < least
        {
            count = count.saturating_add(1);
        }
    }
    count
}

/// What is left if each of some numbers is freed, where that was found.
fn all_freed(alloc: Global, found: &[Finding]) -> Result<Vec<Option<Freed>>, AllocError>
    ensures { IfOk result (λ freed. freed.items ≡ map freed_of found.now) }
{
    let mut freed = Vec::with_capacity(alloc, found.len())?;
    for own in found {
        freed.push(freed_of(own))?;
    }
    Ok(freed)
}

/// What is left if a number is freed, where that was found.
fn freed_of(finding: &Finding) -> Option<Freed>
    ensures { result ≡ freed_of finding.now }
{
    match finding {
        Finding::Exactly(freed) => Some(*freed),
        Finding::Mild => None,
        Finding::More => None,
        Finding::AtLeast => None,
    }
}

/// Of which of some numbers it was found that none passes beyond half of the limit either.
fn all_mild(alloc: Global, found: &[Finding]) -> Result<Vec<bool>, AllocError>
    ensures { IfOk result (λ mild. mild.items ≡ map is_mild found.now) }
{
    let mut mild = Vec::with_capacity(alloc, found.len())?;
    for own in found {
        mild.push(is_mild(own))?;
    }
    Ok(mild)
}

/// Whether that was found of a number.
fn is_mild(finding: &Finding) -> bool
    ensures { result ≡ is_mild finding.now }
{
    matches!(finding, Finding::Mild)
}

/// Whether a number leaves as much as this.
fn is_tie(own: &Option<Freed>, least: Option<u128>) -> bool {
    match own {
        Some(freed) => Some(freed.left) == least,
        None => false,
    }
}

/// Adds what was found of the numbers behind the first ones.
fn add_others(first: &mut Vec<Option<Freed>>, found: &[Option<Freed>]) -> Result<(), AllocError>
    ensures { OnOk result (first.new.items ≡ first.old.items ++ drop (length first.old.items) found.now) }
{
    let place = first.len();
    if place >= found.len() {
        return Ok(());
    }
    first.extend_from_slice(&found[place..])
}

/// Adds what is left if one more number is freed.
pub(crate) fn add_freed(
    freed: &mut Vec<Option<Freed>>,
    own: Option<Freed>,
) -> Result<(), AllocError>
    ensures { OnOk result (freed.new.items ≡ freed.old.items ++ own ∷ []) }
{
    Ok(freed.push(own)?)
}
