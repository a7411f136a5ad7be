//! Which numbers pass: those that explain what does not fit, and leave no more than their whole entry.
ghost use Rattle.std.specs.Prelude.{◌≡◌, ◌⊎◌, ℕ, All, IfOk, IfSome, None, Some, true};
ghost use Rattle.th_explain.specs.Explained.{IsAtLeast};
ghost use Rattle.th_numbers.specs.Candidates.{whole_of};
ghost use Rattle.th_explain_rows.specs.Inside.Passing.{IsAtMostOrNone, IsFinding, IsMore, IsMostOf, IsPassedOr};
ghost use Rattle.th_explain_rows.specs.Rows.{LeavesNoMore, half_of, limit_size};

use std::alloc::{AllocError, Global};
use th_explain::laws::freed_is_one;
use th_explain::{Case, Freed, Mending, Number, explanation_or_more, least_left, shown};
use th_numbers::Candidate;

/// What does not fit: a network with its best heights, and the limit of blunders in units of 10 nm.
#[derive(Clone, Copy)]
pub(crate) struct Misfit<'a> {
    pub case: &'a Case<'a>,
    pub limit: i64,
}

/// What is left at least if a whole entry changes within reach, in units of 10 nm times weight.
#[derive(Clone, Copy)]
struct Whole {
    number: Number,
    left: u128,
}

/// What is found of a number that is compared with an amount, in units of 10 nm times weight.
#[derive(Clone, Copy)]
pub(crate) enum Finding {
    /// It passes, and this is then left.
    Exactly(Freed),
    /// Beyond half of the limit, too, it does not pass, or leaves more than the amount.
    Mild,
    /// It does not pass, or leaves more than the amount.
    More,
    /// It does not pass, or leaves at least the amount.
    AtLeast,
}

/// Finds the numbers that pass, one after another.
#[derive(Drop)]
pub(crate) struct Finder<'a> {
    pub misfit: Misfit<'a>,
    pub mending: Mending<'a>,
    /// The whole entries of the changes that were looked at.
    wholes: Vec<Whole>,
    ghost same: { mending.case.now ≡ misfit.case.now },
    ghost most: { All (λ own. IsMostOf misfit.case.now.network.now own.number own.left) wholes.items },
}

impl<'a> Finder<'a> {
    /// For a network. The limit of blunders is in units of 10 nm.
    pub fn of(alloc: Global, mending: Mending<'a>, limit: i64) -> Finder<'a>
        ensures case { result.misfit.case.now ≡ mending.entry.case.now }
        ensures limit { result.misfit.limit ≡ limit }
    {
        let case = mending.case;
        Finder {
            misfit: Misfit { case, limit },
            mending,
            wholes: Vec::new(alloc),
        }
    }

    /// The network, with the heights after changes that were looked at.
    pub fn into_mending(self) -> Mending<'a>
        ensures { result.case.now ≡ self.entry.misfit.case.now }
    {
        self.mending
    }

    /// From now on numbers pass that are beyond this limit, in units of 10 nm.
    pub fn look_beyond(&mut self, limit: i64)
        ensures { self.new.misfit ≡ record self.old.misfit { limit = limit } }
    {
        self.misfit.limit = limit;
    }

    /// What is found of a number, compared with `least`, if it is given. A number is solved only if the sieve does
    /// not even show that it leaves at least so much.
    pub fn look(
        &mut self,
        alloc: Global,
        candidate: &Candidate,
        least: Option<u128>,
    ) -> Result<Finding, AllocError>
        ensures found { IfOk result (IsFinding self.old.misfit.case.now.network.now self.old.misfit.limit least candidate.now) }
        ensures misfit { self.new.misfit ≡ self.old.misfit }
    {
        let limit = self.misfit.limit;
        let more = next(least);
        if self.is_shown(candidate, half_of(limit), more) {
            return Ok(Finding::Mild);
        }
        self.look_at_limit(alloc, candidate, least)
    }

    /// The same, beyond the limit alone.
    fn look_at_limit(
        &mut self,
        alloc: Global,
        candidate: &Candidate,
        least: Option<u128>,
    ) -> Result<Finding, AllocError>
        ensures found { IfOk result (IsFinding self.old.misfit.case.now.network.now self.old.misfit.limit least candidate.now) }
        ensures misfit { self.new.misfit ≡ self.old.misfit }
    {
        let limit = self.misfit.limit;
        let more = next(least);
        if self.is_shown(candidate, limit, more) {
            return Ok(Finding::More);
        }
        if self.is_shown(candidate, limit, least) {
            return Ok(Finding::AtLeast);
        }
        match self.solved(alloc, candidate, more)? {
            Some(freed) => Ok(Finding::Exactly(freed)),
            None => Ok(Finding::More),
        }
    }

    /// What is left if a number is freed, where it passes. One that leaves at least `least`, in units of 10 nm
    /// times weight, may be missing, if it is given.
    pub fn passed(
        &mut self,
        alloc: Global,
        candidate: &Candidate,
        least: Option<u128>,
    ) -> Result<Option<Freed>, AllocError>
        ensures found { IfOk result (IsPassedOr self.old.misfit.case.now.network.now self.old.misfit.limit (IsAtLeast least) candidate.now) }
        ensures misfit { self.new.misfit ≡ self.old.misfit }
    {
        if self.is_shown(candidate, self.misfit.limit, least) {
            return Ok(None);
        }
        self.solved(alloc, candidate, least)
    }

    /// Whether the sieve shows, without solving a network, that a number does not pass beyond a limit, or leaves at
    /// least `least`, if it is given. If not, it may be so all the same.
    fn is_shown(&mut self, candidate: &Candidate, limit: i64, least: Option<u128>) -> bool
        ensures shown { result ≡ true → IsPassedOr self.old.misfit.case.now.network.now limit (IsAtLeast least) candidate.now None }
        ensures misfit { self.new.misfit ≡ self.old.misfit }
    {
        let size = limit_size(limit);
        let nearer = self.nearer(candidate, least);
        let mending = &mut self.mending;
        shown(&mut mending.sieve, &candidate.number(), size, nearer)
    }

    /// `least`, or the least amount that is too much for a change to pass, where it is known what its whole entry
    /// leaves.
    fn nearer(&self, candidate: &Candidate, least: Option<u128>) -> Option<u128>
        ensures { (left : ℕ) → IsAtLeast result left → IsAtLeast least left
            ⊎ ¬ LeavesNoMore self.now.misfit.case.now.network.now (whole_of candidate.now) left }
    {
        let Some(whole) = candidate.whole() else {
            return least;
        };
        match self.known(&whole) {
            Some(most) => lesser(least, next(Some(most))),
            None => least,
        }
    }

    /// What `passed` finds of a number of which it is not shown.
    fn solved(
        &mut self,
        alloc: Global,
        candidate: &Candidate,
        least: Option<u128>,
    ) -> Result<Option<Freed>, AllocError>
        ensures found { IfOk result (IsPassedOr self.old.misfit.case.now.network.now self.old.misfit.limit (IsAtLeast least) candidate.now) }
        ensures misfit { self.new.misfit ≡ self.old.misfit }
    {
        match candidate.whole() {
            Some(whole) => self.solved_change(alloc, candidate, &whole, least),
            None => self.solved_number(alloc, candidate, least),
        }
    }

    /// The same, for a number that is no part of an entry.
    fn solved_number(
        &mut self,
        alloc: Global,
        candidate: &Candidate,
        least: Option<u128>,
    ) -> Result<Option<Freed>, AllocError>
        requires { whole_of candidate.now ≡ None }
        ensures found { IfOk result (IsPassedOr self.old.misfit.case.now.network.now self.old.misfit.limit (IsAtLeast least) candidate.now) }
        ensures misfit { self.new.misfit ≡ self.old.misfit }
    {
        let size = limit_size(self.misfit.limit);
        let mending = &mut self.mending;
        explanation_or_more(alloc, &mut mending.sieve, &candidate.number(), size, least)
    }

    /// The same, for a change of an entry: it passes if it leaves no more than any change within reach of the
    /// whole entry.
    fn solved_change(
        &mut self,
        alloc: Global,
        candidate: &Candidate,
        whole: &Number,
        least: Option<u128>,
    ) -> Result<Option<Freed>, AllocError>
        requires { whole_of candidate.now ≡ Some whole.now }
        ensures found { IfOk result (IsPassedOr self.old.misfit.case.now.network.now self.old.misfit.limit (IsAtLeast least) candidate.now) }
        ensures misfit { self.new.misfit ≡ self.old.misfit }
    {
        freed_is_one();
        let number = candidate.number();
        let size = limit_size(self.misfit.limit);
        let most = self.least_of(alloc, whole)?;
        let nearer = lesser(least, next(Some(most)));
        let mending = &mut self.mending;
        let found = explanation_or_more(alloc, &mut mending.sieve, &number, size, nearer)?;
        Ok(at_most(&found, most))
    }

    /// What is left at least if a whole entry changes within reach. It is found once for each entry.
    fn least_of(&mut self, alloc: Global, whole: &Number) -> Result<u128, AllocError>
        ensures most { IfOk result (IsMostOf self.old.misfit.case.now.network.now whole.now) }
        ensures misfit { self.new.misfit ≡ self.old.misfit }
    {
        if let Some(left) = self.known(whole) {
            return Ok(left);
        }
        let mending = &mut self.mending;
        let left = least_left(alloc, &mut mending.sieve, whole)?;
        self.wholes.push(Whole {
            number: *whole,
            left,
        })?;
        Ok(left)
    }

    /// The same, if it was found before. Changes of an entry come soon after each other.
    fn known(&self, whole: &Number) -> Option<u128>
        ensures { IfSome result (IsMostOf self.now.misfit.case.now.network.now whole.now) }
    {
        let count = self.wholes.len();
        for k in 0..count {
            let own = self.wholes[count - 1 - k];
            if own.number == *whole {
                return Some(own.left);
            }
        }
        None
    }
}

/// The lesser of two, if there are two.
fn lesser(least: Option<u128>, other: Option<u128>) -> Option<u128>
    ensures { (left : ℕ) → IsAtLeast result left → IsAtLeast least left ⊎ IsAtLeast other left }
{
    match (least, other) {
        (Some(least), Some(other)) => Some(least.min(other)),
        (Some(least), None) => Some(least),
        (None, other) => other,
    }
}

/// More than this, if it is given and there is more.
pub(crate) fn next(most: Option<u128>) -> Option<u128>
    ensures { (left : ℕ) → IsAtLeast result left → IsMore most left }
{
    match most {
        Some(most) => most.checked_add(1),
        None => None,
    }
}

/// What was found of a number, if it leaves no more than this.
pub(crate) fn at_most(found: &Option<Freed>, most: u128) -> Option<Freed>
    ensures { IsAtMostOrNone most found.now result }
{
    match found {
        Some(freed) if freed.left <= most => Some(*freed),
        _ => None,
    }
}

/// Half of a limit, rounded down; 0 where it is below.
pub(crate) fn half_of(limit: i64) -> i64
    ensures { result ≡ half_of limit }
{
    if limit < 0 { 0 } else { limit / 2 }
}

/// A limit as a size: 0 where it is below.
fn limit_size(limit: i64) -> u64
    ensures { result ≡ limit_size limit }
{
    if limit < 0 { 0 } else { limit.unsigned_abs() }
}
