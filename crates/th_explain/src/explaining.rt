//! Whether a number explains what does not fit.
ghost use Rattle.std.specs.Prelude.{◌≡◌, ◌<◌, ◌<ℤ◌, pos, IfOk, None, true};
ghost use Rattle.th_explain.specs.Explained.{IsExact, IsExplainedOrMore, IsExplainedOrNone};
ghost use Rattle.th_explain.specs.Inside.Brackets.{AreRound, IsRoundOrNone, is_explanation};
ghost use Rattle.th_changes.specs.Reach.{reach_of};
ghost use Rattle.th_changes.specs.Slopes.{IsSloped};

use crate::freed::{Freed, freed_between, mildest};
use crate::sieve::Sieve;
use crate::solving::{Asked, Solved};
use std::alloc::{AllocError, Global};
use th_changes::{Case, Number, Sloped, reach_of, slope_as_given, slope_at};
use th_network::Network;

/// A number of which is asked whether it explains what does not fit.
#[derive(Clone, Copy)]
struct Question<'a> {
    network: &'a Network<'a>,
    number: Number,
    /// Changes within this limit explain nothing, in units of 10 nm.
    limit: u64,
    /// No change may be so large.
    reach: u64,
    ghost is_reach: { reach ≡ reach_of number network.now.observations },
}

/// What is left if a number is freed, where the number explains what does not fit: even the mildest
/// change that is proposed is above the limit, and all of them are within reach of what a book can say.
/// The limit is in units of 10 nm.
pub fn explanation(
    alloc: Global,
    case: &Case<'_>,
    number: &Number,
    limit: u64,
) -> Result<Option<Freed>, AllocError>
    ensures { IfOk result (IsExplainedOrNone case.now.network.now limit number.now) }
{
    let question = Question::of(case.network, number, limit);
    let given = slope_as_given(case, number);
    if limit >= question.reach {
        return Ok(None);
    }
    if given.slope == 0 {
        return Ok(None);
    }
    let round = if given.slope < 0 {
        question.above(alloc, &given)?
    } else {
        question.below(alloc, &given)?
    };
    question.answer_in(alloc, round)
}

/// What is left if a number is freed, where it explains what does not fit. A number that leaves at least
/// `least`, in units of 10 nm times weight, may be missing, if it is given. The limit is in units of 10 nm.
///
/// Of nearly all numbers that explain nothing, or too little, circulations that were kept, or short ways by
/// which what flows through them can be sent back, show it. Each other number is freed by a simplex. Only if what
/// it proposes does not hold, the number is solved, which takes some 10 adjustments.
pub fn explanation_or_more(
    alloc: Global,
    sieve: &mut Sieve<'_>,
    number: &Number,
    limit: u64,
    least: Option<u128>,
) -> Result<Option<Freed>, AllocError>
    ensures found { IfOk result (IsExplainedOrMore sieve.old.case.now.network.now limit least number.now) }
    ensures case { sieve.new.case.now ≡ sieve.old.case.now }
{
    if shown(sieve, number, limit, least) {
        return Ok(None);
    }
    let asked = Asked {
        number: *number,
        limit,
        least,
    };
    match sieve.solved(alloc, asked)? {
        Solved::Nothing => Ok(None),
        Solved::Exactly(freed) => Ok(Question::of(sieve.case.network, number, limit).answer(freed)),
        Solved::Unknown => explanation(alloc, sieve.case, number, limit),
    }
}

/// Whether the sieve shows, without solving a network, that a number does not explain what does not fit, or
/// leaves at least `least`, if it is given. If not, it may be so all the same.
pub fn shown(sieve: &mut Sieve<'_>, number: &Number, limit: u64, least: Option<u128>) -> bool
    ensures shown { result ≡ true → IsExplainedOrMore sieve.old.case.now.network.now limit least number.now None }
    ensures case { sieve.new.case.now ≡ sieve.old.case.now }
{
    if shown_by_kept(sieve, number, limit, least) {
        return true;
    }
    shown_by_ways(sieve, number, limit, least)
}

/// The same, by circulations that are kept.
fn shown_by_kept(sieve: &mut Sieve<'_>, number: &Number, limit: u64, least: Option<u128>) -> bool
    ensures shown { result ≡ true → IsExplainedOrMore sieve.old.case.now.network.now limit least number.now None }
    ensures case { sieve.new.case.now ≡ sieve.old.case.now }
{
    if sieve.is_kept_costly_beyond(number, limit) {
        return true;
    }
    match least {
        Some(least) => sieve.is_kept_at_least(number, least),
        None => false,
    }
}

/// The same, by other ways for what flows through the number.
fn shown_by_ways(sieve: &mut Sieve<'_>, number: &Number, limit: u64, least: Option<u128>) -> bool
    ensures shown { result ≡ true → IsExplainedOrMore sieve.old.case.now.network.now limit least number.now None }
    ensures case { sieve.new.case.now ≡ sieve.old.case.now }
{
    if sieve.is_costly_beyond(number, limit) {
        return true;
    }
    match least {
        Some(least) => sieve.leaves_at_least(number, limit, least),
        None => false,
    }
}

impl<'a> Question<'a> {
    /// Whether a number of a network explains what does not fit, with even its mildest change above a limit.
    fn of(network: &'a Network<'a>, number: &Number, limit: u64) -> Question<'a>
        ensures network { result.network.now ≡ network.now }
        ensures number { result.number ≡ number.now }
        ensures limit { result.limit ≡ limit }
    {
        Question {
            network,
            number: *number,
            limit,
            reach: reach_of(number, network),
        }
    }

    /// What is left between two changes, if there are two, where the number explains what does not fit.
    fn answer_in(
        &self,
        alloc: Global,
        round: Option<(Sloped, Sloped)>,
    ) -> Result<Option<Freed>, AllocError>
        requires { IsRoundOrNone self.now.network.now self.now.limit self.now.number round }
        ensures { IfOk result (IsExplainedOrNone self.now.network.now self.now.limit self.now.number) }
    {
        match round {
            Some((left, right)) => self.answer_between(alloc, left, right),
            None => Ok(None),
        }
    }

    /// What is left between two changes, where the number explains what does not fit.
    fn answer_between(
        &self,
        alloc: Global,
        left: Sloped,
        right: Sloped,
    ) -> Result<Option<Freed>, AllocError>
        requires { AreRound self.now.network.now self.now.number left right }
        ensures { IfOk result (IsExplainedOrNone self.now.network.now self.now.limit self.now.number) }
    {
        let freed = freed_between(alloc, self.network, &self.number, left, right)?;
        Ok(self.answer(freed))
    }

    /// What is left if the number is freed, where the number explains what does not fit.
    fn answer(&self, freed: Freed) -> Option<Freed>
        requires { IsExact self.now.network.now self.now.number freed }
        ensures { IsExplainedOrNone self.now.network.now self.now.limit self.now.number result }
    {
        if is_explanation(self.limit, self.reach, &freed) {
            Some(freed)
        } else {
            None
        }
    }

    /// Changes above the limit round those that are proposed, where the cost falls as the number grows.
    /// There are none if a change within the limit is proposed, or one out of reach.
    fn above(&self, alloc: Global, given: &Sloped) -> Result<Option<(Sloped, Sloped)>, AllocError>
        requires at { given.now.change ≡ pos 0 }
        requires given { IsSloped self.now.network.now self.now.number given.now }
        requires falls { given.now.slope <ℤ pos 0 }
        requires limit { self.now.limit < self.now.reach }
        ensures { IfOk result (IsRoundOrNone self.now.network.now self.now.limit self.now.number) }
    {
        let left = slope_at(alloc, self.network, &self.number, self.limit as i64)?;
        if left.slope >= 0 {
            return Ok(None);
        }
        let right = slope_at(alloc, self.network, &self.number, self.reach as i64)?;
        if right.slope <= 0 {
            return Ok(None);
        }
        Ok(Some((left, right)))
    }

    /// Changes below the limit round those that are proposed, where the cost rises as the number grows.
    /// There are none if a change within the limit is proposed, or one out of reach.
    fn below(&self, alloc: Global, given: &Sloped) -> Result<Option<(Sloped, Sloped)>, AllocError>
        requires at { given.now.change ≡ pos 0 }
        requires given { IsSloped self.now.network.now self.now.number given.now }
        requires rises { pos 0 <ℤ given.now.slope }
        requires limit { self.now.limit < self.now.reach }
        ensures { IfOk result (IsRoundOrNone self.now.network.now self.now.limit self.now.number) }
    {
        let right = slope_at(alloc, self.network, &self.number, -(self.limit as i64))?;
        if right.slope <= 0 {
            return Ok(None);
        }
        let left = slope_at(alloc, self.network, &self.number, -(self.reach as i64))?;
        if left.slope >= 0 {
            return Ok(None);
        }
        Ok(Some((left, right)))
    }
}

/// Whether all changes from the least to the greatest are above a limit, and within reach.
fn is_explanation(limit: u64, reach: u64, freed: &Freed) -> bool
    ensures { result ≡ is_explanation limit reach freed.now }
{
    limit < mildest(freed.low, freed.high)
        && freed.low.unsigned_abs() < reach
        && freed.high.unsigned_abs() < reach
}
