//! Heights after a number was changed, and the blunders that are left then.
ghost use Rattle.std.specs.Prelude.{◌≡◌, ◌≤◌, All, IfOk, IfSome, unsigned_abs};
ghost use Rattle.th_circulation.specs.Best.{IsBest};
ghost use Rattle.th_explain.specs.Mended.{AreLowestWith, LeavesBlunders};
ghost use Rattle.th_changes.specs.Reach.{reach_of};
ghost use Rattle.th_changes.specs.Tilted.{tilted};

use crate::sieve::Sieve;
use std::alloc::{AllocError, Global};
use th_blunders::{Fit, blunder_count};
use th_changes::{Case, Number, tilted};
use th_circulation::{BestHeights, best_heights, best_heights_from};
use th_network::Network;

/// After so many changes heights are kept at most.
const MOST_MENDED: usize = 64;

/// The lowest best heights after a number was changed, in point order. Lengths are in units of 10 nm.
#[derive(Drop)]
struct Mended {
    number: Number,
    change: i64,
    heights: Vec<i64>,
}

/// A network with its best heights, what shows something of its numbers, and the heights after the changes that were
/// looked at first: it is not adjusted twice with one of them.
#[derive(Drop)]
pub struct Mending<'a> {
    pub case: &'a Case<'a>,
    pub sieve: Sieve<'a>,
    kept: Vec<Mended>,
    ghost same: { sieve.case.now ≡ case.now },
    ghost lowest: { All (λ own. AreLowestWith case.now.network.now own.number own.change own.heights.items) kept.items },
}

impl<'a> Mending<'a> {
    /// No change was looked at.
    pub fn of(alloc: Global, case: &'a Case<'a>) -> Result<Mending<'a>, AllocError>
        ensures { IfOk result (λ own. own.case.now ≡ case.now) }
    {
        Ok(Mending {
            case,
            sieve: Sieve::of(alloc, case)?,
            kept: Vec::new(alloc),
        })
    }

    /// The lowest best heights after a number was changed, in point order and in units of 10 nm, given the
    /// network in which that change was moved to the differences.
    pub fn lowest(
        &mut self,
        alloc: Global,
        own: &Network,
        number: &Number,
        change: i64,
    ) -> Result<Vec<i64>, AllocError>
        requires { own.now ≡ tilted number.now change self.old.case.now.network.now }
        ensures lowest { IfOk result (λ heights. AreLowestWith self.old.case.now.network.now number.now change heights.items) }
        ensures case { self.new.case.now ≡ self.old.case.now }
    {
        if let Some(heights) = self.known(alloc, number, change)? {
            return Ok(heights);
        }
        let best = self.best_with(alloc, own, number, change)?;
        let heights = Vec::from_slice(alloc, best.low())?;
        self.keep(alloc, number, change, &heights)?;
        Ok(heights)
    }

    /// The best heights of that network. Where the simplex frees the number with this change as the mildest, what it
    /// finds may be such heights, which takes a part of the time of an adjustment.
    fn best_with(
        &mut self,
        alloc: Global,
        own: &Network,
        number: &Number,
        change: i64,
    ) -> Result<BestHeights, AllocError>
        ensures best { IfOk result (IsBest own.now) }
        ensures case { self.new.case.now ≡ self.old.case.now }
    {
        if self.sieve.frees_with(number, change) {
            best_heights_from(alloc, own, self.sieve.shown_by_simplex())
        } else {
            best_heights(alloc, own)
        }
    }

    /// The lowest best heights after that change, if they are kept.
    fn known(
        &self,
        alloc: Global,
        number: &Number,
        change: i64,
    ) -> Result<Option<Vec<i64>>, AllocError>
        ensures { IfOk result (λ found. IfSome found (λ heights. AreLowestWith self.now.case.now.network.now number.now change heights.items)) }
    {
        for own in self.kept.iter() {
            if own.number == *number && own.change == change {
                return Ok(Some(Vec::from_slice(alloc, &own.heights)?));
            }
        }
        Ok(None)
    }

    /// Keeps the heights after one more change, if they are not too many.
    fn keep(
        &mut self,
        alloc: Global,
        number: &Number,
        change: i64,
        heights: &[i64],
    ) -> Result<(), AllocError>
        requires { AreLowestWith self.old.case.now.network.now number.now change heights.now }
        ensures { self.new.case.now ≡ self.old.case.now }
    {
        if self.kept.len() < MOST_MENDED {
            let heights = Vec::from_slice(alloc, heights)?;
            self.kept.push(Mended {
                number: *number,
                change,
                heights,
            })?;
        }
        Ok(())
    }
}

/// How many observations are blunders after a number was changed: those that an adjustment then marks.
/// The change and the limit are in units of 10 nm.
pub fn blunders_left(
    alloc: Global,
    mending: &mut Mending<'_>,
    number: &Number,
    change: i64,
    limit: i64,
) -> Result<u32, AllocError>
    requires { unsigned_abs change ≤ reach_of number.now mending.old.case.now.network.now.observations }
    ensures left { IfOk result (LeavesBlunders mending.old.case.now.network.now number.now change limit) }
    ensures case { mending.new.case.now ≡ mending.old.case.now }
{
    let own = tilted(alloc, mending.case.network, number, change)?;
    let heights = mending.lowest(alloc, &own, number, change)?;
    let fit = Fit::of(alloc, &own, &heights)?;
    Ok(blunder_count(own.observations(), &fit.residuals, limit))
}
