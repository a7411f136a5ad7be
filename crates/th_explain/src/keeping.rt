//! The circulations that a sieve keeps.
ghost use Rattle.std.specs.Prelude.{◌≡◌, All, IfOk, IfSome};

use crate::sieve::Sieve;
use std::alloc::{AllocError, Global};
use th_changes::{Case, KeptFlows, Run};
use th_freeing::Seed;

/// So many circulations are kept at most.
pub(crate) const MOST_KEPT: usize = 48;

/// So many of those that went other ways are kept beside them.
pub(crate) const MOST_TURNED: usize = 12;

/// Of a single sight they are kept only where they went along more arcs than this. Shorter ways are found again in less
/// time than it takes to copy the flows of a network.
const SHORT: usize = 64;

impl<'a> Sieve<'a> {
    /// Keeps the best flows where they go round the walks that were proposed last for a number in this run, unless it
    /// takes less time to find such walks again.
    pub(crate) fn keep_turned(&mut self, run: Run)
        ensures { self.new.case.now ≡ self.old.case.now }
    {
        if is_single(run) && !self.best.are_longer(SHORT) {
            return;
        }
        if let Some(mut own) = self.oldest_turned() {
            self.best.give_turned(&mut own);
            let _ = self.add_turned(own);
        }
    }

    /// The same, of the near circulation.
    pub(crate) fn keep_turned_near(&mut self, run: Run)
        ensures { self.new.case.now ≡ self.old.case.now }
    {
        if is_single(run) && !self.near.are_longer(SHORT) {
            return;
        }
        if let Some(mut own) = self.oldest_turned() {
            self.near.give_turned(&mut own);
            let _ = self.add_turned(own);
        }
    }

    /// Those circulations that went other ways that were kept longest, which are kept no more.
    fn oldest_turned(&mut self) -> Option<KeptFlows<'a>>
        ensures case { self.new.case.now ≡ self.old.case.now }
        ensures same { IfSome result (λ own. own.case.now ≡ self.old.case.now) }
    {
        self.lines_of = None;
        if self.turned.is_empty() {
            return None;
        }
        Some(self.turned.remove(0))
    }

    /// Keeps a circulation that went other ways, where there is room.
    fn add_turned(&mut self, own: KeptFlows<'a>) -> Option<()>
        requires { own.case.now ≡ self.old.case.now }
        ensures { self.new.case.now ≡ self.old.case.now }
    {
        self.turned.push(own).ok()
    }

    /// Keeps flows, in place of those that were kept longest if there is no room, and where the simplex goes on from
    /// them.
    pub(crate) fn keep(&mut self, own: KeptFlows<'a>, seed: Seed) -> Result<(), AllocError>
        requires { own.case.now ≡ self.old.case.now }
        ensures { self.new.case.now ≡ self.old.case.now }
    {
        self.lines_of = None;
        self.make_room();
        self.seeds.push(seed)?;
        Ok(self.kept.push(own)?)
    }

    /// Drops the flows that were kept longest, if there is no room for others.
    fn make_room(&mut self)
        ensures { self.new.case.now ≡ self.old.case.now }
    {
        if self.kept.len() < MOST_KEPT {
            return;
        }
        self.near_place = match self.near_place {
            Some(place) if place > 0 => Some(place - 1),
            _ => None,
        };
        if !self.kept.is_empty() && !self.seeds.is_empty() {
            self.kept.remove(0);
            self.seeds.remove(0);
        }
    }
}

/// Whether a run is of one sight.
fn is_single(run: Run) -> bool {
    run.end.saturating_sub(run.start) == 1
}

/// So many copies of the best flows as circulations that went other ways are kept.
pub(crate) fn copies_of<'a>(
    alloc: Global,
    case: &'a Case<'a>,
) -> Result<Vec<KeptFlows<'a>>, AllocError>
    ensures { IfOk result (λ copies. All (λ own. own.case.now ≡ case.now) copies.items) }
{
    let mut copies = Vec::with_capacity(alloc, MOST_TURNED)?;
    for _ in 0..MOST_TURNED {
        let own = KeptFlows::best(alloc, case)?;
        copies.push(own)?;
    }
    Ok(copies)
}
