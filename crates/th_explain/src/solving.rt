//! What the simplex shows of a number.
ghost use Rattle.std.specs.Prelude.{◌≡◌, ◌<ℤ◌, pos, IfOk, IfSome, None, true};
ghost use Rattle.th_changes.specs.Lines.{IsLine};
ghost use Rattle.th_changes.specs.Slopes.{IsSloped};
ghost use Rattle.th_explain.specs.Explained.{IsExact, IsExplainedOrMore, IsNone};
ghost use Rattle.th_explain.specs.Inside.Solved.{IsExactOrUnknown, IsSolved};

use crate::freed::Freed;
use crate::groups::{Ends, end_at, ends_of};
use crate::pairs::nearly_level_line;
use crate::sieve::Sieve;
use crate::turns::{Level, Turn, change_of, freed_by_turn};
use std::alloc::{AllocError, Global};
use th_changes::{KeptFlows, Line, Number, Sloped, run_of, slope_as_given, sloped};
use th_circulation::Start;
use th_freeing::{Found, Seed, Start as Origin, Task};
use th_network::Network;

/// What is shown of a number.
#[derive(Clone, Copy)]
pub(crate) enum Solved {
    /// The number does not explain what does not fit, or at least what was asked for is left.
    Nothing,
    /// What is left if the number is freed.
    Exactly(Freed),
    /// It is not known.
    Unknown,
}

/// Of which number what is asked.
#[derive(Clone, Copy)]
pub(crate) struct Asked {
    pub number: Number,
    /// Changes within this limit explain nothing.
    pub limit: u64,
    /// Numbers that leave as much need not be solved, if it is given.
    pub least: Option<u128>,
}

impl<'a> Sieve<'a> {
    /// What the simplex shows of a number.
    pub(crate) fn solved(&mut self, alloc: Global, asked: Asked) -> Result<Solved, AllocError>
        ensures solved { IfOk result (IsSolved self.old.case.now.network.now asked.limit asked.least asked.number) }
        ensures case { self.new.case.now ≡ self.old.case.now }
    {
        let task = Task {
            limit: Some(asked.limit),
            least: 0,
            worth: worth_of(self.case.cost, asked.least),
        };
        match self.ask(&asked.number, &task) {
            Some(Found::Freed { near, far }) => self.freed_from(alloc, &asked.number, near, far),
            Some(found) => self.judged(alloc, asked, found),
            None => Ok(Solved::Unknown),
        }
    }

    /// What is left if a number is freed, if the simplex finds it.
    pub(crate) fn freed_by_simplex(
        &mut self,
        alloc: Global,
        number: &Number,
    ) -> Result<Option<Freed>, AllocError>
        ensures exact { IfOk result (λ freed. IfSome freed (IsExact self.old.case.now.network.now number.now)) }
        ensures case { self.new.case.now ≡ self.old.case.now }
    {
        let task = Task {
            limit: None,
            least: 0,
            worth: None,
        };
        match self.ask(number, &task) {
            Some(Found::Freed { near, far }) => self.freed_between(alloc, number, near, far),
            _ => Ok(None),
        }
    }

    /// Whether the simplex frees a number, with this as the mildest change that it proposes.
    pub(crate) fn frees_with(&mut self, number: &Number, change: i64) -> bool
        ensures { self.new.case.now ≡ self.old.case.now }
    {
        let net = self.line(number).net;
        let task = Task {
            limit: None,
            least: 0,
            worth: None,
        };
        match self.ask(number, &task) {
            Some(Found::Freed { near, .. }) => change_of(net, near) == Some(change),
            _ => false,
        }
    }

    /// The flows without net and the heights of the vertices that the simplex found when it freed a number last.
    pub(crate) fn shown_by_simplex(&self) -> Start<'_> {
        Start {
            flows: self.simplex.flows(),
            heights: self.simplex.near_heights(),
        }
    }

    /// Has the simplex free a number, from the best flows or from some that are kept.
    fn ask(&mut self, number: &Number, task: &Task) -> Option<Found>
        ensures { self.new.case.now ≡ self.old.case.now }
    {
        let net = self.line(number).net;
        let run = run_of(number, &self.runs);
        let Ends { group, base, .. } = ends_of(self.case.network, number, run, net)?;
        if let Number::Benchmark(name) = number {
            for (place, o) in self.case.network.observations().iter().enumerate() {
                self.simplex.mark(place, end_at(o, name));
            }
        }
        match self.nearly_level(number) {
            Some(place) => {
                self.draw_near(place);
                let start = Origin {
                    flows: self.near.rerouted.flows(),
                    seed: self.seeds.get(place)?,
                };
                self.simplex.free_from(group, base, task, start)
            }
            None => self.simplex.free(group, base, task),
        }
    }

    /// The place of the kept flows that are nearly level, if there are any: those by which least flows through a number.
    fn nearly_level(&mut self, number: &Number) -> Option<usize>
        ensures { self.new.case.now ≡ self.old.case.now }
    {
        let given = self.line(number);
        self.list_lines(number)?;
        nearly_level_line(self.lines.get(..self.kept.len())?, &given)
    }

    /// Keeps flows of which nothing flows through a number, unless others that are kept are as good for it.
    fn keep_flat(
        &mut self,
        own: KeptFlows<'a>,
        number: &Number,
        seed: Seed,
    ) -> Result<(), AllocError>
        requires { own.case.now ≡ self.old.case.now }
        ensures { self.new.case.now ≡ self.old.case.now }
    {
        if let Some(place) = self.nearly_level(number)
            && let Some(other) = self.lines.get(place)
            && other.net == 0
            && other.lost <= own.lost()
        {
            return Ok(());
        }
        self.keep(own, seed)
    }

    /// A line of flows of the same case.
    fn line_of(&self, kept: &KeptFlows<'_>, number: &Number) -> Line
        requires { kept.now.case.now ≡ self.now.case.now }
        ensures { IsLine self.now.case.now.network.now number.now self.now.case.now.cost result }
    {
        kept.line(number, run_of(number, &self.runs))
    }

    /// What flows of the simplex show of a number. They are kept.
    fn judged(&mut self, alloc: Global, asked: Asked, found: Found) -> Result<Solved, AllocError>
        ensures solved { IfOk result (IsSolved self.old.case.now.network.now asked.limit asked.least asked.number) }
        ensures case { self.new.case.now ≡ self.old.case.now }
    {
        let size = asked.limit;
        let seed = self.simplex.seed(alloc, size)?;
        let kept = KeptFlows::of(alloc, self.case, self.simplex.flows())?;
        match kept {
            Some(kept) => {
                let shown = self.shown(&kept, asked, found);
                self.keep(kept, seed)?;
                Ok(shown)
            }
            None => Ok(Solved::Unknown),
        }
    }

    /// What flows of the simplex show of a number.
    fn shown(&self, kept: &KeptFlows<'_>, asked: Asked, found: Found) -> Solved
        requires { kept.now.case.now ≡ self.now.case.now }
        ensures { IsSolved self.now.case.now.network.now asked.limit asked.least asked.number result }
    {
        match found {
            Found::Mild if self.is_mild(kept, asked) => Solved::Nothing,
            Found::Within if self.is_within(kept, asked) => Solved::Nothing,
            Found::Costly if self.is_more(kept, asked) => Solved::Nothing,
            _ => Solved::Unknown,
        }
    }

    /// Whether flows show that no change beyond the limit makes the network cost less.
    fn is_mild(&self, kept: &KeptFlows<'_>, asked: Asked) -> bool
        requires { kept.now.case.now ≡ self.now.case.now }
        ensures { result ≡ true → IsNone self.now.case.now.network.now asked.limit asked.number }
    {
        let given = self.line(&asked.number);
        self.line_of(kept, &asked.number)
            .are_costly_beyond(&given, asked.limit)
    }

    /// Whether flows show that the network costs no less from the limit on.
    fn is_within(&self, kept: &KeptFlows<'_>, asked: Asked) -> bool
        requires { kept.now.case.now ≡ self.now.case.now }
        ensures { result ≡ true → IsNone self.now.case.now.network.now asked.limit asked.number }
    {
        let given = slope_as_given(self.case, &asked.number);
        let line = self.line_of(kept, &asked.number);
        let Some(change) = change_of(given.slope, asked.limit) else {
            return false;
        };
        match sloped(
            self.case,
            &asked.number,
            &line,
            change,
            self.simplex.near_heights(),
        ) {
            Some(own) => is_past(self.case.network, &asked.number, &given, &own, asked.limit),
            None => false,
        }
    }

    /// Whether flows show that at least what was asked for is left.
    fn is_more(&self, kept: &KeptFlows<'_>, asked: Asked) -> bool
        requires { kept.now.case.now ≡ self.now.case.now }
        ensures { result ≡ true → IsExplainedOrMore self.now.case.now.network.now asked.limit asked.least asked.number None }
    {
        let given = self.line(&asked.number);
        match asked.least {
            Some(least) => self
                .line_of(kept, &asked.number)
                .leave_at_least(&given, self.case.cost, least),
            None => false,
        }
    }

    /// What is left if a number is freed, by the flows and heights of the simplex.
    fn freed_from(
        &mut self,
        alloc: Global,
        number: &Number,
        near: u64,
        far: u64,
    ) -> Result<Solved, AllocError>
        ensures solved { IfOk result (λ solved. IsExactOrUnknown self.old.case.now.network.now number.now solved) }
        ensures case { self.new.case.now ≡ self.old.case.now }
    {
        match self.freed_between(alloc, number, near, far)? {
            Some(freed) => Ok(Solved::Exactly(freed)),
            None => Ok(Solved::Unknown),
        }
    }

    /// The same, if they show it. The flows without net are kept.
    fn freed_between(
        &mut self,
        alloc: Global,
        number: &Number,
        near: u64,
        far: u64,
    ) -> Result<Option<Freed>, AllocError>
        ensures exact { IfOk result (λ freed. IfSome freed (IsExact self.old.case.now.network.now number.now)) }
        ensures case { self.new.case.now ≡ self.old.case.now }
    {
        let before = KeptFlows::of(alloc, self.case, self.simplex.before())?;
        let flat = KeptFlows::of(alloc, self.case, self.simplex.flows())?;
        let behind = KeptFlows::of(alloc, self.case, self.simplex.behind())?;
        let (Some(before), Some(flat), Some(behind)) = (before, flat, behind) else {
            return Ok(None);
        };
        let turn = Turn {
            before: self.line_of(&before, number),
            flat: self.line_of(&flat, number),
            behind: self.line_of(&behind, number),
        };
        let seed = self.simplex.seed(alloc, near)?;
        self.keep_flat(flat, number, seed)?;
        let net = turn.before.net;
        let (Some(near), Some(far)) = (change_of(net, near), change_of(net, far)) else {
            return Ok(None);
        };
        let near = Level::of(near, self.simplex.near_heights());
        let far = Level::of(far, self.simplex.far_heights());
        Ok(freed_by_turn(self.case, number, &turn, near, far))
    }
}

/// How much less than a cost may be left, if so much is to be left.
fn worth_of(cost: u128, least: Option<u128>) -> Option<u64> {
    let worth = cost.saturating_sub(least?);
    Some(u64::try_from(worth).unwrap_or(u64::MAX))
}

/// Whether the cost falls no more at the limit, where it falls as a number is given; or rises no more.
fn is_past(network: &Network, number: &Number, given: &Sloped, own: &Sloped, limit: u64) -> bool
    requires at { given.now.change ≡ pos 0 }
    requires given { IsSloped network.now number.now given.now }
    requires own { IsSloped network.now number.now own.now }
    ensures { result ≡ true → IsNone network.now limit number.now }
{
    if own.change.unsigned_abs() != limit {
        return false;
    }
    if given.slope < 0 {
        return own.change >= 0 && own.slope >= 0;
    }
    if given.slope == 0 {
        return false;
    }
    own.change <= 0 && own.slope <= 0
}
