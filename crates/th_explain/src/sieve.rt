//! Numbers that explain nothing, and what is left if one is freed, without solving a network for each.
ghost use Rattle.std.specs.Prelude.{◌≡◌, All, IfOk, IfSome, true};
ghost use Rattle.th_changes.specs.Lines.{IsCostlyBeyond, IsLine, LeavesAtLeast};
ghost use Rattle.th_changes.specs.Rerouted.{HoldsNumber};

use crate::detours::{Detours, Worth};
use crate::gains::Gains;
use crate::groups::link_at;
use crate::keeping::{MOST_KEPT, MOST_TURNED, copies_of};
use crate::pairs::{Pair, best_pair, costly_line, is_nearer, is_one_nearly_level, nearest_line};
use crate::pauses::Pauses;
use crate::touching::Touching;
use crate::unshown::Unshown;
use std::alloc::{AllocError, Global};
use th_changes::{Case, KeptFlows, Line, Number, Run, run_of};
use th_freeing::{Seed, Simplex};
use th_reliability::Runs;

/// The best flows of a network, circulations that freed one number or another, and what proposes other ways for
/// them.
#[derive(Drop)]
pub struct Sieve<'a> {
    pub case: &'a Case<'a>,
    /// The best flows as they are, with their sums.
    given: KeptFlows<'a>,
    pub(crate) best: Detours<'a>,
    /// One of the circulations that are kept, and its place.
    pub(crate) near: Detours<'a>,
    pub(crate) near_place: Option<usize>,
    pub(crate) kept: Vec<KeptFlows<'a>>,
    /// For each of them where the simplex goes on from it. Nothing is promised of that.
    pub(crate) seeds: Vec<Seed>,
    /// The last circulations that went other ways and showed something of a number, the latest last. They mostly show
    /// the same of the numbers that follow.
    pub(crate) turned: Vec<KeptFlows<'a>>,
    pub(crate) runs: Runs<'a>,
    pub(crate) simplex: Simplex,
    /// What the kept circulations say of one number. Nothing is promised of it.
    pub(crate) lines: Vec<Line>,
    pub(crate) lines_of: Option<Number>,
    /// Where that number is, if it is a benchmark.
    touching: Touching,
    /// What numbers gain if all heights stay. Nothing is promised of that either.
    gains: Gains,
    /// What was not shown of the number that was asked for last. It only spares the same search.
    unshown: Unshown,
    /// When other ways are searched for a number for which a circulation that is kept is nearly level.
    pauses: Pauses,
    ghost same: { runs.observations.now ≡ case.now.network.now.observations },
    ghost same_given: { given.case.now ≡ case.now },
    ghost same_best: { best.rerouted.case.now ≡ case.now },
    ghost same_near: { near.rerouted.case.now ≡ case.now },
    ghost same_kept: { All (λ own. own.case.now ≡ case.now) kept.items },
    ghost same_turned: { All (λ own. own.case.now ≡ case.now) turned.items },
}

impl<'a> Sieve<'a> {
    /// The sieve of a network.
    pub fn of(alloc: Global, case: &'a Case<'a>) -> Result<Sieve<'a>, AllocError>
        ensures { IfOk result (λ own. own.case.now ≡ case.now) }
    {
        Ok(Sieve {
            case,
            given: KeptFlows::best(alloc, case)?,
            best: Detours::of(alloc, case)?,
            near: Detours::of(alloc, case)?,
            near_place: None,
            kept: Vec::with_capacity(alloc, MOST_KEPT)?,
            seeds: Vec::with_capacity(alloc, MOST_KEPT)?,
            turned: copies_of(alloc, case)?,
            runs: Runs::of(case.network.observations()),
            simplex: simplex_of(alloc, case)?,
            lines: Vec::with_capacity(alloc, MOST_KEPT + MOST_TURNED)?,
            lines_of: None,
            touching: Touching::new(alloc, case.network)?,
            gains: Gains::of(alloc, case.fit)?,
            unshown: Unshown::new(),
            pauses: Pauses::new(),
        })
    }

    /// Whether circulations that are kept show that no change of a number beyond a limit makes the network cost less.
    /// If not, it may be so all the same.
    pub(crate) fn is_kept_costly_beyond(&mut self, number: &Number, limit: u64) -> bool
        ensures case { self.new.case.now ≡ self.old.case.now }
        ensures costly { result ≡ true
            → IsCostlyBeyond self.old.case.now.network.now number.now self.old.case.now.cost limit }
    {
        let given = self.line(number);
        self.is_kept_costly(number, &given, limit)
    }

    /// Whether circulations that are kept show that at least so much is left, whatever a number is changed by. If not,
    /// it may be so all the same.
    pub(crate) fn is_kept_at_least(&mut self, number: &Number, least: u128) -> bool
        ensures case { self.new.case.now ≡ self.old.case.now }
        ensures left { result ≡ true → LeavesAtLeast self.old.case.now.network.now number.now least }
    {
        if self.unshown.is_own_less(number, least) {
            return false;
        }
        let given = self.line(number);
        self.is_kept_left(number, &given, least)
    }

    /// Whether other ways for what flows through a number in the best flows show that no change of it beyond a limit
    /// makes the network cost less. If not, it may be so all the same.
    pub(crate) fn is_costly_beyond(&mut self, number: &Number, limit: u64) -> bool
        ensures case { self.new.case.now ≡ self.old.case.now }
        ensures costly { result ≡ true
            → IsCostlyBeyond self.old.case.now.network.now number.now self.old.case.now.cost limit }
    {
        let run = run_of(number, &self.runs);
        if self.unshown.is_mild(number, run, limit) {
            return false;
        }
        let is_shown = self.search_costly(number, limit);
        if !is_shown {
            self.unshown.note_mild(number, run, limit);
        }
        is_shown
    }

    /// The same, if nothing is known yet. Where the number gains by such a change though all heights stay, nothing is
    /// searched for.
    fn search_costly(&mut self, number: &Number, limit: u64) -> bool
        ensures case { self.new.case.now ≡ self.old.case.now }
        ensures costly { result ≡ true
            → IsCostlyBeyond self.old.case.now.network.now number.now self.old.case.now.cost limit }
    {
        let run = run_of(number, &self.runs);
        if self.gains.are_some_beyond(self.case.network, run, limit) {
            return false;
        }
        let given = self.line(number);
        let _ = self.best.propose(number, run, given.net, limit);
        match self.turned(number) {
            Some(turned) if turned.are_costly_beyond(&given, limit) => {
                self.keep_turned(run);
                true
            }
            _ => false,
        }
    }

    /// The same, by a line of the best flows, and by that of circulations that are kept.
    fn is_kept_costly(&mut self, number: &Number, given: &Line, limit: u64) -> bool
        requires { IsLine self.old.case.now.network.now number.now self.old.case.now.cost given.now }
        ensures case { self.new.case.now ≡ self.old.case.now }
        ensures costly { result ≡ true
            → IsCostlyBeyond self.old.case.now.network.now number.now self.old.case.now.cost limit }
    {
        if given.are_costly_beyond(given, limit) {
            return true;
        }
        let _ = self.list_lines(number);
        let Some(place) = costly_line(&self.lines, given, limit) else {
            return false;
        };
        let run = run_of(number, &self.runs);
        match self.kept_line(place, number, run) {
            Some(line) => line.are_costly_beyond(given, limit),
            None => false,
        }
    }

    /// Whether it is shown by other ways that at least so much is left, whatever a number is changed by. If not, it may
    /// be so all the same. Other ways are good ones up to the limit.
    pub(crate) fn leaves_at_least(&mut self, number: &Number, limit: u64, least: u128) -> bool
        ensures case { self.new.case.now ≡ self.old.case.now }
        ensures left { result ≡ true → LeavesAtLeast self.old.case.now.network.now number.now least }
    {
        let run = run_of(number, &self.runs);
        if self.unshown.is_less(number, run, least) {
            return false;
        }
        let is_shown = self.search_left(number, limit, least);
        if !is_shown {
            self.unshown.note_less(number, run, least);
        }
        is_shown
    }

    /// The same, if nothing is known yet. Where the number gains more though all heights stay, nothing is searched for.
    fn search_left(&mut self, number: &Number, limit: u64, least: u128) -> bool
        ensures case { self.new.case.now ≡ self.old.case.now }
        ensures left { result ≡ true → LeavesAtLeast self.old.case.now.network.now number.now least }
    {
        let run = run_of(number, &self.runs);
        let worth = worth_above(self.case.cost, least);
        if self.gains.are_above(self.case.network, run, worth) {
            return false;
        }
        let given = self.line(number);
        let _ = self.list_lines(number);
        self.is_left_by_ways(number, &given, limit, least)
    }

    /// The same, by other ways for the best flows and for a circulation that is kept. Where one that is kept is nearly
    /// level the simplex frees the number in few pivots, so that searches pause if they find nothing.
    fn is_left_by_ways(&mut self, number: &Number, given: &Line, limit: u64, least: u128) -> bool
        requires { IsLine self.old.case.now.network.now number.now self.old.case.now.cost given.now }
        ensures case { self.new.case.now ≡ self.old.case.now }
        ensures left { result ≡ true → LeavesAtLeast self.old.case.now.network.now number.now least }
    {
        if !is_one_nearly_level(&self.lines, given) {
            return self.is_left_by_either(number, given, limit, least);
        }
        if self.pauses.wait() {
            return false;
        }
        let is_left = self.is_left_by_either(number, given, limit, least);
        self.pauses.note(is_left);
        is_left
    }

    /// The same. The one that more may be hoped of comes first.
    fn is_left_by_either(&mut self, number: &Number, given: &Line, limit: u64, least: u128) -> bool
        requires { IsLine self.old.case.now.network.now number.now self.old.case.now.cost given.now }
        ensures case { self.new.case.now ≡ self.old.case.now }
        ensures left { result ≡ true → LeavesAtLeast self.old.case.now.network.now number.now least }
    {
        if is_nearer(&self.lines, given) {
            if self.is_near_left(number, given, limit, least) {
                return true;
            }
            return self.is_best_left(number, given, least);
        }
        if self.is_best_left(number, given, least) {
            return true;
        }
        self.is_near_left(number, given, limit, least)
    }

    /// The same, by other ways for what flows through it in the best flows.
    fn is_best_left(&mut self, number: &Number, given: &Line, least: u128) -> bool
        requires { IsLine self.old.case.now.network.now number.now self.old.case.now.cost given.now }
        ensures case { self.new.case.now ≡ self.old.case.now }
        ensures left { result ≡ true → LeavesAtLeast self.old.case.now.network.now number.now least }
    {
        let run = run_of(number, &self.runs);
        let worth = worth_above(self.case.cost, least);
        let _ = self.best.propose_below(number, run, given.net, worth);
        match self.turned(number) {
            Some(turned) if turned.leave_at_least(given, self.case.cost, least) => {
                self.keep_turned(run);
                true
            }
            _ => false,
        }
    }

    /// The same, by other ways for what flows through it in a circulation that is kept.
    fn is_near_left(&mut self, number: &Number, given: &Line, limit: u64, least: u128) -> bool
        requires { IsLine self.old.case.now.network.now number.now self.old.case.now.cost given.now }
        ensures case { self.new.case.now ≡ self.old.case.now }
        ensures left { result ≡ true → LeavesAtLeast self.old.case.now.network.now number.now least }
    {
        let Some(place) = nearest_line(&self.lines, given) else {
            return false;
        };
        let run = run_of(number, &self.runs);
        self.draw_near(place);
        let worth = Worth {
            net: given.net,
            most: worth_above(self.case.cost, least),
            limit,
        };
        match self.turned_near(number, worth) {
            Some(turned) if turned.leave_at_least(given, self.case.cost, least) => {
                self.keep_turned_near(run);
                true
            }
            _ => false,
        }
    }

    /// The same, by two of the circulations that are kept, or by one and a line of the best flows.
    fn is_kept_left(&mut self, number: &Number, given: &Line, least: u128) -> bool
        requires { IsLine self.old.case.now.network.now number.now self.old.case.now.cost given.now }
        ensures case { self.new.case.now ≡ self.old.case.now }
        ensures left { result ≡ true → LeavesAtLeast self.old.case.now.network.now number.now least }
    {
        let Some(pair) = self.pair(number, given) else {
            return false;
        };
        let first = self.line_at(pair.first, number, given);
        let second = self.kept_line(pair.second, number, run_of(number, &self.runs));
        match (first, second) {
            (Some(first), Some(second)) => first.leave_at_least(&second, self.case.cost, least),
            _ => false,
        }
    }

    /// A line of one of the circulations that are kept, or else that of the best flows.
    fn line_at(&self, place: Option<usize>, number: &Number, given: &Line) -> Option<Line>
        requires { IsLine self.now.case.now.network.now number.now self.now.case.now.cost given.now }
        ensures { IfSome result (IsLine self.now.case.now.network.now number.now self.now.case.now.cost) }
    {
        match place {
            Some(place) => self.kept_line(place, number, run_of(number, &self.runs)),
            None => Some(*given),
        }
    }

    /// The two circulations that show most of a number. Nothing is promised: it is checked.
    fn pair(&mut self, number: &Number, given: &Line) -> Option<Pair>
        ensures { self.new.case.now ≡ self.old.case.now }
    {
        self.list_lines(number)?;
        best_pair(&self.lines, given)
    }

    /// Lists what the kept circulations say of a number, unless that is listed. Nothing is promised.
    pub(crate) fn list_lines(&mut self, number: &Number) -> Option<()>
        ensures { self.new.case.now ≡ self.old.case.now }
    {
        if self.lines_of == Some(*number) {
            return Some(());
        }
        self.lines_of = None;
        self.lines.clear();
        let network = self.case.network;
        if let Number::Benchmark(name) = number {
            self.touching.find(network, name)?;
        }
        let run = run_of(number, &self.runs);
        for place in 0..self.count() {
            let line = self.listed_line(place, number, run)?;
            self.lines.push(line).ok()?;
        }
        self.lines_of = Some(*number);
        Some(())
    }

    /// A line of one of the circulations that are kept, as it is listed. Nothing is promised.
    fn listed_line(&self, place: usize, number: &Number, run: Run) -> Option<Line>
        requires { HoldsNumber self.now.runs.observations.now number.now run }
    {
        match number {
            Number::Benchmark(_) => self.touching.line(self.kept_at(place)?),
            _ => self.kept_line(place, number, run),
        }
    }

    /// A line of the best flows.
    pub(crate) fn line(&self, number: &Number) -> Line
        ensures { IsLine self.now.case.now.network.now number.now self.now.case.now.cost result }
    {
        self.given.line(number, run_of(number, &self.runs))
    }

    /// How many circulations are kept, with those that went other ways.
    fn count(&self) -> usize {
        self.kept.len().saturating_add(self.turned.len())
    }

    /// A line of one of the circulations that are kept.
    pub(crate) fn kept_line(&self, place: usize, number: &Number, run: Run) -> Option<Line>
        requires { HoldsNumber self.now.runs.observations.now number.now run }
        ensures { IfSome result (IsLine self.now.case.now.network.now number.now self.now.case.now.cost) }
    {
        let kept = self.kept_at(place)?;
        Some(kept.line(number, run))
    }

    /// One of the circulations that are kept: those that went other ways behind the others.
    fn kept_at(&self, place: usize) -> Option<&KeptFlows<'a>>
        ensures { IfSome result (λ own. own.now.case.now ≡ self.now.case.now) }
    {
        let kept = self.kept.len();
        if place < kept {
            self.kept.get(place)
        } else {
            self.turned.get(place - kept)
        }
    }

    /// A line of the best flows where they go round all walks that were proposed.
    fn turned(&mut self, number: &Number) -> Option<Line>
        ensures case { self.new.case.now ≡ self.old.case.now }
        ensures line { IfSome result (IsLine self.old.case.now.network.now number.now self.old.case.now.cost) }
    {
        let run = run_of(number, &self.runs);
        self.best.turned(number, run)
    }

    /// A line of the near circulation where it goes round walks such that a number is worth so much at most.
    fn turned_near(&mut self, number: &Number, worth: Worth) -> Option<Line>
        ensures case { self.new.case.now ≡ self.old.case.now }
        ensures line { IfSome result (IsLine self.old.case.now.network.now number.now self.old.case.now.cost) }
    {
        let run = run_of(number, &self.runs);
        let _ = self.near.propose_from(number, run, worth);
        self.near.turned(number, run)
    }

    /// Makes one of the circulations that are kept the near one.
    pub(crate) fn draw_near(&mut self, place: usize)
        ensures { self.new.case.now ≡ self.old.case.now }
    {
        let kept = self.kept.len();
        if place >= kept {
            self.draw_turned_near(place - kept);
        } else if self.near_place != Some(place) {
            self.near.take(&self.kept[place]);
            self.near_place = Some(place);
        }
    }

    /// The same of those that went other ways.
    fn draw_turned_near(&mut self, place: usize)
        ensures { self.new.case.now ≡ self.old.case.now }
    {
        if place < self.turned.len() {
            self.near.take(&self.turned[place]);
            self.near_place = None;
        }
    }
}

/// How much less than a cost may be left, if at least another one is to be left.
fn worth_above(cost: u128, least: u128) -> u64 {
    u64::try_from(cost.saturating_sub(least)).unwrap_or(u64::MAX)
}

/// The simplex for a network with its best flows.
fn simplex_of(alloc: Global, case: &Case<'_>) -> Result<Simplex, AllocError> {
    let network = case.network;
    let links = network.arcs().len();
    let mut simplex = Simplex::new(alloc, network.vertices(), links)?;
    for place in 0..links {
        if let Some(link) = link_at(case, place) {
            simplex.set_link(place, link);
        }
    }
    let _ = simplex.start();
    Ok(simplex)
}
