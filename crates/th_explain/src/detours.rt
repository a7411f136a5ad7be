//! Flows of a case, and other ways for what flows through a number.
ghost use Rattle.std.specs.Prelude.{◌≡◌, IfOk, IfSome};
ghost use Rattle.th_changes.specs.Lines.{IsLine};
ghost use Rattle.th_changes.specs.Rerouted.{HoldsNumber};

use crate::groups::{Ends, end_at, ends_of, link_at};
use std::alloc::{AllocError, Global};
use th_changes::{Case, KeptFlows, Line, Number, Rerouted, Run};
use th_detours::{Aim, Guide};

/// What is to be shown of a number by other ways for flows that were kept.
#[derive(Clone, Copy)]
pub(crate) struct Worth {
    /// What flows through it in the best flows.
    pub net: i64,
    /// What it is to explain at most.
    pub most: u64,
    /// Paths no longer than this are good ones.
    pub limit: u64,
}

/// Flows of a case, the best ones or some that were kept, and a guide that proposes other ways for them. Nothing is
/// promised of what it proposes.
#[derive(Drop)]
pub(crate) struct Detours<'a> {
    pub rerouted: Rerouted<'a>,
    pub guide: Guide,
}

impl<'a> Detours<'a> {
    /// The best flows of a case.
    pub fn of(alloc: Global, case: &'a Case<'a>) -> Result<Detours<'a>, AllocError>
        ensures { IfOk result (λ own. own.rerouted.case.now ≡ case.now) }
    {
        Ok(Detours {
            rerouted: Rerouted::of(alloc, case)?,
            guide: guide_of(alloc, case)?,
        })
    }

    /// Takes flows that were kept, in place of its own.
    pub fn take(&mut self, kept: &KeptFlows<'_>)
        requires { kept.now.case.now ≡ self.old.rerouted.case.now }
        ensures { self.new.rerouted.case.now ≡ self.old.rerouted.case.now }
    {
        self.rerouted.take(kept);
        self.guide.load(self.rerouted.flows());
    }

    /// A line of the flows as they are, if the walk is closed.
    pub fn line(&self, number: &Number, run: Run) -> Option<Line>
        requires { HoldsNumber self.now.rerouted.case.now.network.now.observations number.now run }
        ensures { IfSome result
            (IsLine self.now.rerouted.case.now.network.now number.now self.now.rerouted.case.now.cost) }
    {
        self.rerouted.line(number, run)
    }

    /// A line of the flows that go round all walks that the guide proposed.
    pub fn turned(&mut self, number: &Number, run: Run) -> Option<Line>
        requires { HoldsNumber self.old.rerouted.case.now.network.now.observations number.now run }
        ensures case { self.new.rerouted.case.now ≡ self.old.rerouted.case.now }
        ensures line { IfSome result
            (IsLine self.old.rerouted.case.now.network.now number.now self.old.rerouted.case.now.cost) }
    {
        send(&mut self.rerouted, &self.guide);
        let turned = self.line(number, run);
        send_back(&mut self.rerouted, &self.guide);
        turned
    }

    /// Gives the flows that go round all walks that the guide proposed to some that are kept.
    pub fn give_turned(&mut self, kept: &mut KeptFlows<'_>)
        requires { kept.old.case.now ≡ self.old.rerouted.case.now }
        ensures case { self.new.rerouted.case.now ≡ self.old.rerouted.case.now }
        ensures kept { kept.new.case.now ≡ kept.old.case.now }
    {
        send(&mut self.rerouted, &self.guide);
        kept.take(&self.rerouted);
        send_back(&mut self.rerouted, &self.guide);
    }

    /// Whether the walks that the guide proposed have more arcs than this together.
    pub fn are_longer(&self, most: usize) -> bool {
        let mut left = most;
        for walk in self.guide.walks() {
            let arcs = self.guide.arcs(walk).len();
            if arcs > left {
                return true;
            }
            left -= arcs;
        }
        false
    }

    /// Has the guide propose walks for a number, through which so much flows. They send back more, so that no change
    /// beyond the limit is needed.
    pub fn propose(&mut self, number: &Number, run: Run, net: i64, limit: u64) -> Option<()>
        ensures { self.new.rerouted.case.now ≡ self.old.rerouted.case.now }
    {
        let Ends { group, base, need } = self.parted(number, run, net)?;
        self.guide.propose(group, base, need, limit)
    }

    /// Has it propose walks that send back what flows through a number, and cost no more than this.
    pub fn propose_below(&mut self, number: &Number, run: Run, net: i64, worth: u64) -> Option<()>
        ensures { self.new.rerouted.case.now ≡ self.old.rerouted.case.now }
    {
        let Ends { group, base, need } = self.parted(number, run, net)?;
        self.guide.propose_below(group, base, need, worth)
    }

    /// Has it propose walks for flows that were kept, such that the mean with the best ones loses no more than a number
    /// is to be worth.
    pub fn propose_from(&mut self, number: &Number, run: Run, worth: Worth) -> Option<()>
        requires { HoldsNumber self.old.rerouted.case.now.network.now.observations number.now run }
        ensures { self.new.rerouted.case.now ≡ self.old.rerouted.case.now }
    {
        let own = self.line(number, run)?;
        let now = ends_of(self.rerouted.case.network, number, run, own.net)?.need;
        let Ends { group, base, need } = self.parted(number, run, worth.net)?;
        let aim = Aim {
            need,
            now,
            lost: own.lost,
            worth: worth.most,
            limit: worth.limit,
        };
        self.guide.propose_from(group, base, &aim)
    }

    /// The ends that a number has. The guide has those of a benchmark marked.
    fn parted(&mut self, number: &Number, run: Run, net: i64) -> Option<Ends>
        ensures { self.new.rerouted.case.now ≡ self.old.rerouted.case.now }
    {
        let network = self.rerouted.case.network;
        if let Number::Benchmark(name) = number {
            for (place, o) in network.observations().iter().enumerate() {
                self.guide.mark(place, end_at(o, name));
            }
        }
        ends_of(network, number, run, net)
    }
}

/// The guide for a network with its best flows.
fn guide_of(alloc: Global, case: &Case<'_>) -> Result<Guide, AllocError> {
    let network = case.network;
    let links = network.arcs().len();
    let mut guide = Guide::new(alloc, network.vertices(), links)?;
    for place in 0..links {
        if let Some(link) = link_at(case, place) {
            guide.set_link(place, link);
        }
    }
    let _ = guide.start();
    Ok(guide)
}

/// Sends flow along the walks that the guide proposed.
fn send(rerouted: &mut Rerouted<'_>, guide: &Guide)
    ensures { rerouted.new.case.now ≡ rerouted.old.case.now }
{
    for walk in guide.walks() {
        rerouted.begin(guide.base(), walk.amount);
        for arc in guide.arcs(walk) {
            rerouted.step(*arc);
        }
    }
}

/// Sends it back, from the last walk to the first and from the last arc of each to its first.
fn send_back(rerouted: &mut Rerouted<'_>, guide: &Guide)
    ensures { rerouted.new.case.now ≡ rerouted.old.case.now }
{
    for walk in guide.walks().iter().rev() {
        rerouted.begin(guide.base(), walk.amount);
        for arc in guide.arcs(walk).iter().rev() {
            rerouted.step(arc.reversed());
        }
    }
}
