//! All numbers of small networks.
use crate::freed::{Case, Kept};
use crate::networks::{Kind, Network, Number, Random, Setup};
use std::alloc::Global;
use std::process::Abort;
use th_freeing::{Found, Task};

/// How many networks of a kind are tried.
const SAMPLES: u64 = 40;

/// Nothing is to be shown sooner.
const ALL: Task = Task {
    limit: None,
    least: 0,
    worth: None,
};

/// How often each answer was given.
#[derive(Clone, Copy, Debug, PartialEq, Eq)]
struct Counts {
    mild: u32,
    within: u32,
    costly: u32,
    freed: u32,
}

impl Counts {
    const NONE: Counts = Counts {
        mild: 0,
        within: 0,
        costly: 0,
        freed: 0,
    };

    fn add(&mut self, found: Found) {
        match found {
            Found::Mild => self.mild = self.mild.saturating_add(1),
            Found::Within => self.within = self.within.saturating_add(1),
            Found::Costly => self.costly = self.costly.saturating_add(1),
            Found::Freed { .. } => self.freed = self.freed.saturating_add(1),
        }
    }
}

/// What is kept from number to number, and how often each answer was given.
#[derive(Drop)]
struct Tried {
    kept: Option<Kept>,
    counts: Counts,
}

/// Tries a number in each way.
fn try_number(rt: &impl Abort, alloc: Global, case: &mut Case, tried: &mut Tried, number: &Number) {
    let need = case
        .along(number, &case.best)
        .ok_or("none")
        .expect(rt, "some");
    if need == 0 {
        assert!(rt; case.find(number, &ALL, None).is_none());
        return;
    }
    let explained = case
        .explained(rt, alloc, number)
        .ok_or("none")
        .expect(rt, "some");
    let half = u64::try_from(explained / 2).unwrap_or(0);
    let whole = u64::try_from(explained).unwrap_or(0);
    for limit in [None, Some(0), Some(1), Some(3), Some(20)] {
        for (least, worth) in [
            (0, None),
            (0, Some(half)),
            (half, Some(whole)),
            (whole, None),
        ] {
            let task = Task {
                limit,
                least,
                worth,
            };
            for goes_on in [false, true] {
                let kept = if goes_on { tried.kept.as_ref() } else { None };
                let found = case
                    .find(number, &task, kept)
                    .ok_or("none")
                    .expect(rt, "some");
                let holds = case.holds(rt, alloc, number, &task, found, explained);
                assert!(rt; holds == Some(true), "{found:?}");
                tried.counts.add(found);
                if least == 0 {
                    tried.kept = Some(case.kept(rt, alloc, size_of(found, &task)));
                }
            }
        }
    }
}

/// The size of the change for which flows were found.
fn size_of(found: Found, task: &Task) -> u64 {
    match found {
        Found::Freed { near, .. } => near,
        _ => task.limit.unwrap_or(0),
    }
}

/// Tries all numbers of networks of a kind.
fn try_kind(rt: &impl Abort, alloc: Global, kind: Kind) -> Counts {
    let mut counts = Counts::NONE;
    for sample in 0..SAMPLES {
        let mut random = Random::new(sample);
        let points = 2 + random.below(6);
        let mut network = Network::new(rt, alloc, &mut random, kind, points);
        if kind == Kind::Loop || kind == Kind::Line {
            let setup = network
                .setups
                .get(1)
                .copied()
                .ok_or("none")
                .expect(rt, "some");
            network.err(setup, 50);
        }
        let mut case = Case::new(rt, alloc, network);
        let mut tried = Tried { kept: None, counts };
        let setups = case.network.setups.to_vec(alloc).expect(rt, "memory");
        for setup in &setups {
            for start in setup.start..setup.end {
                let part = Setup { start, ..*setup };
                let number = Number::tails(rt, alloc, &case.network, part);
                try_number(rt, alloc, &mut case, &mut tried, &number);
            }
        }
        for _ in 0..3 {
            let number = Number::marked(rt, alloc, &case.network, &mut random);
            try_number(rt, alloc, &mut case, &mut tried, &number);
        }
        counts = tried.counts;
    }
    counts
}

/// Each answer is given to some numbers of a kind.
fn check_kind(rt: &impl Abort, alloc: Global, kind: Kind) {
    let counts = try_kind(rt, alloc, kind);
    assert!(rt; counts.mild > 0, "{counts:?}");
    assert!(rt; counts.within > 0, "{counts:?}");
    assert!(rt; counts.costly > 0, "{counts:?}");
    assert!(rt; counts.freed > 0, "{counts:?}");
}

#[test]
fn ties(rt: HostRuntime) {
    check_kind(&rt, rt.alloc(), Kind::Ties);
}

#[test]
fn any(rt: HostRuntime) {
    check_kind(&rt, rt.alloc(), Kind::Any);
}

#[test]
fn loops(rt: HostRuntime) {
    check_kind(&rt, rt.alloc(), Kind::Loop);
}

#[test]
fn lines(rt: HostRuntime) {
    check_kind(&rt, rt.alloc(), Kind::Line);
}
