//! Small networks that look random, and numbers of them.
ghost use Rattle.std.specs.Prelude.{◌<◌};

use std::alloc::Global;
use std::process::Abort;
use th_detours::{End, Group, Link};

/// Numbers that look random: a linear congruential generator (Knuth's MMIX).
#[derive(Drop)]
pub struct Random {
    state: u64,
}

impl Random {
    /// Begins with a state; the same one gives the same numbers.
    pub fn new(state: u64) -> Random {
        Random { state }
    }

    /// A number below `most`.
    pub fn below(&mut self, most: u32) -> u32
        requires { 0 < most }
        ensures { result < most }
    {
        self.state = self
            .state
            .wrapping_mul(6_364_136_223_846_793_005)
            .wrapping_add(1_442_695_040_888_963_407);
        ((self.state >> 33) % u64::from(most)) as u32
    }
}

/// What a network looks like.
#[derive(Clone, Copy, Debug, PartialEq, Eq)]
pub enum Kind {
    /// Setups with sights of any points, which differ by -2 to 2.
    Ties,
    /// The same, with differences of any size, and some large.
    Any,
    /// Setups one after the other round a loop, with two sights each way and small errors.
    Loop,
    /// The same along a line.
    Line,
}

/// A setup: its sights are from one link up to another, without the second.
#[derive(Clone, Copy)]
pub struct Setup {
    pub base: u32,
    pub start: usize,
    pub end: usize,
}

/// A network of setups.
#[derive(Drop)]
pub struct Network {
    pub vertices: u32,
    pub links: Vec<Link>,
    pub setups: Vec<Setup>,
}

impl Network {
    /// A network of a kind, with this many points beside the benchmarks.
    pub fn new(
        rt: &impl Abort,
        alloc: Global,
        random: &mut Random,
        kind: Kind,
        points: u32,
    ) -> Network {
        let vertices = points.saturating_add(1);
        let mut network = Network {
            vertices,
            links: Vec::new(alloc),
            setups: Vec::new(alloc),
        };
        match kind {
            Kind::Ties | Kind::Any => network.add_setups(rt, random, kind),
            Kind::Loop | Kind::Line => network.add_legs(rt, random, kind),
        }
        network
    }

    /// A setup at each point, with a sight of an earlier one and of some more.
    fn add_setups(&mut self, rt: &impl Abort, random: &mut Random, kind: Kind) {
        for vertex in 1..self.vertices {
            let start = self.links.len();
            let earlier = random.below(vertex);
            self.add(rt, random, kind, vertex, earlier);
            for _ in 0..random.below(4) {
                let other = random.below(vertex);
                self.add(rt, random, kind, vertex, other);
            }
            self.set_up(rt, vertex, start);
        }
        for _ in 0..3 {
            self.add_setup(rt, random, kind);
        }
    }

    /// A setup at any point, with up to three sights.
    fn add_setup(&mut self, rt: &impl Abort, random: &mut Random, kind: Kind) {
        let start = self.links.len();
        let vertices = self.vertices;
        if vertices > 0 {
            let base = random.below(vertices);
            for _ in 0..random.below(4) {
                let other = random.below(vertices);
                self.add(rt, random, kind, base, other);
            }
            self.set_up(rt, base, start);
        }
    }

    /// A setup at each point, with sights of the ones before and after it.
    fn add_legs(&mut self, rt: &impl Abort, random: &mut Random, kind: Kind) {
        for vertex in 0..self.vertices {
            let start = self.links.len();
            if vertex > 0 {
                self.add(rt, random, kind, vertex, vertex - 1);
                self.add(rt, random, kind, vertex, vertex - 1);
            }
            let next = vertex.saturating_add(1);
            if next < self.vertices {
                self.add(rt, random, kind, vertex, next);
                self.add(rt, random, kind, vertex, next);
            } else {
                self.add(rt, random, kind, vertex, 0);
                if kind == Kind::Loop {
                    self.add(rt, random, kind, vertex, 0);
                }
            }
            self.set_up(rt, vertex, start);
        }
    }

    /// Adds a sight.
    fn add(&mut self, rt: &impl Abort, random: &mut Random, kind: Kind, tail: u32, head: u32) {
        let most = match kind {
            Kind::Ties => 5,
            Kind::Any => { if random.below(8) == 0 { 2_000 } else { 40 } }
            Kind::Loop | Kind::Line => 7,
        };
        let link = Link {
            tail,
            head,
            weight: random.below(5),
            flow: 0,
            difference: i64::from(random.below(most)) - i64::from(most / 2),
            length: u64::from(random.below(9)),
        };
        self.links.push(link).expect(rt, "memory");
    }

    /// Ends a setup.
    fn set_up(&mut self, rt: &impl Abort, base: u32, start: usize) {
        let end = self.links.len();
        self.setups
            .push(Setup { base, start, end })
            .expect(rt, "memory");
    }

    /// Makes the instrument height of a setup wrong.
    pub fn err(&mut self, setup: Setup, error: i64) {
        for place in setup.start..setup.end {
            if let Some(link) = self.links.get_mut(place) {
                link.difference = link.difference.saturating_add(error);
            }
        }
    }
}

/// A number: its ends, their vertex, and for each link whether it has its tail, 1, or its head, -1.
#[derive(Drop)]
pub struct Number {
    pub group: Group,
    pub base: u32,
    pub touches: Vec<i64>,
}

impl Number {
    /// The sights from a place up to another.
    pub fn tails(rt: &impl Abort, alloc: Global, network: &Network, setup: Setup) -> Number {
        let mut touches = Vec::new(alloc);
        for place in 0..network.links.len() {
            let touch = i64::from(setup.start <= place && place < setup.end);
            touches.push(touch).expect(rt, "memory");
        }
        Number {
            group: Group::Tails {
                start: setup.start,
                end: setup.end,
            },
            base: setup.base,
            touches,
        }
    }

    /// A benchmark, with some of the ends at vertex 0.
    pub fn marked(
        rt: &impl Abort,
        alloc: Global,
        network: &Network,
        random: &mut Random,
    ) -> Number {
        let mut touches = Vec::new(alloc);
        for link in &network.links {
            let touch = if random.below(2) == 0 {
                0
            } else if link.tail == 0 {
                1
            } else if link.head == 0 {
                -1
            } else {
                0
            };
            touches.push(touch).expect(rt, "memory");
        }
        Number {
            group: Group::Marked,
            base: 0,
            touches,
        }
    }

    /// The end of the link at a place that the number has.
    pub fn end(&self, place: usize) -> Option<End> {
        match self.touches.get(place)? {
            1 => Some(End::Tail),
            -1 => Some(End::Head),
            _ => None,
        }
    }
}
