//! `explanations`, which solves no network for most numbers, beside `explanation`, which solves some for
//! each, on networks that look random.
ghost use Rattle.std.specs.Prelude.{◌<◌, ◌≤◌};

use crate::finding::explained;
use gsi_word::{Name, name_of};
use std::alloc::Global;
use std::process::Abort;
use th_blunders::Fit;
use th_book::read_book;
use th_circulation::best_heights;
use th_explain::{Case, Number, explanation};
use th_network::Network;
use th_reliability::Sights;
use th_tables::{read_benchmarks, read_weights};

/// How many networks are tried.
const SAMPLES: u32 = 12;

/// How many points a network has; the first two are benchmarks.
const POINTS: u32 = 7;

/// How many setups there are beside one at each point but the first.
const SETUPS: u32 = 5;

/// From 0 to 8 mm.
const LIMITS: [u64; 4] = [0, 100_000, 300_000, 800_000];

/// Numbers that look random: a linear congruential generator (Knuth's MMIX).
#[derive(Drop)]
struct Random {
    state: u64,
}

impl Random {
    /// A number below `most`.
    fn below(&mut self, most: u32) -> u32
        requires { 0 < most }
        ensures { result < most }
    {
        self.state = self
            .state
            .wrapping_mul(6_364_136_223_846_793_005)
            .wrapping_add(1_442_695_040_888_963_407);
        ((self.state >> 33) % u64::from(most)) as u32
    }
}

/// A book, and the numbers of it.
#[derive(Drop)]
struct Sample {
    book: Vec<u8>,
    lines: u32,
    numbers: Vec<Number>,
}

impl Sample {
    /// A setup at each point but the first, which sights an earlier point and others, and more setups.
    fn new(rt: &impl Abort, alloc: Global, random: &mut Random) -> Sample {
        let mut sample = Sample {
            book: Vec::new(alloc),
            lines: 0,
            numbers: Vec::new(alloc),
        };
        for point in 1..POINTS {
            let earlier = random.below(point);
            sample.add_setup(rt, alloc, random, point, earlier);
        }
        for _ in 0..SETUPS {
            let station = random.below(POINTS);
            let target = (station + 1 + random.below(POINTS - 1)) % POINTS;
            sample.add_setup(rt, alloc, random, station, target);
        }
        sample.add_benchmark(rt, alloc, 0);
        sample.add_benchmark(rt, alloc, 1);
        sample
    }

    /// Adds a setup with a sight of a target and up to three of others; the numbers are its sights, its
    /// last ones, and all of them as the two heights of the setup have them.
    fn add_setup(
        &mut self,
        rt: &impl Abort,
        alloc: Global,
        random: &mut Random,
        station: u32,
        target: u32,
    )
        requires { station < 7 }
    {
        let line = format!(in alloc;
            "110001+{station:08} 84..10+00000000 88..10+00001500 87..10+00001500 \n"
        ).expect(rt, "memory");
        self.add_line(rt, line.as_bytes());
        let first = self.lines.saturating_add(1);
        self.add_sight(rt, alloc, random, target);
        for _ in 0..random.below(4) {
            let other = (station + 1 + random.below(POINTS - 1)) % POINTS;
            self.add_sight(rt, alloc, random, other);
        }
        let last = self.lines;
        for line in first..last {
            self.add_number(rt, Number::Added(sights(line, last)));
        }
        self.add_number(rt, Number::Subtracted(sights(first, last)));
    }

    /// Adds a sight, which errs by a few millimetres, and once in a while by some more.
    fn add_sight(&mut self, rt: &impl Abort, alloc: Global, random: &mut Random, target: u32) {
        let sign = if random.below(2) == 0 { '+' } else { '-' };
        let most = if random.below(8) == 0 { 40 } else { 3 };
        let difference = random.below(most);
        let line = format!(in alloc; "110002+{target:08} 33..00{sign}{difference:08} \n").expect(
            rt, "memory",
        );
        self.add_line(rt, line.as_bytes());
        self.add_number(rt, Number::Added(sights(self.lines, self.lines)));
    }

    fn add_line(&mut self, rt: &impl Abort, line: &[u8]) {
        self.book.extend_from_slice(line).expect(rt, "memory");
        self.lines = self.lines.saturating_add(1);
    }

    fn add_number(&mut self, rt: &impl Abort, number: Number) {
        self.numbers.push(number).expect(rt, "memory");
    }

    fn add_benchmark(&mut self, rt: &impl Abort, alloc: Global, point: u32) {
        let text = format!(in alloc; "{point}").expect(rt, "memory");
        let name: Name = name_of(text.as_bytes()).expect(rt, "a name");
        self.add_number(rt, Number::Benchmark(name));
    }
}

/// Lines of the book, from the first to the last.
fn sights(first: u32, last: u32) -> Sights {
    Sights {
        book: 1,
        first,
        last,
    }
}

/// Compares what is found of all numbers of a sample with what is found of each; returns how many explain.
fn compare(rt: &impl Abort, alloc: Global, sample: &Sample, limit: u64) -> usize {
    let benchmarks = read_benchmarks(alloc, b"point,height\n0,0.000\n1,0.004\n").expect(
        rt, "marks",
    );
    let weights = read_weights(alloc, b"from,to,weight\n2,3,7\n4,0,1000\n5,6,2\n").expect(
        rt, "weights",
    );
    let observations = read_book(alloc, 1, &sample.book).expect(rt, "a book");
    let network = Network::build(alloc, observations, &benchmarks, &weights).expect(
        rt,
        "a network",
    );
    let best = best_heights(alloc, &network).expect(rt, "memory");
    let fit = Fit::of(alloc, &network, best.low()).expect(rt, "memory");
    let case = Case::of(&network, &best, &fit);
    let found = explained(rt, alloc, &network, &sample.numbers, limit, None);
    assert_eq!(rt; found.len(), sample.numbers.len());
    let half = fit.cost / 2;
    let few = explained(rt, alloc, &network, &sample.numbers, limit, Some(half));
    for (own, one) in few.iter().zip(&found) {
        let is_missing = own.is_none() && one.is_some_and(|freed| freed.left >= half);
        assert!(rt; is_missing || own == one);
    }
    let mut explain = 0usize;
    for (number, own) in sample.numbers.iter().zip(&found) {
        let one = explanation(alloc, &case, number, limit).expect(rt, "memory");
        assert!(rt; *own == one, "{number:?}");
        if own.is_some() {
            explain = explain.saturating_add(1);
        }
    }
    explain
}

#[test]
fn each_beside_all(rt: HostRuntime) {
    let alloc = rt.alloc();
    let mut random = Random { state: 1 };
    let mut explain = 0usize;
    for _ in 0..SAMPLES {
        let sample = Sample::new(&rt, alloc, &mut random);
        for limit in LIMITS {
            explain = explain.saturating_add(compare(&rt, alloc, &sample, limit));
        }
    }
    assert!(rt; explain > 0);
}
