//! Numbers that look random, and books and tables that are made from them.
ghost use Rattle.std.specs.Prelude.{◌<◌, ◌≤◌};

use std::alloc::Global;
use std::process::Abort;

/// Numbers that look random: a linear congruential generator (Knuth's MMIX).
#[derive(Drop)]
pub struct Random {
    pub state: u64,
}

impl Random {
    /// A number below `most`.
    pub fn below(&mut self, most: u32) -> u32
        requires { 0 < most }
        ensures { result < most }
    {
        self.state = self
            .state
            .wrapping_mul(6_364_136_223_846_793_005)
            .wrapping_add(1_442_695_040_888_963_407);
        ((self.state >> 33) % u64::from(most)) as u32
    }
}

/// A book, a table of benchmarks and a table of weights.
#[derive(Drop)]
pub struct Sample {
    pub book: Vec<u8>,
    pub benchmarks: Vec<u8>,
    pub weights: Vec<u8>,
}

/// How heavy observations are.
const WEIGHTS: [u32; 8] = [1, 1, 1, 2, 3, 7, 500, 1000];

impl Sample {
    /// A sample of 2 to 7 points and up to 14 sights between them, which a chain of sights joins; the
    /// first one to three points are benchmarks. Heights and differences are a few millimetres.
    pub fn new(rt: &impl Abort, alloc: Global, random: &mut Random) -> Sample {
        let points = 2 + random.below(6);
        Sample {
            book: book_of(rt, alloc, random, points),
            benchmarks: benchmarks_of(rt, alloc, random, points),
            weights: weights_of(rt, alloc, random, points),
        }
    }

    /// A sample of so many points and three times as many sights, which a chain of sights joins.
    /// Differences are -1, 0 or 1 mm, so many heights are as good as the best.
    pub fn with_ties(rt: &impl Abort, alloc: Global, random: &mut Random, points: u32) -> Sample
        requires some { 2 ≤ points }
    {
        let mut book = Vec::new(alloc);
        for point in 1..points {
            let earlier = random.below(point);
            add_sight(rt, alloc, random, &mut book, earlier, point, 2);
            for _ in 0..2 {
                let other = random.below(points);
                if other != point {
                    add_sight(rt, alloc, random, &mut book, point, other, 2);
                }
            }
        }
        Sample {
            book,
            benchmarks: benchmarks_of(rt, alloc, random, points),
            weights: Vec::new(alloc),
        }
    }

    /// A sample of so many points in a line, each sighted one to three times from the one before it.
    pub fn of_path(rt: &impl Abort, alloc: Global, random: &mut Random, points: u32) -> Sample {
        let mut book = Vec::new(alloc);
        for point in 1..points {
            for _ in 0..1 + random.below(3) {
                add_sight(rt, alloc, random, &mut book, point - 1, point, 4);
            }
        }
        Sample {
            book,
            benchmarks: benchmarks_of(rt, alloc, random, points),
            weights: Vec::new(alloc),
        }
    }
}

/// A book with a sight to or from each point but the first, and others.
fn book_of(rt: &impl Abort, alloc: Global, random: &mut Random, points: u32) -> Vec<u8>
    requires some { 2 ≤ points }
    requires few { points ≤ 7 }
{
    let mut book = Vec::new(alloc);
    for point in 1..points {
        let earlier = random.below(point);
        add_sight(rt, alloc, random, &mut book, earlier, point, 4);
    }
    let more = random.below(15 - points);
    for _ in 0..more {
        let one = random.below(points);
        let other = (one + 1 + random.below(points - 1)) % points;
        add_sight(rt, alloc, random, &mut book, one, other, 4);
    }
    book
}

/// Adds a sight of less than so many millimetres between two points, one way or the other.
fn add_sight(
    rt: &impl Abort,
    alloc: Global,
    random: &mut Random,
    book: &mut Vec<u8>,
    one: u32,
    other: u32,
    most: u32,
)
    requires { 0 < most }
{
    let (station, target) = if random.below(2) == 0 {
        (one, other)
    } else {
        (other, one)
    };
    let sign = if random.below(2) == 0 { '+' } else { '-' };
    let difference = random.below(most);
    let lines = format!(in alloc;
        "110001+{station:08} 84..10+00000000 88..10+00001500 \n110002+{target:08} 33..00{sign}{difference:08} 87..10+00001500 \n"
    ).expect(rt, "memory");
    book.extend_from_slice(lines.as_bytes())
        .expect(rt, "memory");
}

/// A table of one to three benchmarks, a few millimetres high.
fn benchmarks_of(rt: &impl Abort, alloc: Global, random: &mut Random, points: u32) -> Vec<u8> {
    let mut table = b"point,height\n".to_vec(alloc).expect(rt, "memory");
    let count = points.min(1 + random.below(3));
    for point in 0..count {
        let height = random.below(4);
        let row = format!(in alloc; "{point},0.00{height}\n").expect(rt, "memory");
        table.extend_from_slice(row.as_bytes()).expect(rt, "memory");
    }
    table
}

/// A table that weighs some of the pairs of points.
fn weights_of(rt: &impl Abort, alloc: Global, random: &mut Random, points: u32) -> Vec<u8> {
    let mut table = b"from,to,weight\n".to_vec(alloc).expect(rt, "memory");
    for station in 0..points {
        for target in 0..points {
            let weight = WEIGHTS[random.below(8) as usize];
            if station != target && random.below(2) == 0 {
                let row = format!(in alloc; "{station},{target},{weight}\n").expect(rt, "memory");
                table.extend_from_slice(row.as_bytes()).expect(rt, "memory");
            }
        }
    }
    table
}
