//! A network of the most points and observations: its texts, its best heights and its flows.
ghost use Rattle.std.specs.Prelude.{◌<◌, unsigned_abs};
ghost use Rattle.th_network.specs.Limits.{max_points};

use crate::texts::Texts;
use std::alloc::{AllocError, Global};
use th_network::{MAX_OBSERVATIONS, MAX_POINTS};

/// To how many points each setup has sights: an exact one to the first and to the last of them, two to
/// each other.
const DIRECTIONS: usize = 1 + MAX_OBSERVATIONS / MAX_POINTS / 2;

/// One benchmark for so many points.
const POINTS_PER_BENCHMARK: usize = 10;

/// Units of 10 nm in a millimetre.
const UNITS_PER_MILLIMETRE: i64 = 100_000;

/// How many millimetres the instrument stands higher over its point than the reflector over its own.
const INSTRUMENT_OVER_REFLECTOR: i64 = 200;

/// How far a blunder is off, in millimetres.
const BLUNDER: i64 = 5_000;

/// A network that is as large as one may be: a book with a setup at each point and sights from it to the
/// next ones, the tables of some benchmarks and of a weight for each pair of points that is sighted, and
/// the best heights with flows that show them.
///
/// All points hang together by exact sights. The others come in pairs, the one too high by a blunder
/// and the other too low by as much: their flows are the whole weight there and back.
#[derive(Drop)]
pub struct Large {
    pub texts: Texts,
    /// In the order of the points, in units of 10 nm.
    pub heights: Vec<i64>,
    /// In the order of the observations.
    pub flows: Vec<i64>,
}

impl Large {
    /// The network, point by point.
    pub fn new(alloc: Global) -> Result<Large, AllocError> {
        let texts = Texts {
            book: Vec::new(alloc),
            benchmarks: b"point,height\n".to_vec(alloc)?,
            weights: b"from,to,weight\n".to_vec(alloc)?,
        };
        let mut large = Large {
            texts,
            heights: Vec::new(alloc),
            flows: Vec::new(alloc),
        };
        for point in 0..MAX_POINTS {
            large.add_point(alloc, point)?;
            large.add_setup(alloc, point)?;
        }
        Ok(large)
    }

    /// Adds a point's height, and its row where it is a benchmark.
    fn add_point(&mut self, alloc: Global, point: usize) -> Result<(), AllocError> {
        let height = height_of(point);
        self.heights.push(i64::from(height) * UNITS_PER_MILLIMETRE)?;
        if point % POINTS_PER_BENCHMARK == 0 {
            let (metres, rest) = (height / 1_000, height % 1_000);
            let row = format!(in alloc; "P{point:04},{metres}.{rest:03}\n")?;
            self.texts.benchmarks.extend_from_slice(row.as_bytes())?;
        }
        Ok(())
    }

    /// Adds the setup at a point: an exact sight, pairs of blunders, and another exact sight.
    fn add_setup(&mut self, alloc: Global, point: usize) -> Result<(), AllocError>
        requires { point < max_points }
    {
        let setup = format!(in alloc;
            "110001+000P{point:04} 84..10+00000000 85..10+00000000 86..10+00100000 88..10+00001500 \n"
        )?;
        self.texts.book.extend_from_slice(setup.as_bytes())?;
        for step in 1..=DIRECTIONS {
            let target = (point + step) % MAX_POINTS;
            let weight = 1 + (point + step) % 9;
            let row = format!(in alloc; "P{point:04},P{target:04},{weight}\n")?;
            self.texts.weights.extend_from_slice(row.as_bytes())?;
            let rise = i64::from(height_of(target)) - i64::from(height_of(point));
            if step == 1 || step == DIRECTIONS {
                self.add_sight(alloc, target, rise, 0)?;
            } else {
                self.add_sight(alloc, target, rise + BLUNDER, weight as i64)?;
                self.add_sight(alloc, target, rise - BLUNDER, -(weight as i64))?;
            }
        }
        Ok(())
    }

    /// Adds a sight that finds its target so many millimetres higher, and its flow.
    fn add_sight(
        &mut self,
        alloc: Global,
        target: usize,
        rise: i64,
        flow: i64,
    ) -> Result<(), AllocError>
        requires { unsigned_abs rise < 1000000 }
    {
        let word = rise - INSTRUMENT_OVER_REFLECTOR;
        let line = format!(in alloc; "110002+000P{target:04} 33..00{word:+09} 87..10+00001300 \n")?;
        self.texts.book.extend_from_slice(line.as_bytes())?;
        self.flows.push(flow)?;
        Ok(())
    }
}

/// The height of a point in millimetres.
fn height_of(point: usize) -> u32
    ensures { result < 200000 }
{
    100_000 + (point % 1_000) as u32 * 37 % 1_000
}
