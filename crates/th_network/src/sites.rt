//! The points of a network under construction, and the heights of the benchmarks among them.
ghost use Rattle.std.specs.Prelude.{◌≡◌, ◌≤◌, All, IfOk, length, map, pos, unsigned_abs, unwrap_or};
ghost use Rattle.th_points.specs.Points.{points};
ghost use Rattle.th_tables.specs.Rows.{height_of};
ghost use Rattle.th_units.specs.Limits.{max_len};

use gsi_word::Name;
use std::alloc::{AllocError, Global};
use std::marker::Model;
use th_observations::Observation;
use th_points::Points;
use th_tables::Benchmarks;

/// The points of some observations and benchmarks, and the height of each that is a benchmark, which
/// is looked up once.
#[derive(Drop)]
pub(crate) struct Sites<'a> {
    pub observations: &'a [Observation],
    pub benchmarks: &'a Benchmarks,
    pub points: Points,
    pub heights: Vec<Option<i64>>,
}

impl<'a> Model for Sites<'a> {
    ghost use Rattle.th_network.specs.Inside.Sites.{AreSites, Looked};

    ghost Value = { Looked };

    ghost view = { λ sites. record {
      observations = sites.observations.now;
      benchmarks = sites.benchmarks.now;
    } };

    ghost invariant = { λ sites. AreSites (record {
      observations = sites.observations.now;
      benchmarks = sites.benchmarks.now;
    }) sites.points.names.keys sites.points.ends.items sites.heights.items };
}

impl<'a> Sites<'a> {
    /// Finds the points of some observations and benchmarks, and looks their heights up.
    pub fn of(
        alloc: Global,
        observations: &'a [Observation],
        benchmarks: &'a Benchmarks,
    ) -> Result<Sites<'a>, AllocError>
        ensures { IfOk result (λ sites. sites ≡ record {
          observations = observations.now;
          benchmarks = benchmarks.now;
        }) }
    {
        let points = Points::of(alloc, observations, benchmarks)?;
        let heights = heights_of(alloc, points.names.as_slice(), benchmarks)?;
        Ok(Sites {
            observations,
            benchmarks,
            points,
            heights,
        })
    }

    /// How many points there are.
    pub fn count(&self) -> usize
        ensures { result ≡ length (points self.now.observations self.now.benchmarks) }
    {
        self.points.names.len()
    }
}

/// The heights of the points that are benchmarks, in the order of the points.
fn heights_of(
    alloc: Global,
    names: &[Name],
    benchmarks: &Benchmarks,
) -> Result<Vec<Option<i64>>, AllocError>
    ensures value { IfOk result (λ heights. heights.items ≡ map (height_of benchmarks.now) names.now) }
    ensures in_range { IfOk result (λ heights.
        All (λ height. unsigned_abs (unwrap_or height (pos 0)) ≤ max_len) heights.items) }
{
    let mut heights = Vec::with_capacity(alloc, names.len())?;
    for name in names {
        heights.push(benchmarks.height_of(name))?;
    }
    Ok(heights)
}
