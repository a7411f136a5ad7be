//! An observation: its two ends, their difference in height, and where in the books it is.
ghost use Rattle.std.specs.Prelude.{◌≡◌, ◌≢◌, ◌≤◌, unsigned_abs};
ghost use Rattle.th_observations.specs.Observed.{largest_difference};

use gsi_word::Name;
use std::marker::Model;

/// A height difference observed from a station to a target.
///
/// The two ends have different names. The difference is in units of 10 nm and at most
/// three lengths in size. The number of the book and the line in it count from 1.
#[derive(Clone, Copy, Debug, PartialEq, Eq)]
pub struct Observation {
    pub station: Name,
    pub target: Name,
    pub diff: i64,
    pub book: u32,
    pub line: u32,
}

impl Model for Observation {
    ghost use Rattle.th_observations.specs.Observed.{Observed, IsBetweenPoints};

    ghost Value = { Observed };

    ghost view = { λ o. record {
      station = o.station;
      target = o.target;
      difference = o.diff;
      book = o.book;
      line = o.line;
    } };

    ghost invariant = { λ o. IsBetweenPoints (record {
      station = o.station;
      target = o.target;
      difference = o.diff;
      book = o.book;
      line = o.line;
    }) };

    ghost inverse = { λ o. record {
      station = o.station;
      target = o.target;
      diff = o.difference;
      book = o.book;
      line = o.line;
    } };
}

impl Observation {
    /// The station and the target, which are two points.
    pub fn ends(&self) -> (Name, Name)
        ensures station { result.0 ≡ self.now.station }
        ensures target { result.1 ≡ self.now.target }
        ensures distinct { self.now.station ≢ self.now.target }
    {
        (self.station, self.target)
    }

    /// The height of the target above the station, in units of 10 nm.
    pub fn difference(&self) -> i64
        ensures value { result ≡ self.now.difference }
        ensures in_range { unsigned_abs result ≤ largest_difference }
    {
        self.diff
    }
}
