//! The numbers that a change may be of, and how much each touches the difference of an observation.
ghost use Rattle.std.specs.Prelude.{◌≡◌, ◌<◌, ◌≤◌, ◌^◌, pos, ◌*ℤ◌, if◌then◌else◌, unsigned_abs};
ghost use Rattle.th_changes.specs.Numbers.{sign, touch};

use gsi_word::Name;
use th_observations::Observation;
use th_reliability::Sights;

/// A number of a survey that somebody read or typed.
#[derive(Clone, Copy, Debug, PartialEq, Eq)]
pub enum Number {
    /// A number that is added to the differences of these sights: the difference itself, if it is one
    /// sight, or else the height of the instrument.
    Added(Sights),
    /// A number that is subtracted from the differences of these sights: the height of the reflector.
    Subtracted(Sights),
    /// The height of this benchmark.
    Benchmark(Name),
}

impl Number {
    /// How much an observation's difference, without the heights of benchmarks, grows for each unit
    /// that the number grows.
    pub fn touch(&self, o: &Observation) -> i64
        ensures touch { result ≡ touch self.now o.now }
        ensures small { unsigned_abs result ≤ 1 }
    {
        match self {
            Number::Added(sights) => once(sights.hold(o)),
            Number::Subtracted(sights) => -once(sights.hold(o)),
            Number::Benchmark(name) => once(*name == o.station) - once(*name == o.target),
        }
    }

    /// An amount times how much the number touches an observation.
    pub fn times(&self, o: &Observation, amount: i64) -> i64
        requires { unsigned_abs amount < 2 ^ 63 }
        ensures times { result ≡ amount *ℤ touch self.now o.now }
        ensures small { unsigned_abs result ≤ unsigned_abs amount }
    {
        let touch = self.touch(o);
        if touch > 0 {
            amount
        } else if touch < 0 {
            -amount
        } else {
            0
        }
    }

    /// An amount with the number's sign.
    pub(crate) fn signed(&self, amount: i64) -> i64
        requires { unsigned_abs amount < 2 ^ 63 }
        ensures signed { result ≡ amount *ℤ sign self.now }
        ensures small { unsigned_abs result ≤ unsigned_abs amount }
    {
        match self {
            Number::Added(_) => amount,
            Number::Subtracted(_) => -amount,
            Number::Benchmark(_) => 0,
        }
    }
}

/// 1 if it holds, else 0.
fn once(holds: bool) -> i64
    ensures { result ≡ (if holds then pos 1 else pos 0) }
{
    if holds { 1 } else { 0 }
}
