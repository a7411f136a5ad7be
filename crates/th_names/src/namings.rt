//! A name of a survey that may be that of another point.
ghost use Rattle.std.specs.Prelude.{◌≡◌};
ghost use Rattle.std.specs.List.{list_all, list_any};
ghost use Rattle.th_names.specs.Gaps.{name_in, number_in};
ghost use Rattle.th_names.specs.Nears.{is_end_in, is_from, is_naming, is_to, may_be_read, read_as};

use gsi_word::Name;
use th_changes::Number;
use th_explain_texts::ReadAs;
use th_network::Network;
use th_observations::Observation;
use th_reliability::Sights;

/// A name of a survey that somebody wrote, and that may be wrong.
#[derive(Clone, Copy, Debug)]
pub enum Naming {
    /// The target of these sights.
    Target(Sights, Name),
    /// The station of these sights.
    Station(Sights, Name),
    /// The name in the row of a benchmark.
    Row(Name),
}

impl Naming {
    /// The number that the name belongs to.
    pub(crate) fn number(&self) -> Number
        ensures { result ≡ number_in self.now }
    {
        match self {
            Naming::Target(sights, _) => Number::Added(*sights),
            Naming::Station(sights, _) => Number::Added(*sights),
            Naming::Row(name) => Number::Benchmark(*name),
        }
    }

    /// The name.
    pub(crate) fn name(&self) -> Name
        ensures { result ≡ name_in self.now }
    {
        match self {
            Naming::Target(_, name) => *name,
            Naming::Station(_, name) => *name,
            Naming::Row(name) => *name,
        }
    }

    /// Whether it is a name of a network: the one of all of the sights, or one in the table of benchmarks.
    pub(crate) fn is_of(&self, network: &Network) -> bool
        ensures { result ≡ is_naming network.now self.now }
    {
        let observations = network.observations();
        match self {
            Naming::Target(sights, name) => are_to(observations, sights, name),
            Naming::Station(sights, name) => are_from(observations, sights, name),
            Naming::Row(name) => network.benchmarks().height_of(name).is_some(),
        }
    }

    /// Whether a point may be read in place of the name.
    pub(crate) fn may_be(&self, network: &Network, point: &Name) -> bool
        ensures { result ≡ may_be_read network.now self.now point.now }
    {
        let observations = network.observations();
        match self {
            Naming::Target(sights, _) => !is_end(observations, sights, point),
            Naming::Station(sights, _) => !is_end(observations, sights, point),
            Naming::Row(name) => {
                !(*name == *point || network.benchmarks().height_of(point).is_some())
            }
        }
    }

    /// A point in place of the name.
    pub(crate) fn read_as(&self, point: Name) -> ReadAs
        ensures { result ≡ read_as self.now point }
    {
        match self {
            Naming::Target(_, _) => ReadAs::Target(point),
            Naming::Station(_, _) => ReadAs::Station(point),
            Naming::Row(_) => ReadAs::Point(point),
        }
    }
}

/// Whether all observations that are among the sights are to a target.
fn are_to(observations: &[Observation], sights: &Sights, name: &Name) -> bool
    ensures { result ≡ list_all (is_to sights.now name.now) observations.now }
{
    observations.iter().all(|o| is_to(sights, name, o))
}

/// Whether all observations that are among the sights are from a station.
fn are_from(observations: &[Observation], sights: &Sights, name: &Name) -> bool
    ensures { result ≡ list_all (is_from sights.now name.now) observations.now }
{
    observations.iter().all(|o| is_from(sights, name, o))
}

/// Whether a point is an end of one of the sights.
fn is_end(observations: &[Observation], sights: &Sights, point: &Name) -> bool
    ensures { result ≡ list_any (is_end_in sights.now point.now) observations.now }
{
    observations.iter().any(|o| is_end_in(sights, point, o))
}

/// Whether an observation that is one of the sights is to a target.
fn is_to(sights: &Sights, name: &Name, o: &Observation) -> bool
    ensures { result ≡ is_to sights.now name.now o.now }
{
    !sights.hold(o) || *name == o.ends().1
}

/// Whether an observation that is one of the sights is from a station.
fn is_from(sights: &Sights, name: &Name, o: &Observation) -> bool
    ensures { result ≡ is_from sights.now name.now o.now }
{
    !sights.hold(o) || *name == o.ends().0
}

/// Whether a point is an end of an observation that is one of the sights.
fn is_end_in(sights: &Sights, point: &Name, o: &Observation) -> bool
    ensures { result ≡ is_end_in sights.now point.now o.now }
{
    let (station, target) = o.ends();
    sights.hold(o) && (*point == station || *point == target)
}
