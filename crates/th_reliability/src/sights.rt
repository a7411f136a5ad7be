//! Sights as a range of lines of a book, and whether all of them are from one station.
ghost use Rattle.std.specs.Prelude.{◌≡◌, ◌≢◌, ◌↔◌, All, Contains, IfSome, None, false, true};
ghost use Rattle.th_observations.specs.Observed.{Observed};
ghost use Rattle.th_reliability.specs.Sights.{IsOfOneStation, in_sights};

use gsi_word::Name;
use th_network::Network;
use th_observations::Observation;

/// Some sights of one station: the observations of a book from one line to another, both included.
/// The number of the book and the lines in it count from 1.
#[derive(Clone, Copy, Debug, PartialEq, Eq)]
pub struct Sights {
    pub book: u32,
    pub first: u32,
    pub last: u32,
}

impl Sights {
    /// Whether an observation is one of the sights.
    pub fn hold(&self, o: &Observation) -> bool
        ensures { result ≡ in_sights self.now o.now }
    {
        o.book == self.book && self.first <= o.line && o.line <= self.last
    }

    /// Whether all of the sights that a network has are from one station.
    pub fn are_of_one_station(&self, network: &Network) -> bool
        ensures { (result ≡ true) ↔ IsOfOneStation network.now.observations self.now }
    {
        let observations = network.observations();
        match self.first_station(observations) {
            Some(station) => self.are_from(observations, &station),
            None => true,
        }
    }

    /// The station of the first of the sights, if there is one.
    fn first_station(&self, observations: &[Observation]) -> Option<Name>
        ensures some { IfSome result (λ station. (o : Observed) × Contains observations.now o
            × (in_sights self.now o ≡ true) × (o.station ≡ station)) }
        ensures none { result ≡ None → All (λ o. in_sights self.now o ≡ false) observations.now }
    {
        for o in observations {
            if self.hold(o) {
                return Some(o.ends().0);
            }
        }
        None
    }

    /// Whether all of the sights are from a station.
    fn are_from(&self, observations: &[Observation], station: &Name) -> bool
        ensures yes { result ≡ true
            → All (λ o. in_sights self.now o ≡ true → o.station ≡ station.now) observations.now }
        ensures no { result ≡ false → (o : Observed) × Contains observations.now o
            × (in_sights self.now o ≡ true) × (o.station ≢ station.now) }
    {
        for o in observations {
            if self.hold(o) && o.ends().0 != *station {
                return false;
            }
        }
        true
    }
}
