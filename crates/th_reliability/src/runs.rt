//! Where the sights of an entry are among the observations of a network.
ghost use Rattle.std.specs.Prelude.{◌≡◌, ◌≤◌, ◌↔◌, All, IfSome, false, length, true};
ghost use Rattle.std.specs.List.Sorted.{IsPartitionPoint};
ghost use Rattle.th_reliability.specs.Blunders.{weight_in};
ghost use Rattle.th_reliability.specs.Inside.Runs.{AreInOrder, is_before};
ghost use Rattle.th_reliability.specs.Runs.{AreTheSights, HoldsSights};
ghost use Rattle.th_reliability.specs.Sights.{in_sights};

use crate::sights::Sights;
use th_network::Network;
use th_observations::Observation;

/// Observations, and whether they are in the order of books and lines, as those of a survey are.
#[derive(Drop)]
pub struct Runs<'a> {
    pub observations: &'a [Observation],
    in_order: bool,
    ghost ordered: { in_order ≡ true → AreInOrder observations.now },
}

impl<'a> Runs<'a> {
    /// The runs of some observations.
    pub fn of(observations: &'a [Observation]) -> Runs<'a>
        ensures { result.observations.now ≡ observations.now }
    {
        Runs {
            observations,
            in_order: are_in_order(observations),
        }
    }

    /// What some sights weigh together, if the runs are those of the network's observations. If
    /// these are in order, it takes one pass over the sights.
    pub fn weight_of(&self, network: &Network, sights: &Sights) -> u32
        requires { self.now.observations.now ≡ network.now.observations }
        ensures { result ≡ weight_in network.now.observations network.now.weights (in_sights sights.now) }
    {
        let observations = network.observations();
        let (start, end) = self.run_of(sights);
        let mut sum = 0;
        for i in start..end {
            if sights.hold(&observations[i]) {
                sum += network.weight(i);
            }
        }
        sum
    }

    /// Whether two entries have the same sights.
    pub(crate) fn are_same(&self, first: &Sights, second: &Sights) -> bool
        ensures { result ≡ true
            → All (λ o. in_sights first.now o ≡ in_sights second.now o) self.now.observations.now }
    {
        let observations = self.observations;
        let (start, end) = self.run_of(first);
        let (other_start, other_end) = self.run_of(second);
        if start != other_start || end != other_end {
            return false;
        }
        for i in start..end {
            if first.hold(&observations[i]) != second.hold(&observations[i]) {
                return false;
            }
        }
        true
    }

    /// From where to where the sights are, counted from 0: up to the second place, without it. Where
    /// the observations are not in order, that is all of them.
    pub fn run_of(&self, sights: &Sights) -> (usize, usize)
        ensures { HoldsSights self.now.observations.now sights.now result }
    {
        match self.exact_run(sights) {
            Some(run) => run,
            None => (0, self.observations.len()),
        }
    }

    /// The places of the sights and of no other observations, counted from 0, from the first up to the
    /// second, without it. There are none where the observations are not in order.
    pub fn exact_run(&self, sights: &Sights) -> Option<(usize, usize)>
        ensures { IfSome result (AreTheSights self.now.observations.now sights.now) }
    {
        if !self.in_order {
            return None;
        }
        let observations = self.observations;
        let start = count_before(observations, sights.book, u64::from(sights.first));
        let end = count_before(observations, sights.book, u64::from(sights.last) + 1);
        Some((start, end.max(start)))
    }
}

/// Whether observations are in the order of books and lines.
fn are_in_order(observations: &[Observation]) -> bool
    ensures { (result ≡ true) ↔ AreInOrder observations.now }
{
    for k in 1..observations.len() {
        let o = &observations[k - 1];
        if is_before(&observations[k], o.book, u64::from(o.line)) {
            return false;
        }
    }
    true
}

/// How many observations come before a line of a book.
fn count_before(observations: &[Observation], book: u32, line: u64) -> usize
    requires { AreInOrder observations.now }
    ensures within { result ≤ length observations.now }
    ensures split { IsPartitionPoint (λ o. is_before book line o ≡ true)
        (λ o. is_before book line o ≡ false) observations.now result }
{
    observations.partition_point(|o| is_before(o, book, line))
}

/// Whether an observation comes before a line of a book.
fn is_before(o: &Observation, book: u32, line: u64) -> bool
    ensures { result ≡ is_before book line o.now }
{
    o.book < book || (o.book == book && u64::from(o.line) < line)
}
