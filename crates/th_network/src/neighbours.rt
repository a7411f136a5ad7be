//! The neighbours of each point, by the observations between them, for the walk in `anchors`.
ghost use Rattle.std.specs.Prelude.{◌≡◌, ◌↔◌, ◌⊎◌, ◌<◌, [], ℕ, All, Contains, IfOk, OnOk, length};
ghost use Rattle.th_points.specs.Ends.{AreBelow};
ghost use Rattle.th_network.specs.Inside.Neighbours.{AreNeighbours, IsListed};

use std::alloc::{AllocError, Global};
use std::marker::Model;

/// For each place the places that an observation joins it to, each as often as one does.
#[derive(Drop)]
pub(crate) struct Neighbours {
    lists: Vec<Vec<usize>>,
}

impl Model for Neighbours {
    ghost use Rattle.std.specs.Prelude.{List, map, ℕ};

    ghost Value = { List (List ℕ) };

    ghost view = { λ neighbours. map (λ list. list.items) neighbours.lists.items };
}

impl Neighbours {
    /// The neighbours of so many places under observations that end at these.
    pub fn of(
        alloc: Global,
        ends: &[(usize, usize)],
        count: usize,
    ) -> Result<Neighbours, AllocError>
        requires { All (AreBelow count) ends.now }
        ensures { IfOk result (AreNeighbours count ends.now) }
    {
        let mut neighbours = Neighbours::none(alloc, count)?;
        for (station, target) in ends {
            neighbours.add(*station, *target)?;
            neighbours.add(*target, *station)?;
        }
        Ok(neighbours)
    }

    /// No neighbours for so many places.
    fn none(alloc: Global, count: usize) -> Result<Neighbours, AllocError>
        ensures { IfOk result (AreNeighbours count []) }
    {
        let mut lists = Vec::with_capacity(alloc, count)?;
        for _ in 0..count {
            lists.push(Vec::new(alloc))?;
        }
        Ok(Neighbours { lists })
    }

    /// Adds one place to the neighbours of another.
    fn add(&mut self, place: usize, other: usize) -> Result<(), AllocError>
        requires { place < length self.old }
        ensures size { OnOk result (length self.new ≡ length self.old) }
        ensures added { OnOk result ((at to : ℕ) → IsListed self.new at to
            ↔ (IsListed self.old at to ⊎ ((at ≡ place) × (to ≡ other)))) }
    {
        self.lists[place].push(other)?;
        Ok(())
    }

    /// The neighbours of a place.
    pub fn of_place(&self, place: usize) -> &[usize]
        requires { place < length self.now }
        ensures { (other : ℕ) → Contains result.now other ↔ IsListed self.now place other }
    {
        &self.lists[place]
    }
}
