//! Marks of the walk from the benchmarks: points that it has reached, and those it goes on from.
ghost use Rattle.std.specs.Prelude.{◌<◌, ◌∷◌, [], All, IfOk, OnOk, length};
ghost use Rattle.th_network.specs.Inside.Marks.{IsSeeded, MarksAll};

use std::alloc::{AllocError, Global};

/// Which points are known to be tied, and which of these wait for their neighbours to be marked.
#[derive(Drop)]
pub(crate) struct Marks {
    /// For each point whether it is known to be tied.
    pub marked: Vec<bool>,
    /// The places of the marked points whose neighbours may not all be marked.
    pub waiting: Vec<usize>,
}

impl Marks {
    /// Marks the points that have a height, and lets them wait.
    pub fn of(alloc: Global, heights: &[Option<i64>]) -> Result<Marks, AllocError>
        ensures { IfOk result (λ marks. IsSeeded heights.now marks.marked.items marks.waiting.items) }
    {
        let mut marked = Vec::with_capacity(alloc, heights.len())?;
        let mut waiting = Vec::with_capacity(alloc, heights.len())?;
        for (place, height) in heights.iter().enumerate() {
            let fixed = height.is_some();
            marked.push(fixed)?;
            if fixed {
                waiting.push(place)?;
            }
        }
        Ok(Marks { marked, waiting })
    }

    /// Marks some points, and lets those wait that were not marked yet.
    pub fn mark_all(&mut self, places: &[usize]) -> Result<(), AllocError>
        requires { All (λ place. place < length self.old.marked.items) places.now }
        ensures { OnOk result (MarksAll places.now self.old self.new) }
    {
        for place in places {
            self.mark(*place)?;
        }
        Ok(())
    }

    /// Marks a point, and lets it wait if it was not marked yet.
    fn mark(&mut self, place: usize) -> Result<(), AllocError>
        requires { place < length self.old.marked.items }
        ensures { OnOk result (MarksAll (place ∷ []) self.old self.new) }
    {
        if !self.marked[place] {
            self.waiting.push(place)?;
            self.marked[place] = true;
        }
        Ok(())
    }
}
