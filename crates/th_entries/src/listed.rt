//! Lists with a bound: the first of many things, and a count of all.
ghost use Rattle.std.specs.Prelude.{◌≡◌, ◌++◌, ◌∷◌, [], List, OnOk};
ghost use Rattle.th_entries.specs.Listed.{IsListed};

use crate::limits::MAX_LISTED;
use std::alloc::{AllocError, Global};

/// The first of some things, at most `MAX_LISTED`, and how many there are. So what is kept has a bound,
/// however many there are.
#[derive(Drop)]
pub struct Listed<T> {
    pub first: Vec<T>,
    /// How many there are. The count stops at 2^32 - 1.
    pub count: u32,
}

impl<T: Copy> Listed<T> {
    /// Nothing yet.
    pub fn new(alloc: Global) -> Listed<T>
        ensures { IsListed [] result }
    {
        Listed {
            first: Vec::new(alloc),
            count: 0,
        }
    }

    /// Takes one thing more: keeps it among the first, or else counts it alone.
    pub fn push(&mut self, thing: T) -> Result<(), AllocError>
        ensures { OnOk result ((before : List T) → IsListed before self.old
            → IsListed (before ++ thing ∷ []) self.new) }
    {
        if self.first.len() < MAX_LISTED {
            self.first.push(thing)?;
        }
        self.count = self.count.saturating_add(1);
        Ok(())
    }
}
