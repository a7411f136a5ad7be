//! The count of cycles that were cancelled, which may go on from an earlier count.
ghost use Rattle.std.specs.Prelude.{◌≡◌, ◌+◌, ◌<◌};
ghost use Rattle.th_search.specs.Limits.{max_calls};

use std::marker::Model;

/// How many steps were counted: one for each cycle that was cancelled.
#[derive(Debug, Drop)]
pub struct Steps {
    count: u128,
}

impl Model for Steps {
    ghost use Rattle.std.specs.Prelude.{ℕ};

    ghost Value = { ℕ };

    ghost view = { λ steps. steps.count };
}

impl Steps {
    /// No step yet.
    pub fn new() -> Steps
        ensures { result ≡ 0 }
    {
        Steps { count: 0 }
    }

    /// This many steps, for a caller that goes on from an earlier count.
    pub fn after(count: u128) -> Steps
        ensures { result ≡ count }
    {
        Steps { count }
    }

    /// How many steps were counted.
    pub fn count(&self) -> u128
        ensures { result ≡ self.now }
    {
        let Steps { count } = self;
        *count
    }

    /// Counts one step more.
    pub(crate) fn tick(&mut self)
        requires { self.old < max_calls }
        ensures { self.new ≡ self.old + 1 }
    {
        self.count += 1;
    }
}
