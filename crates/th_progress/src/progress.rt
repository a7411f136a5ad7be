//! The counts of a run, and the trait by which it shows how much of each is done.

/// What a run counts.
#[derive(Clone, Copy, Debug, PartialEq, Eq)]
pub enum Work {
    /// Least cuts, one for each point that is no benchmark.
    Cuts,
    /// Keyed-in heights.
    Entries,
    /// Numbers that somebody read or typed.
    Numbers,
}

impl Work {
    /// What it is called behind its number.
    pub fn name(self) -> &'static str {
        match self {
            Work::Cuts => "cuts",
            Work::Entries => "entries",
            Work::Numbers => "numbers",
        }
    }
}

/// Shows how far a run is.
pub trait Progress {
    /// Shows how many are done of all.
    fn show(&mut self, work: Work, done: usize, all: usize);

    /// Removes what is shown.
    fn clear(&mut self);
}

/// Shows nothing.
#[derive(Clone, Copy, Debug)]
pub struct Silent;

impl Progress for Silent {
    fn show(&mut self, _work: Work, _done: usize, _all: usize) {}

    fn clear(&mut self) {}
}
