//! What is asked of a number, and what is answered.

/// What is asked of a number that is freed.
#[derive(Clone, Copy)]
pub struct Task {
    /// If it is given, it is first tried whether no change beyond this limit is needed.
    pub limit: Option<u64>,
    /// What the number is known to explain at least: 0 if nothing is known.
    pub least: u64,
    /// If it is given, nothing more is looked for once the number explains no more than this.
    pub worth: Option<u64>,
}

/// What was found of a number. The flows of each answer are a proposal.
#[derive(Clone, Copy, Debug, PartialEq, Eq)]
pub enum Found {
    /// The net is turned. What is lost, less what the number explains at least, is at most the limit for each unit
    /// of the net: no change beyond the limit is needed.
    Mild,
    /// The net is turned, or nothing flows through the number, and the flows are best where it changes by the
    /// limit, at the near heights. No change beyond the limit is needed.
    Within,
    /// The net is turned, or nothing flows through the number. Mixed with the best flows so that nothing does, the
    /// flows lose no more than the number is to be worth.
    Costly,
    /// Nothing flows through the number, and the flows are best for changes of the sizes from `near` to `far`. At
    /// the near heights the flows before are as good, at the far heights those behind.
    Freed { near: u64, far: u64 },
}
