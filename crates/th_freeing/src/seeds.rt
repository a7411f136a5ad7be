//! What is kept of a number that was freed, so that others are freed in few pivots.

/// Flows to start from, and where they were found.
#[derive(Clone, Copy)]
pub struct Start<'a> {
    /// The flow of each link, in their order.
    pub flows: &'a [i64],
    pub seed: &'a Seed,
}

/// A tree of flows, and the change of the number for which they were found.
#[derive(Drop)]
pub struct Seed {
    /// The places of the links of the tree.
    pub(crate) tree: Vec<u32>,
    /// The size of the change.
    pub(crate) size: u64,
}
