//! The ends, the difference, the weight and the flow of a link.

/// A link of a network. As much can flow against it as along it.
#[derive(Clone, Copy)]
pub struct Link {
    /// The vertices that it leads from and to, from 0.
    pub tail: u32,
    pub head: u32,
    /// What a unit of flow along it gains, and how far its head is to be above its tail, in any unit.
    pub difference: i64,
    /// The most that can flow along it, and against it.
    pub weight: u32,
    /// What flows along it now.
    pub flow: i64,
}

impl Link {
    /// A link from vertex 0 to itself, on which nothing can flow.
    pub const NONE: Link = Link {
        tail: 0,
        head: 0,
        difference: 0,
        weight: 0,
        flow: 0,
    };
}
