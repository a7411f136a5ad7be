//! Slots of residual arcs: the place of an observation, and the direction along its link.

/// A way to change the flow of one observation: along its link, or against it.
#[derive(Clone, Copy, Debug, PartialEq, Eq)]
pub(crate) struct Slot {
    /// The observation's place, from 0.
    pub place: u32,
    /// Whether it leads from the link's tail to its head.
    pub is_forward: bool,
}
