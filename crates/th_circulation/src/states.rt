//! The differences, heights and flows that a phase of a settling works on.

/// The flows of a settling, and the heights that they are to show for the differences of a phase.
#[derive(Drop)]
pub(crate) struct State {
    /// The difference of each link in this phase.
    pub differences: Vec<i64>,
    /// The height of each vertex.
    pub heights: Vec<i64>,
    /// The flow of each link.
    pub flows: Vec<i64>,
}
