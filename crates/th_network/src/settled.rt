//! What is found in a network: best heights with their circulation, and the span of each point.

/// Heights whose weighted sum of absolute residuals is least, and the circulation that shows it.
#[derive(Debug, Drop)]
pub struct Settled {
    /// The height of each point of a network, in point order, in units of 10 nm.
    pub heights: Vec<i64>,
    /// The flow of each observation, in their order.
    pub flows: Vec<i64>,
}

/// The span of each point of a network: its lowest and its highest height among all heights that cost
/// least, in point order, in units of 10 nm.
#[derive(Debug, Drop)]
pub struct Spans {
    /// The lowest best heights.
    pub low: Vec<i64>,
    /// The highest best heights.
    pub high: Vec<i64>,
}
