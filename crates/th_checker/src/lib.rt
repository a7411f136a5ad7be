//! The verdict on a certificate of least heights, whoever made it.
//!
//! The checker goes over observations, tables and certificate once. It says yes only if the flows
//! show that the heights, and in version 2 the lowest and the highest heights, are least. It
//! computes balances and residuals itself, and knows nothing of how heights are found.
#![tactic(auto)]

// Verdicts.
mod verdicts;

// The heights that a certificate states for the points.
mod maps;

// The tests of each observation and at each point.
mod balances;
mod checking;
mod observations;

// Laws of the definitions.
pub mod laws;

pub use checking::check;
pub use verdicts::{Reason, Verdict};
