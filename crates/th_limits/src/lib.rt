//! The limits that several crates share, and what follows from them.
//!
//! A limit is a constant in `limits.rt` and a number in `specs/Limits.antt`, and `laws` proves the
//! two equal. Bounds are computed from limits, here and in the crates above. A crate whose callers
//! have to know a limit passes it on, as `th_network::MAX_POINTS`.
#![tactic(auto)]

mod limits;

// Laws of the definitions.
pub mod laws;

pub use limits::{
    CALLS_BEFORE, LARGEST_DIFFERENCE, LARGEST_LINK_DIFFERENCE, MAX_BOOKS, MAX_CALLS, MAX_LEN,
    MAX_OBSERVATIONS, MAX_POINTS, MAX_WEIGHT,
};
