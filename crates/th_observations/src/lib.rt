//! What an observation is: a height difference from a station to a target, which books and tables
//! give and networks are made of.
#![tactic(auto)]

mod observations;

pub use observations::Observation;
