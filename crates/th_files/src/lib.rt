//! The files of a run over a folder: which spot each input and output has, their sources and sinks, and
//! whether an output would overwrite an input.
#![tactic(auto)]

// The sources of a run, and the sinks of its outputs.
mod opening;
mod outputs;

// Outputs that would overwrite an input.
mod overwrites;

pub use opening::{Sources, names_of, names_of_claim, sources_of};
pub use outputs::{close_sinks, place_sinks, sinks_of};
pub use overwrites::{Overwrite, Stop, keep_all};
