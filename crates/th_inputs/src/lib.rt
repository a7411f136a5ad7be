//! The inputs of a run as texts name them: which each is, how many bytes it has, their SHA-256, and the last
//! part of its name.
//!
//! `Sum` has what tells an input from others, and `Summing` makes it of pieces. Bytes of a name are written as
//! `shown_byte` shows them, so that none of them can send anything to a terminal. Out of memory is the only
//! failure.
#![tactic(auto)]

// Bytes as they are shown.
mod shown;

// Inputs, their sums, and their lines.
mod inputs;
mod sums;

pub use inputs::{Input, NamedInputs, write_inputs};
pub use shown::{ShownByte, shown_byte, shown_text};
pub use sums::{Sum, Summing, add_sum};
