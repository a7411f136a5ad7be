//! The names and signs that fit where rows with number 1 doubt what was written.
//!
//! In a *reading* of a survey a sight runs to another point, a setup is on another one, the row of a benchmark is that
//! of another point, or a word 33 has the other sign. What is read otherwise belongs to a number: a name of sights, or
//! the sign, to what is added to their differences, and the name in a row of the benchmarks to the height. The heights
//! of all points where that number is set free say which other names fit. `readings_of` finds them for the rows with
//! number 1 of an explanation, the nearest first. `specs/` has the definitions, and `laws` proves what they are for: a
//! reading explains no more than its number, and leaves little more if it fits.
#![tactic(auto)]

// How high points are above one of them, over all best heights: the residual arcs with its vertex in place of vertex 0,
// and distances along them.
mod arcs;
mod rises;
mod roots;

// The names that a row doubts.
mod doubts;
mod namings;

// How far points are from what is read, and which of them fit.
mod distances;
mod located;
mod nears;
mod signs;

// The readings of rows.
mod names;

// Laws of the definitions.
pub mod laws;

pub use doubts::Doubt;
pub use located::Located;
pub use names::readings_of;
pub use namings::Naming;
pub use nears::Near;
pub use rises::{Rises, rises_from};
