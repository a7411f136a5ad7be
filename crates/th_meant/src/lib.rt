//! The height that somebody meant who keyed in another one.
//!
//! A height that was keyed in wrong is often the right one with another digit in one place, or with
//! two neighbouring digits exchanged. Or it is a height that is in force elsewhere, as where a pole was
//! not keyed in again. `meant_of` looks for such heights among those that fit the observations, and
//! names them where they are few.
//!
//! A row of `explain` with number 1 is a height that was keyed in, or a sight that uses a pole and perhaps an
//! instrument height of its own. `heights_named` looks for what may have been meant by each of these heights.
#![tactic(auto)]

// How many heights are named.
mod limits;

// A height as it was keyed in, its digits, and the slips of these.
mod slips;
mod typed;

// The heights that fit, and which of them are nearest to the middle.
mod nearest;
mod proposed;

// The heights that may have been meant.
mod meant;

// Laws of these heights.
pub mod laws;

// The heights of rows that were keyed in, what fits in their place, and what may have been meant by each of them.
mod keyed;
mod named;

// Laws of the heights that are named for rows.
pub mod row_laws;

pub use keyed::{Keyed, entry_of};
pub use limits::MAX_NAMED;
pub use meant::meant_of;
pub use named::heights_named;
pub use proposed::Proposed;
pub use typed::Typed;
