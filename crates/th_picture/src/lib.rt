//! The pictures of a page: a network seen from the side, and a strip of residuals, with a bar for each
//! sight.
//!
//! `write_picture` draws each point once, at the height that it is given, and each sight once, in the class of
//! its group: from its station to where it puts its target. `write_legend` says what the classes mean.
//! `write_strip` has the bar of each residual. Coordinates are tenths of a pixel. Each call adds the text of
//! a definition to a `Page`. Out of memory is the only failure.
#![tactic(auto)]

// Points and sights, and where they are.
mod drawn;
mod scales;

// Groups of sights.
mod groups;

// The parts of the picture, the picture, and its legend.
mod coordinates;
mod curves;
mod gaps;
mod legends;
mod names;
mod pictures;
mod points;

// The strip: its bars, and the lines and the labels around them.
mod bars;
mod strips;

// Laws of the definitions.
pub mod laws;

pub use drawn::{DrawnPoint, DrawnSight, drawn_points, drawn_sights};
pub use groups::{group_count, is_in, undrawn_count};
pub use legends::write_legend;
pub use pictures::write_picture;
pub use strips::{largest_of, write_strip};
