//! What a surveyor should know of a run that was not refused, though it ends with status 0: points have
//! more than one best height, sights are marked, one is far beyond the others though it is not, a book has
//! the sights of another one, names differ only in upper and lower case.
#![tactic(auto)]

// Points with more than one best height.
mod gaps;
mod heights;

// Marked sights, and one that no limit marks.
mod marked;
mod outlying;
mod residuals;

// Books with sights of earlier ones.
mod repeats;

// Names that differ only in upper and lower case.
mod cases;

// All of these.
mod collected;
mod collecting;

pub use cases::{Alike, PointAt, alike_in};
pub use collected::Remarks;
pub use gaps::many_heights;
pub use heights::ManyHeights;
pub use marked::marks_of;
pub use outlying::{is_far_beyond, outlier_of, usual_of, weighted_size};
pub use repeats::{Repeat, repeats_in};
pub use residuals::{Marks, Outlier};
