//! All remarks on a network and its residuals.
ghost use Rattle.std.specs.Prelude.{◌≤◌, length};
ghost use Rattle.th_limits.specs.Limits.{max_books, max_points};

use crate::cases::Alike;
use crate::heights::ManyHeights;
use crate::repeats::Repeat;
use crate::residuals::{Marks, Outlier};

/// What a surveyor should know of a survey and its adjustment.
#[derive(Drop)]
pub struct Remarks {
    /// The books of which many sights are in an earlier one.
    pub repeats: Vec<Repeat>,
    /// If points have more than one best height.
    pub heights: Option<ManyHeights>,
    /// If sights are marked.
    pub marks: Option<Marks>,
    /// If a sight is far beyond the others, and not marked.
    pub outlier: Option<Outlier>,
    /// The points whose names are those of earlier points, but for upper and lower case.
    pub alike: Vec<Alike>,
    ghost few_books: { length repeats.items ≤ max_books },
    ghost few_points: { length alike.items ≤ max_points },
}
