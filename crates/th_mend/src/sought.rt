//! The changes that are sought in a book, and what is known of them.
ghost use Rattle.std.specs.Prelude.{◌≤◌, length};
ghost use Rattle.th_mend.specs.Limits.{max_changes};

use crate::changes::Change;
use crate::forces::Forces;
use crate::spots::Spot;

/// A change, and what is known of it once its line was seen.
#[derive(Clone, Copy, Debug)]
pub(crate) struct Sought {
    pub(crate) change: Change,
    pub(crate) spot: Option<Spot>,
}

/// Finds the lines that changes reach: a witness of the reading of a book. Of a line it keeps nothing.
#[derive(Drop)]
pub struct Locating {
    pub(crate) place: u32,
    pub(crate) forces: Forces,
    pub(crate) sought: Vec<Sought>,
    ghost few: { length sought.items ≤ max_changes },
}
