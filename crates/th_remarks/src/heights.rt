//! The note that points have more than one best height, with their count and the widest gap.
ghost use Rattle.std.specs.Prelude.{◌<◌, ◌*◌, unsigned_abs};
ghost use Rattle.th_network.specs.Limits.{height_limit};

use gsi_word::Name;

/// Points have more than one best height.
#[derive(Clone, Copy, Debug)]
pub struct ManyHeights {
    /// How many points.
    pub points: u32,
    /// How far the lowest and the highest best height are apart at most, in units of 10 nm.
    pub apart: i64,
    /// The first point where they are that far apart.
    pub name: Name,
    ghost in_range: { unsigned_abs apart < 2 * height_limit },
}
