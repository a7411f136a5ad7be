//! The heights that fit, and which of them are nearest to their middle.
ghost use Rattle.std.specs.Prelude.{◌≡◌};
ghost use Rattle.th_meant.specs.Ranges.{from_middle, is_nearer, is_within};

/// The heights that fit the observations, from the lowest to the highest, in units of 10 nm.
#[derive(Clone, Copy, Debug)]
pub struct Proposed {
    pub low: i64,
    pub high: i64,
    /// How far below or above them a height still counts, in units of 10 nm.
    pub tolerance: u64,
}

impl Proposed {
    /// Whether a height counts: it is among those that fit, or at most the tolerance outside.
    pub(crate) fn hold(&self, height: i64) -> bool
        ensures { result ≡ is_within self.now height }
    {
        let tolerance = i128::from(self.tolerance);
        let height = i128::from(height);
        i128::from(self.low) - tolerance <= height && height <= i128::from(self.high) + tolerance
    }

    /// Whether a height is nearer to the middle than another. Of two equally near ones the smaller is.
    pub(crate) fn is_nearer(&self, one: i64, other: i64) -> bool
        ensures { result ≡ is_nearer self.now one other }
    {
        let own = self.from_middle(one);
        let others = self.from_middle(other);
        own < others || (own == others && one < other)
    }

    /// Twice the distance of a height from the middle.
    fn from_middle(&self, height: i64) -> u128
        ensures { result ≡ from_middle self.now height }
    {
        let twice = i128::from(height) + i128::from(height);
        let ends = i128::from(self.low) + i128::from(self.high);
        (twice - ends).unsigned_abs()
    }
}
