//! What is remarked on residuals: how many sights are marked, and which one is far beyond the others.
ghost use Rattle.std.specs.Prelude.{◌<◌};
ghost use Rattle.th_blunders.specs.Residuals.{residual_limit};

/// Sights are marked: their residuals are above the limit of blunders in size.
#[derive(Clone, Copy, Debug)]
pub struct Marks {
    /// How many sights are marked.
    pub count: u32,
    /// How many sights there are.
    pub sights: u32,
    /// The largest size of a residual, in units of 10 nm.
    pub largest: u64,
    ghost in_range: { largest < residual_limit },
}

/// The residual of a sight is not above the limit of blunders, and far above the usual one.
#[derive(Clone, Copy, Debug)]
pub struct Outlier {
    /// The book and the line of the sight, both from 1.
    pub book: u32,
    pub line: u32,
    /// The size of its residual, in units of 10 nm.
    pub size: u64,
    /// How many times its weighted size is as large as the usual one, rounded down.
    pub times: u32,
    /// A limit of blunders that marks it, in micrometres.
    pub limit: u32,
    ghost in_range: { size < residual_limit },
}
