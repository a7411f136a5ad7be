//! What is said of sights, heights and benchmarks.
use th_remarks::Outlier;

/// Where a sight belongs, once it is known which numbers explain most. A sight is in the first group that fits.
#[derive(Clone, Copy, Debug, PartialEq, Eq)]
pub enum Group {
    /// A number that explains most has it.
    Question,
    /// It is marked, and stays so whichever of these numbers is put right.
    Stays,
    /// It is marked, and is no more once one of these numbers is put right.
    Cleared,
    /// It is not marked, but far beyond the usual residual, and nothing else is wrong.
    Unlike,
    /// It fits.
    Fits,
}

/// The heights of a point that one of the numbers moves, in units of 10 nm.
#[derive(Clone, Copy, Debug)]
pub struct Moved {
    /// The lowest of its heights once one of the numbers is put right.
    pub low: i64,
    /// The highest of them.
    pub high: i64,
}

/// What the other benchmarks say of the height of one.
#[derive(Clone, Copy, Debug)]
pub enum Others {
    /// Nothing: no sights lead from it to another benchmark.
    Nothing,
    /// Its height fits them as well as any height within reach.
    Fits,
    /// Other heights fit them better, best from `low` to `high`, in units of 10 nm.
    Differ {
        /// The lowest of the heights that fit best.
        low: i64,
        /// The highest of them.
        high: i64,
    },
}

/// What explanations mean for a survey.
#[derive(Drop)]
pub struct Answer {
    /// For each observation its group.
    pub groups: Vec<Group>,
    /// For each point its heights, if a number that explains most moves it by more than the limit of blunders.
    pub moved: Vec<Option<Moved>>,
    /// For each point the height that a picture shows: where one number alone explains most, the one that the point has
    /// once it is put right; else the lowest of its best heights. In units of 10 nm.
    pub drawn: Vec<i64>,
    /// For the first rows of benchmarks, in their order, what the others say.
    pub others: Vec<Others>,
    /// The sight that is far beyond the usual residual, though it is not marked.
    pub outlier: Option<Outlier>,
}
