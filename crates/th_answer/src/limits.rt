//! Limits.
ghost use Rattle.std.specs.Prelude.{◌≡◌};
ghost use Rattle.th_answer.specs.Limits.{asked_benchmarks};

/// So many benchmarks, the first of the table, are compared with the others at most.
pub const MOST_BENCHMARKS: usize = 100;

/// So many benchmarks times the square of the observations at most: comparing one takes the longer, the more observations
/// there are, and the more of them end at it.
pub const MOST_ASKED: usize = 1_600_000_000;

/// How many benchmarks at most, the first of the table, are compared in a survey of so many observations.
pub(crate) fn asked_benchmarks(observations: usize) -> usize
    ensures { result ≡ asked_benchmarks observations }
{
    let some = observations.max(1);
    MOST_BENCHMARKS.min(MOST_ASKED / some / some)
}
