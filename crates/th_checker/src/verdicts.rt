//! Verdicts on a certificate, and the reasons to reject it, with their texts.
use gsi_word::Name;
use std::fmt;

/// Why the checker rejects a certificate. It returns the first reason that applies, in this order.
/// Observations are numbered from 1.
#[derive(Clone, Copy, Debug, PartialEq, Eq)]
pub enum Reason {
    /// The names of a map are not exactly the points of the network.
    PointsDiffer,
    /// A map does not keep the height of a benchmark.
    BenchmarkMoved,
    /// There is not one flow for each observation.
    FlowCount,
    /// The flow of this observation is above its weight in size.
    FlowTooLarge(u32),
    /// At this point, which is no benchmark, not as much flow arrives as leaves.
    Unbalanced(Name),
    /// The flow of this observation is not its whole weight with the sign of its residual, which is
    /// not zero.
    NotSlack(u32),
    /// The stated cost is not what the heights cost.
    WrongCost,
    /// The same as `NotSlack`, for the lowest heights.
    LowNotSlack(u32),
    /// The same as `NotSlack`, for the highest heights.
    HighNotSlack(u32),
}

/// What the checker returns for a certificate.
#[derive(Clone, Copy, Debug, PartialEq, Eq)]
pub enum Verdict {
    /// No heights cost less than those of the certificate.
    Yes,
    /// The checker rejects the certificate for this reason.
    No(Reason),
}

impl fmt::Display for Reason {
    ghost use Rattle.std.specs.Prelude.{Some};
    ghost use Rattle.th_checker.specs.Texts.{reason_text};

    ghost output = { λ reason. Some (reason_text reason) };

    fn fmt<W: fmt::Write>(&self, f: &mut fmt::Formatter<W>) -> fmt::Result {
        match self {
            Reason::PointsDiffer => f.write_str("points differ"),
            Reason::BenchmarkMoved => f.write_str("benchmark moved"),
            Reason::FlowCount => f.write_str("flow count"),
            Reason::FlowTooLarge(number) => write!(f, "flow too large at {number}"),
            Reason::Unbalanced(name) => write!(f, "unbalanced at {name}"),
            Reason::NotSlack(number) => write!(f, "not slack at {number}"),
            Reason::WrongCost => f.write_str("wrong cost"),
            Reason::LowNotSlack(number) => write!(f, "low not slack at {number}"),
            Reason::HighNotSlack(number) => write!(f, "high not slack at {number}"),
        }
    }
}

impl fmt::Display for Verdict {
    ghost use Rattle.std.specs.Prelude.{Some};
    ghost use Rattle.th_checker.specs.Texts.{verdict_text};

    ghost output = { λ verdict. Some (verdict_text verdict) };

    fn fmt<W: fmt::Write>(&self, f: &mut fmt::Formatter<W>) -> fmt::Result {
        match self {
            Verdict::Yes => f.write_str("yes"),
            Verdict::No(reason) => write!(f, "no: {reason}"),
        }
    }
}
