//! Laws that relate the definitions to one another. A law is its contract: it computes nothing.

ghost use Rattle.std.specs.Prelude.{◌≡◌, ℕ, ℤ, ◌-ℤ◌, ◌≤ℤ◌, Bool, true, false, List, All, IsSome, unsigned_abs};
ghost use Rattle.std.specs.List.{AllZip};
ghost use Rattle.th_observations.specs.Observed.{Observed};
ghost use Rattle.th_circulation.specs.Between.{raised_up_to};
ghost use Rattle.th_circulation.specs.Extremes.{High, Low};
ghost use Rattle.th_circulation.specs.Inside.Cuts.{LeavesFull};
ghost use Rattle.th_circulation.specs.Misreadings.{AreMisread};
ghost use Rattle.th_network.specs.Circulation.{Circulation, Shows};
ghost use Rattle.th_circulation.specs.Settled.{AreShown};
ghost use Rattle.th_network.specs.Heights.{Least};
ghost use Rattle.th_network.specs.Networks.{Survey};
ghost use Rattle.th_points.specs.Points.{points};
ghost use Rattle.th_network.specs.Walks.{Anchored, IsTied};
ghost use Rattle.th_tables.specs.Rows.{AreWeights, BenchmarkRows, WeightRows, height_of};

/// A circulation that shows some heights shows those that are best, and no others.
///
/// The heights that it shows keep the benchmarks. So all best heights are found from one circulation.
pub fn circulation_shows_all_best()
    ensures shown { (survey : Survey) (flows : List ℤ) (heights best : List ℕ → ℤ)
        → AreShown survey flows heights
        → Least survey.observations survey.benchmarks survey.weights best
        → Shows survey.observations survey.weights flows best }
    ensures best { (survey : Survey) (flows : List ℤ) (heights : List ℕ → ℤ)
        → AreShown survey flows heights
        → Least survey.observations survey.benchmarks survey.weights heights }
{}

/// Raise the lowest best heights all by one amount, but none above the highest: the result is best.
///
/// So each height of a point between its lowest and its highest one belongs to some best heights. A
/// mixture is not always best: points move together. Any two heights that one circulation shows can
/// take the place of the lowest and the highest.
pub fn heights_between_are_best()
    ensures best { (survey : Survey) (low high : List ℕ → ℤ) (flows : List ℤ) (k : ℕ)
        → AreShown survey flows low
        → AreShown survey flows high
        → Least survey.observations survey.benchmarks survey.weights (raised_up_to k low high) }
    ensures reached { (low high : List ℕ → ℤ) (point : List ℕ) (height : ℤ)
        → low point ≤ℤ height
        → height ≤ℤ high point
        → raised_up_to (unsigned_abs (height -ℤ low point)) low high point ≡ height }
{}

/// A misreading that shows moves no lowest best height, however large it is.
///
/// `heights` are the lowest that cost least, and a circulation shows them. If each observation that
/// errs against them errs further to the same side, and each other one stays as it was, they are
/// still the lowest that cost least.
pub fn misreading_keeps_low()
    ensures { (observations misread : List Observed) (benchmarks : BenchmarkRows)
        (weights : WeightRows) (heights : List ℕ → ℤ) (flows : List ℤ)
        → Low observations benchmarks weights heights
        → Circulation observations benchmarks weights flows
        → Shows observations weights flows heights
        → AreMisread heights observations misread
        → Low misread benchmarks weights heights }
{}

/// If observations tie each point to a benchmark, there are lowest and highest best heights.
pub fn lowest_and_highest_exist()
    ensures low { (survey : Survey)
        → AreWeights survey.weights
        → Anchored survey.observations survey.benchmarks
        → (low : List ℕ → ℤ) × Low survey.observations survey.benchmarks survey.weights low }
    ensures high { (survey : Survey)
        → AreWeights survey.weights
        → Anchored survey.observations survey.benchmarks
        → (high : List ℕ → ℤ) × High survey.observations survey.benchmarks survey.weights high }
{}

/// The lowest best heights are one height for each point, and so are the highest.
pub fn lowest_and_highest_are_one()
    ensures low { (observations : List Observed) (benchmarks : BenchmarkRows)
        (weights : WeightRows) (first second : List ℕ → ℤ)
        → Low observations benchmarks weights first
        → Low observations benchmarks weights second
        → All (λ point. first point ≡ second point) (points observations benchmarks) }
    ensures high { (observations : List Observed) (benchmarks : BenchmarkRows)
        (weights : WeightRows) (first second : List ℕ → ℤ)
        → High observations benchmarks weights first
        → High observations benchmarks weights second
        → All (λ point. first point ≡ second point) (points observations benchmarks) }
{}

/// If all flows that leave or enter a set of names are full, out of it, and it holds no benchmark,
/// none of its points is tied to a benchmark.
pub(crate) fn full_flows_cut_off()
    ensures { (observations : List Observed) (benchmarks : BenchmarkRows) (weights : WeightRows)
        (flows : List ℤ) (inside : List ℕ → Bool)
        → AreWeights weights
        → Circulation observations benchmarks weights flows
        → ((name : List ℕ) → IsSome (height_of benchmarks name) → inside name ≡ false)
        → AllZip (LeavesFull inside weights) observations flows
        → (point : List ℕ) → inside point ≡ true → ¬ IsTied observations benchmarks point }
{}
