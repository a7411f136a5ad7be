//! Laws that relate the definitions to one another. A law is its contract: it computes nothing.

ghost use Rattle.std.specs.Prelude.{◌≡◌, ◌↔◌, ◌⊎◌, bytes_eq, Contains, IsSome, ℕ, ℤ, ◌-ℤ◌, List, None, Some, slice_get};
ghost use Rattle.std.specs.List.{IsDistinct};
ghost use Rattle.th_observations.specs.Observed.{Observed};
ghost use Rattle.th_tables.specs.Rows.{BenchmarkRows, WeightRows, height_of};
ghost use Rattle.th_network.specs.Faults.{HasFault, IsNetwork};
ghost use Rattle.th_network.specs.declared.faults.NetFault.{NetFault};
ghost use Rattle.th_network.specs.Heights.{IsHeights, residual, Least, LeastFine};
ghost use Rattle.th_network.specs.Circulation.{Circulation, Shows};
ghost use Rattle.th_network.specs.Links.{IsRelative, link_difference};
ghost use Rattle.th_points.specs.Points.{ends, points};
ghost use Rattle.th_network.specs.Vertices.{vertex_at, vertex_of};

/// Observations and benchmarks have at most one fault, and none if they make a network.
pub fn faults_exclude_each_other()
    ensures one { (observations : List Observed) (benchmarks : BenchmarkRows)
        (first second : NetFault)
        → HasFault observations benchmarks first
        → HasFault observations benchmarks second
        → first ≡ second }
    ensures none { (observations : List Observed) (benchmarks : BenchmarkRows)
        → IsNetwork observations benchmarks
        → (fault : NetFault) → ¬ HasFault observations benchmarks fault }
{}

/// A circulation that shows heights proves that no others cost less, in whole units or finer ones.
///
/// This is complementary slackness (Ahuja, Magnanti and Orlin, Network Flows, section 9.3), used
/// for least absolute residuals: whatever the heights, each weighted size of a residual is at least
/// the flow times that residual. The flows are in balance, so the sum of these products is the same
/// for all heights that keep the benchmarks. At the heights that are shown it is their cost.
pub fn circulation_shows_least()
    ensures { (observations : List Observed) (benchmarks : BenchmarkRows) (weights : WeightRows)
        (heights : List ℕ → ℤ) (flows : List ℤ)
        → IsHeights benchmarks heights
        → Circulation observations benchmarks weights flows
        → Shows observations weights flows heights
        → LeastFine observations benchmarks weights heights }
{}

/// Heights that are least in every finer unit are least among whole numbers.
pub fn least_in_finer_units_is_least()
    ensures { (observations : List Observed) (benchmarks : BenchmarkRows) (weights : WeightRows)
        (heights : List ℕ → ℤ)
        → LeastFine observations benchmarks weights heights
        → Least observations benchmarks weights heights }
{}

/// An observation's residual is that of its link, with heights relative to the benchmarks: the
/// benchmarks' heights may be removed from the differences, and every benchmark set to zero.
pub fn link_keeps_residual()
    ensures { (o : Observed) (benchmarks : BenchmarkRows) (heights relative : List ℕ → ℤ)
        → IsHeights benchmarks heights
        → IsRelative benchmarks heights relative
        → residual o heights
        ≡ link_difference benchmarks o -ℤ (relative o.target -ℤ relative o.station) }
{}

/// Vertices number the points that are no benchmark: each has one of its own, and it is one more than
/// how many of them come before it.
pub fn vertices_number_points()
    ensures place { (observations : List Observed) (benchmarks : BenchmarkRows)
        (place : ℕ) (name : List ℕ)
        → slice_get (points observations benchmarks) place ≡ Some name
        → vertex_of observations benchmarks name
        ≡ vertex_at benchmarks (points observations benchmarks) place name }
    ensures apart { (observations : List Observed) (benchmarks : BenchmarkRows)
        (j k : ℕ) (first second : List ℕ)
        → slice_get (points observations benchmarks) j ≡ Some first
        → slice_get (points observations benchmarks) k ≡ Some second
        → height_of benchmarks first ≡ None
        → height_of benchmarks second ≡ None
        → vertex_of observations benchmarks first ≡ vertex_of observations benchmarks second
        → first ≡ second }
{}
