//! Laws that relate the definitions to one another. A law is its contract: it computes nothing.

ghost use Rattle.std.specs.Prelude.{◌↔◌, ◌⊎◌, bytes_eq, Contains, IsSome, ℕ, List};
ghost use Rattle.std.specs.List.{IsDistinct};
ghost use Rattle.th_observations.specs.Observed.{Observed};
ghost use Rattle.th_points.specs.Points.{ends, points};
ghost use Rattle.th_tables.specs.Rows.{BenchmarkRows, height_of};

/// The points are the ends of the observations and the benchmarks, each once.
pub fn points_are_ends_and_benchmarks()
    ensures each { (observations : List Observed) (benchmarks : BenchmarkRows) (name : List ℕ)
        → Contains (points observations benchmarks) name
        ↔ (Contains (ends observations) name ⊎ IsSome (height_of benchmarks name)) }
    ensures once { (observations : List Observed) (benchmarks : BenchmarkRows)
        → IsDistinct bytes_eq (points observations benchmarks) }
{}
