//! Laws that relate the definitions to one another. They compute nothing.

ghost use Rattle.std.specs.Prelude.{◌≡◌, ℕ, ℤ, List, Ok, Some};
ghost use Rattle.th_observations.specs.Observed.{Observed};
ghost use Rattle.th_tables.specs.Rows.{AreBenchmarks, BenchmarkRows, WeightRows};
ghost use Rattle.th_network.specs.Heights.{LeastFine};
ghost use Rattle.th_network.specs.Networks.{Survey};
ghost use Rattle.th_certificate.specs.Certified.{Certified, HeightRows, stated_height};
ghost use Rattle.th_certificate.specs.Reading.{certificate_of};
ghost use Rattle.th_certificate.specs.Texts.{IsCertifiable, text_of_version_1, text_of_version_2};
ghost use Rattle.th_checker.specs.Accepted.{IsShown};
ghost use Rattle.th_checker.specs.Shown.{Shown};
ghost use Rattle.th_checker.specs.Verdicts.{verdict_of};
ghost use Rattle.th_checker.specs.declared.verdicts.Verdict.TheVariants.{Yes};

/// A yes implies that no heights cost less than those of the certificate, in whole units or in any
/// finer one. The same holds for its lowest and highest heights, if it has these.
pub fn yes_implies_least()
    ensures heights { (observations : List Observed) (benchmarks : BenchmarkRows)
        (weights : WeightRows) (certificate : Certified)
        → verdict_of observations benchmarks weights certificate ≡ Yes
        → LeastFine observations benchmarks weights (stated_height certificate.heights) }
    ensures low { (observations : List Observed) (benchmarks : BenchmarkRows)
        (weights : WeightRows) (certificate : Certified) (rows : HeightRows)
        → verdict_of observations benchmarks weights certificate ≡ Yes
        → certificate.low ≡ Some rows
        → LeastFine observations benchmarks weights (stated_height rows) }
    ensures high { (observations : List Observed) (benchmarks : BenchmarkRows)
        (weights : WeightRows) (certificate : Certified) (rows : HeightRows)
        → verdict_of observations benchmarks weights certificate ≡ Yes
        → certificate.high ≡ Some rows
        → LeastFine observations benchmarks weights (stated_height rows) }
{}

/// The text written of heights that a circulation shows is read as a certificate, and the verdict on
/// it is yes.
pub fn text_is_read_and_accepted()
    ensures version_1 { (survey : Survey) (heights : List ℕ → ℤ) (flows : List ℤ)
        → IsCertifiable survey
        → AreBenchmarks survey.benchmarks
        → Shown survey heights flows
        → (certificate : Certified)
        × (certificate_of (text_of_version_1 survey heights flows) ≡ Ok certificate)
        × (verdict_of survey.observations survey.benchmarks survey.weights certificate ≡ Yes) }
    ensures version_2 { (survey : Survey) (heights low high : List ℕ → ℤ) (flows : List ℤ)
        → IsCertifiable survey
        → AreBenchmarks survey.benchmarks
        → Shown survey heights flows
        → Shown survey low flows
        → Shown survey high flows
        → (certificate : Certified)
        × (certificate_of (text_of_version_2 survey heights low high flows) ≡ Ok certificate)
        × (verdict_of survey.observations survey.benchmarks survey.weights certificate ≡ Yes) }
{}

/// The verdict is yes exactly where all of this holds. The names of each map of heights are the
/// points. Each map keeps the benchmarks. The flows are a circulation that shows each map. The cost
/// is that of the heights. This holds for both versions.
pub fn yes_is_said_of_what_is_shown()
    ensures shown { (observations : List Observed) (benchmarks : BenchmarkRows)
        (weights : WeightRows) (certificate : Certified)
        → verdict_of observations benchmarks weights certificate ≡ Yes
        → IsShown observations benchmarks weights certificate }
    ensures accepted { (observations : List Observed) (benchmarks : BenchmarkRows)
        (weights : WeightRows) (certificate : Certified)
        → AreBenchmarks benchmarks
        → IsShown observations benchmarks weights certificate
        → verdict_of observations benchmarks weights certificate ≡ Yes }
{}
