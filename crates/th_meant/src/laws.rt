//! Laws that relate the definitions to one another. They call nothing of the code.
ghost use Rattle.std.specs.Prelude.{◌≡◌, ◌≢◌, ℕ, ◌≤◌, ◌<◌, ◌⊎◌, ℤ, List, [], true, Contains, length};
ghost use Rattle.std.specs.List.{AllPairs, list_all};
ghost use Rattle.th_units.specs.Lengths.{is_digit};
ghost use Rattle.th_meant.specs.Inside.Nearest.{meant_in};
ghost use Rattle.th_meant.specs.Limits.{max_named};
ghost use Rattle.th_meant.specs.Meant.{AreCandidates, AreNamed, IsCandidate};
ghost use Rattle.th_meant.specs.Ranges.{is_nearer, is_within};
ghost use Rattle.th_meant.specs.Slips.{IsSlip, IsSlipOf};
ghost use Rattle.th_meant.specs.declared.proposed.Proposed.{Proposed};
ghost use Rattle.th_meant.specs.declared.typed.Typed.{Typed};

use crate::limits::MAX_NAMED;

/// The constant is the limit that contracts cite.
pub fn constant_is_the_limit()
    ensures { MAX_NAMED ≡ max_named }
{}

/// Each height that is named fits, and is not the given one. None is named twice: each is nearer to the
/// middle than those behind it.
pub fn named_heights_fit()
    ensures fits { (typed : Typed) (others : List ℤ) (proposed : Proposed) (named : List ℤ) (height : ℤ)
        → AreNamed typed others proposed named → Contains named height
        → (is_within proposed height ≡ true) × (height ≢ typed.given) }
    ensures few { (typed : Typed) (others : List ℤ) (proposed : Proposed) (named : List ℤ)
        → AreNamed typed others proposed named → length named ≤ max_named }
    ensures ordered { (typed : Typed) (others : List ℤ) (proposed : Proposed) (named : List ℤ)
        → AreNamed typed others proposed named
        → AllPairs (λ one other. is_nearer proposed one other ≡ true) named }
    ensures apart { (proposed : Proposed) (one other : ℤ) → is_nearer proposed one other ≡ true → one ≢ other }
{}

/// Each height that is named may have been meant.
pub fn named_are_candidates()
    ensures { (typed : Typed) (others : List ℤ) (proposed : Proposed) (named : List ℤ) (height : ℤ)
        → AreNamed typed others proposed named → Contains named height → IsCandidate typed others proposed height }
{}

/// A height that may have been meant is named, unless these are more than three.
pub fn meant_height_is_named()
    ensures { (typed : Typed) (others : List ℤ) (proposed : Proposed) (named : List ℤ) (meant : ℤ)
        → AreNamed typed others proposed named → IsCandidate typed others proposed meant
        → Contains named meant
        ⊎ ((named ≡ []) × (heights : List ℤ) × AreCandidates typed others proposed heights × (max_named < length heights)) }
{}

/// Whoever typed a slip of some digits meant a slip of those that are there.
pub fn slips_go_both_ways()
    ensures back { (meant typed : List ℕ) → list_all is_digit meant ≡ true → IsSlip meant typed → IsSlip typed meant }
    ensures digits { (digits slip : List ℕ) → list_all is_digit digits ≡ true → IsSlip digits slip → list_all is_digit slip ≡ true }
    ensures length { (digits slip : List ℕ) → IsSlip digits slip → length slip ≡ length digits }
    ensures another { (digits slip : List ℕ) → IsSlip digits slip → slip ≢ digits }
{}

/// Only one list of heights is named.
pub fn named_are_one()
    ensures { (typed : Typed) (others : List ℤ) (proposed : Proposed) (one other : List ℤ)
        → AreNamed typed others proposed one → AreNamed typed others proposed other → one ≡ other }
{}

/// The heights that are computed are those that are named.
pub fn computed_are_named()
    ensures { (typed : Typed) (others : List ℤ) (proposed : Proposed)
        → AreNamed typed others proposed (meant_in typed others proposed) }
{}
