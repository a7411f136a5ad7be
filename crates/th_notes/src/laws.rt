//! Laws that relate the definitions to one another. They call nothing of the code.

ghost use Rattle.std.specs.Prelude.{◌≡◌, ◌<◌, ℕ, All, Bool, List, slice_index};
ghost use Rattle.th_notes.specs.Parts.{parts_of};
ghost use Rattle.th_points.specs.Ends.{AreBelow};

/// The numbers of parts tell which points observations join: both ends of each observation have one
/// number, and two points of one number are in the same sets of those that no observation crosses.
pub fn parts_are_what_observations_join()
    ensures joined { (count : ℕ) (ends : List (ℕ × ℕ)) → All (AreBelow count) ends →
        All (λ own. slice_index (parts_of count ends) own.0 ≡ slice_index (parts_of count ends) own.1) ends }
    ensures apart { (count : ℕ) (ends : List (ℕ × ℕ)) (inside : ℕ → Bool) (place other : ℕ) →
        All (AreBelow count) ends → All (λ own. inside own.0 ≡ inside own.1) ends → place < count → other < count →
        slice_index (parts_of count ends) place ≡ slice_index (parts_of count ends) other →
        inside place ≡ inside other }
{}
