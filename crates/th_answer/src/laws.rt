//! Laws of the definitions and the constants. They call nothing of the code.
ghost use Rattle.std.specs.Prelude.{◌≡◌, ◌↔◌, ◌<ℤ◌, ◌-ℤ◌, ℕ, ℤ, pos, false, Any, IsSome, List, unsigned_abs};
ghost use Rattle.th_observations.specs.Observed.{Observed};
ghost use Rattle.th_answer.specs.Corrected.{Corrected};
ghost use Rattle.th_answer.specs.Groups.{Judged, group_of, is_in_question, is_marked};
ghost use Rattle.th_answer.specs.Limits.{most_asked, most_benchmarks};
ghost use Rattle.th_answer.specs.Moved.{moved_of};

use crate::answers::Group;
use crate::limits::{MOST_ASKED, MOST_BENCHMARKS};

/// The constants are the limits that contracts cite.
pub fn constants_are_the_limits()
    ensures benchmarks { MOST_BENCHMARKS ≡ most_benchmarks }
    ensures asked { MOST_ASKED ≡ most_asked }
{}

/// A sight that fits, or that is only unlike the others, is not marked, and none of the numbers that explain most has it.
pub fn sights_that_fit_are_unmarked()
    ensures fits { (own : Judged) (o : Observed) → group_of own o ≡ Group.Fits
        → (is_marked own o ≡ false) × (is_in_question own o ≡ false) }
    ensures unlike { (own : Judged) (o : Observed) → group_of own o ≡ Group.Unlike
        → (is_marked own o ≡ false) × (is_in_question own o ≡ false) }
{}

/// A height is said to move exactly if one of the rows, put right, moves it by more than the limit.
pub fn heights_move_with_a_row()
    ensures { (limit : ℤ) (heights : List ℕ → ℤ) (corrected : List Corrected) (point : List ℕ)
        → (IsSome (moved_of limit heights corrected point))
        ↔ Any (λ own. limit <ℤ pos (unsigned_abs (own.heights point -ℤ heights point))) corrected }
{}
