//! Laws of the definitions and the constants. They call nothing of the code.

ghost use Rattle.std.specs.Prelude.{◌≡◌};
ghost use Rattle.th_limits.specs.Limits.{
  calls_before,
  largest_difference,
  largest_link_difference,
  max_books,
  max_calls,
  max_len,
  max_observations,
  max_points,
  max_weight,
};

use crate::limits::{
    CALLS_BEFORE, LARGEST_DIFFERENCE, LARGEST_LINK_DIFFERENCE, MAX_BOOKS, MAX_CALLS, MAX_LEN,
    MAX_OBSERVATIONS, MAX_POINTS, MAX_WEIGHT,
};

/// The constants are the limits that contracts cite.
pub fn constants_are_the_limits()
    ensures length { MAX_LEN ≡ max_len }
    ensures weight { MAX_WEIGHT ≡ max_weight }
    ensures observations { MAX_OBSERVATIONS ≡ max_observations }
    ensures points { MAX_POINTS ≡ max_points }
    ensures books { MAX_BOOKS ≡ max_books }
    ensures calls { MAX_CALLS ≡ max_calls }
    ensures before { CALLS_BEFORE ≡ calls_before }
    ensures difference { LARGEST_DIFFERENCE ≡ largest_difference }
    ensures link { LARGEST_LINK_DIFFERENCE ≡ largest_link_difference }
{}
