//! How heights of vertices change: raised by potentials, doubled for a phase, taken from a guide.
ghost use Rattle.std.specs.Prelude.{◌≡◌, ◌≤◌, ℕ, ◌-ℤ◌};
ghost use Rattle.th_circulation.specs.Inside.Bounds.{farthest, height_bound, raised_bound};
ghost use Rattle.th_search.specs.Distances.{AreWithin};
ghost use Rattle.th_search.specs.Potentials.{value_at};

use crate::limits::MOST_HEIGHT;
use th_guide::Guide;

/// Raises the height of each vertex by as much as its potential is below 0.
pub(crate) fn raise(heights: &mut [i64], potentials: &[i64], vertices: u32)
    requires heights { AreWithin vertices height_bound heights.old }
    requires potentials { AreWithin vertices farthest potentials.now }
    ensures each { (v : ℕ) → value_at heights.new v ≡ value_at heights.old v -ℤ value_at potentials.now v }
    ensures within { AreWithin vertices raised_bound heights.new }
{
    for (vertex, &potential) in potentials.iter().enumerate() {
        heights[vertex] -= potential;
    }
}

/// Doubles the heights above vertex 0, as far as costs that they reduce stay in range.
pub(crate) fn double(heights: &mut [i64], vertices: u32)
    requires some { 1 ≤ vertices }
    requires heights { AreWithin vertices raised_bound heights.old }
    ensures within { AreWithin vertices height_bound heights.new }
{
    let level = heights[0];
    for height in heights.iter_mut() {
        *height = (2 * (*height - level)).clamp(-MOST_HEIGHT, MOST_HEIGHT);
    }
}

/// Takes the heights of a guide, as far as costs that they reduce stay in range; 0 where it has none.
pub(crate) fn take(heights: &mut [i64], guide: &Guide, vertices: u32)
    requires heights { AreWithin vertices height_bound heights.old }
    ensures within { AreWithin vertices height_bound heights.new }
{
    for (vertex, height) in heights.iter_mut().enumerate() {
        *height = guide
            .height(vertex as u32)
            .unwrap_or(0)
            .clamp(-MOST_HEIGHT, MOST_HEIGHT);
    }
}

/// Takes given heights, as far as costs that they reduce stay in range; 0 where there is none.
pub(crate) fn take_given(heights: &mut [i64], given: &[i64], vertices: u32)
    requires heights { AreWithin vertices raised_bound heights.old }
    ensures within { AreWithin vertices height_bound heights.new }
{
    for (vertex, height) in heights.iter_mut().enumerate() {
        *height = given
            .get(vertex)
            .copied()
            .unwrap_or(0)
            .clamp(-MOST_HEIGHT, MOST_HEIGHT);
    }
}
