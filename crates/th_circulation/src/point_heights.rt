//! The heights of points, from those of vertices; benchmarks keep their own.
ghost use Rattle.std.specs.Prelude.{◌≡◌, ◌<◌, All, length, unsigned_abs};
ghost use Rattle.th_circulation.specs.Inside.Bounds.{HaveSmallRises, raised_bound};
ghost use Rattle.th_search.specs.Distances.{AreWithin};
ghost use Rattle.th_circulation.specs.Inside.PointHeights.{ArePointHeights};
ghost use Rattle.th_network.specs.Limits.{height_limit};
ghost use Rattle.th_network.specs.Networks.{points_of, vertices_of};
ghost use Rattle.th_search.specs.Potentials.{value_at};

use th_network::Network;

/// Lists the height of each point: a benchmark's own, and of another point how far its vertex is above
/// vertex 0.
pub(crate) fn set_point_heights(network: &Network, heights: &[i64], listed: &mut [i64])
    requires heights { AreWithin (vertices_of network.now) raised_bound heights.now }
    requires rises { HaveSmallRises (vertices_of network.now) heights.now }
    requires each { length listed.old ≡ length (points_of network.now) }
    ensures point_heights { ArePointHeights network.now.observations network.now.benchmarks (value_at heights.now)
        listed.new }
    ensures in_range { All (λ height. unsigned_abs height < height_limit) listed.new }
{
    let level = heights[0];
    let vertices = network.point_vertices();
    for place in 0..listed.len() {
        listed[place] = match network.fixed(place) {
            Some(height) => height,
            None => heights[vertices[place] as usize] - level,
        };
    }
}
