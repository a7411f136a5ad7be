//! Gaps between lowest and highest best heights, and a note where one is above the limit.
ghost use Rattle.std.specs.Prelude.{◌≡◌, ◌<◌, ◌*◌, All, length, unsigned_abs};
ghost use Rattle.th_network.specs.Limits.{height_limit};
ghost use Rattle.th_network.specs.Networks.{AreAtPoints};
ghost use Rattle.th_remarks.specs.Heights.{IsHeightsNote, gap_at};

use crate::heights::ManyHeights;
use th_network::Network;

/// The note of a network whose lowest and highest best heights are further apart at some point than a
/// limit. Both lists are in point order, and all lengths in units of 10 nm.
pub fn many_heights(network: &Network, low: &[i64], high: &[i64], limit: i64) -> Option<ManyHeights>
    requires low { AreAtPoints network.now low.now }
    requires high { AreAtPoints network.now high.now }
    ensures { IsHeightsNote network.now low.now high.now limit result }
{
    let names = network.points();
    let mut points = 0;
    let mut apart = 0;
    let mut place = 0;
    for k in 0..low.len() {
        let gap = gap_at(low, high, k);
        if gap > 0 {
            points += 1;
        }
        if gap > apart {
            apart = gap;
            place = k;
        }
    }
    if apart == 0 || apart <= limit {
        return None;
    }
    Some(ManyHeights {
        points,
        apart,
        name: names[place],
    })
}

/// How much the highest height of a point is above its lowest.
fn gap_at(low: &[i64], high: &[i64], place: usize) -> i64
    requires within { place < length low.now }
    requires each { length high.now ≡ length low.now }
    requires low { All (λ height. unsigned_abs height < height_limit) low.now }
    requires high { All (λ height. unsigned_abs height < height_limit) high.now }
    ensures gap { result ≡ gap_at low.now high.now place }
    ensures small { unsigned_abs result < 2 * height_limit }
{
    high[place] - low[place]
}
