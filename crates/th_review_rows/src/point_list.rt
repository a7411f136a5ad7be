//! The rows of the points.
ghost use Rattle.std.specs.Prelude.{◌≡◌, ◌<◌, IfOk, length, unsigned_abs};
ghost use Rattle.th_network.specs.Heights.{heights_at};
ghost use Rattle.th_network.specs.Limits.{height_limit};
ghost use Rattle.th_network.specs.Networks.{AreAtPoints, points_of};
ghost use Rattle.th_review_rows.specs.Rows.{point_row_of, point_rows};

use crate::rows::PointRow;
use gsi_word::Name;
use std::alloc::{AllocError, Global};
use th_network::Network;

/// The rows of a network's points, with the lowest and the highest best heights, the strengths, and
/// the strengths where all weights are 1, each listed in point order.
pub(crate) fn point_rows(
    alloc: Global,
    network: &Network,
    low: &[i64],
    high: &[i64],
    strengths: &[Option<u32>],
    unit_strengths: &[Option<u32>],
) -> Result<Vec<PointRow>, AllocError>
    requires low { AreAtPoints network.now low.now }
    requires high { AreAtPoints network.now high.now }
    requires strengths { length strengths.now ≡ length (points_of network.now) }
    requires unit_strengths { length unit_strengths.now ≡ length (points_of network.now) }
    ensures { IfOk result (λ rows. rows.items ≡ point_rows network.now
        (heights_at (points_of network.now) low.now) (heights_at (points_of network.now) high.now)
        strengths.now unit_strengths.now) }
{
    let names = network.points();
    let mut rows = Vec::with_capacity(alloc, names.len())?;
    for (k, name) in names.iter().enumerate() {
        rows.push(point_row(name, low[k], high[k], strengths[k], unit_strengths[k]))?;
    }
    Ok(rows)
}

/// The row of a point.
fn point_row(
    name: &Name,
    low: i64,
    high: i64,
    strength: Option<u32>,
    unit_strength: Option<u32>,
) -> PointRow
    requires low { unsigned_abs low < height_limit }
    requires high { unsigned_abs high < height_limit }
    ensures { result ≡ point_row_of name.now low high strength unit_strength }
{
    PointRow {
        name: *name,
        low,
        high,
        spread: high - low,
        strength,
        alone: unit_strength == Some(1),
    }
}
