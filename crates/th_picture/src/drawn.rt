//! Points and sights as the picture shows them.
ghost use Rattle.std.specs.Prelude.{◌≡◌, IfOk, slice_index_or};
ghost use Rattle.th_answer.specs.declared.answers.Group.TheVariants.{Fits};
ghost use Rattle.th_picture.specs.Drawn.{drawn_point, drawn_points, drawn_sight, drawn_sights, height_at};

use std::alloc::{AllocError, Global};
use th_answer::Group;
use th_review_rows::{ObservationRow, PointRow};

/// A point, and where it is drawn.
#[derive(Clone, Copy, Debug)]
pub struct DrawnPoint {
    pub row: PointRow,
    /// The height at which it is drawn, in units of 10 nm.
    pub height: i64,
}

/// A sight with its group, and where its ends are drawn.
#[derive(Clone, Copy, Debug)]
pub struct DrawnSight {
    pub row: ObservationRow,
    pub group: Group,
    /// The height at which its station is drawn, in units of 10 nm.
    pub station_height: i64,
    /// The height at which its target is drawn, in units of 10 nm.
    pub target_height: i64,
}

/// Points with the heights at which they are drawn, in point order. A point behind the end of the heights
/// is drawn at the lowest of its best heights.
pub fn drawn_points(
    alloc: Global,
    rows: &[PointRow],
    heights: &[i64],
) -> Result<Vec<DrawnPoint>, AllocError>
    ensures { IfOk result (λ points. points.items ≡ drawn_points rows.now heights.now) }
{
    let mut points = Vec::with_capacity(alloc, rows.len())?;
    for (k, row) in rows.iter().enumerate() {
        points.push(drawn_point(heights, k as u64, row))?;
    }
    Ok(points)
}

/// Point `k`, from 0.
fn drawn_point(heights: &[i64], k: u64, row: &PointRow) -> DrawnPoint
    ensures { result ≡ drawn_point heights.now (k, row.now) }
{
    DrawnPoint {
        row: *row,
        height: height_at(heights, k, row.low),
    }
}

/// Sights with their groups, in order, and with the heights at which points are drawn. A sight behind the
/// end of the groups fits.
pub fn drawn_sights(
    alloc: Global,
    rows: &[ObservationRow],
    groups: &[Group],
    heights: &[i64],
) -> Result<Vec<DrawnSight>, AllocError>
    ensures { IfOk result (λ sights. sights.items ≡ drawn_sights rows.now groups.now heights.now) }
{
    let mut sights = Vec::with_capacity(alloc, rows.len())?;
    for (k, row) in rows.iter().enumerate() {
        sights.push(drawn_sight(groups, heights, k, row))?;
    }
    Ok(sights)
}

/// Sight `k`, from 0.
fn drawn_sight(groups: &[Group], heights: &[i64], k: usize, row: &ObservationRow) -> DrawnSight
    ensures { result ≡ drawn_sight groups.now heights.now (k, row.now) }
{
    DrawnSight {
        row: *row,
        group: group_at(groups, k),
        station_height: height_at(heights, row.from.place, row.from.low),
        target_height: height_at(heights, row.to.place, row.to.low),
    }
}

/// The group of sight `k`, from 0.
fn group_at(groups: &[Group], k: usize) -> Group
    ensures { result ≡ slice_index_or groups.now k Fits }
{
    groups.get(k).copied().unwrap_or(Group::Fits)
}

/// The height of a place, from 0, or another one behind the end of the heights.
fn height_at(heights: &[i64], place: u64, other: i64) -> i64
    ensures { result ≡ height_at heights.now place other }
{
    heights.get(place as usize).copied().unwrap_or(other)
}
