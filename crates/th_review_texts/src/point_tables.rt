//! The table of points.
ghost use Rattle.std.specs.Prelude.{◌≡◌, ◌++◌, OnOk, option_map};
ghost use Rattle.std.specs.List.{flat_map};
ghost use Rattle.th_review_texts.specs.Reviews.{largest_weight, point_columns, point_line, point_lines, withstood};

use itoa::Buffer;
use std::alloc::AllocError;
use th_columns::Page;
use th_network::Network;
use th_review_rows::{PointRow, number_or_dash, point_mark};
use th_units::metre_text;

/// Writes the table of points, given the largest weight of the observations.
#[tactic(auto, unfolding(crate::specs::Reviews::point_lines))]
pub(crate) fn write_points(
    page: &mut Page,
    points: &[PointRow],
    largest: u32,
) -> Result<(), AllocError>
    ensures { OnOk result (page.new ≡ page.old ++ point_lines largest points.now) }
{
    write_columns(
        page,
        b"POINT",
        b"HEIGHT",
        b"HIGH-LOW",
        b"STRENGTH",
        b"WITHSTANDS",
        b"",
    )?;
    write_rows(page, points, largest)
}

/// Writes the line of each point.
fn write_rows(page: &mut Page, points: &[PointRow], largest: u32) -> Result<(), AllocError>
    ensures { OnOk result (page.new ≡ page.old ++ flat_map (point_line largest) points.now) }
{
    for row in points {
        write_point(page, row, largest)?;
    }
    Ok(())
}

/// Writes the line of a point.
#[tactic(auto, unfolding(crate::specs::Reviews::point_line))]
fn write_point(page: &mut Page, row: &PointRow, largest: u32) -> Result<(), AllocError>
    ensures { OnOk result (page.new ≡ page.old ++ point_line largest row.now) }
{
    let height = metre_text(row.low);
    let spread = metre_text(row.spread);
    let mut strength = Buffer::new();
    let mut blunders = Buffer::new();
    write_columns(
        page,
        row.name.as_bytes(),
        height.as_bytes(),
        spread.as_bytes(),
        number_or_dash(&mut strength, row.strength),
        number_or_dash(&mut blunders, withstood(row.strength, largest)),
        point_mark(row.alone, row.spread != 0),
    )
}

/// How many wrong sights of the largest weight a point of this strength withstands.
fn withstood(strength: Option<u32>, largest: u32) -> Option<u32>
    ensures { result ≡ option_map (withstood largest) strength }
{
    match strength {
        Some(strength) => Some(strength.saturating_sub(1) / 2 / largest.max(1)),
        None => None,
    }
}

/// Writes the columns of points.
#[tactic(auto, unfolding(crate::specs::Reviews::point_columns))]
fn write_columns(
    page: &mut Page,
    name: &[u8],
    height: &[u8],
    spread: &[u8],
    strength: &[u8],
    withstands: &[u8],
    mark: &[u8],
) -> Result<(), AllocError>
    ensures { OnOk result (page.new ≡ page.old
        ++ point_columns name.now height.now spread.now strength.now withstands.now mark.now) }
{
    page.left_gap(16, name)?;
    page.right(20, height)?;
    page.gap_right(20, spread)?;
    page.gap_right(8, strength)?;
    page.gap_right(10, withstands)?;
    page.add(mark)?;
    page.end_line()
}

/// The largest weight of a network's observations; 0 if there are none.
pub(crate) fn largest_weight(network: &Network) -> u32
    ensures { result ≡ largest_weight network.now }
{
    let weights = network.weights();
    let mut largest = 0;
    for weight in weights {
        largest = largest.max(*weight);
    }
    largest
}
