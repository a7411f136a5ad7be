//! The points in the picture.
ghost use Rattle.std.specs.Prelude.{◌≡◌, ◌++◌, OnOk};
ghost use Rattle.std.specs.List.{enumerate_from, flat_map};
ghost use Rattle.th_picture.specs.Points.{benchmark_shape, circle_text, dot_shape, dot_title, has_play, is_lowest, low_if, low_text, play_of, play_shape, point_lines, point_shape, radius_text, title_text};

use crate::coordinates::write_pair;
use crate::drawn::DrawnPoint;
use crate::groups::FEW;
use crate::scales::{Frame, x_of};
use std::alloc::AllocError;
use th_columns::Page;
use th_html::{write_escaped, write_height, write_number};

/// Dots of more points would hide the sights, and are too small to be pointed at.
const MANY: u64 = 1_000;

/// Writes all points, in point order.
#[tactic(auto, unfolding(crate::specs::Points::point_lines))]
pub(crate) fn write_points(
    page: &mut Page,
    frame: &Frame,
    points: &[DrawnPoint],
) -> Result<(), AllocError>
    ensures { OnOk result (page.new ≡ page.old ++ point_lines frame.now points.now) }
{
    page.add(b"<g class=\"dots\">\n")?;
    write_shapes(page, frame, points)?;
    page.add(b"</g>\n")
}

/// Writes the shape of each point.
fn write_shapes(page: &mut Page, frame: &Frame, points: &[DrawnPoint]) -> Result<(), AllocError>
    ensures { OnOk result (page.new
        ≡ page.old ++ flat_map (point_shape frame.now) (enumerate_from 0 points.now)) }
{
    for (k, point) in points.iter().enumerate() {
        write_shape(page, frame, k as u64, point)?;
    }
    Ok(())
}

/// Writes the shape of point `k`, from 0.
fn write_shape(page: &mut Page, frame: &Frame, k: u64, point: &DrawnPoint) -> Result<(), AllocError>
    ensures { OnOk result (page.new ≡ page.old ++ point_shape frame.now (k, point.now)) }
{
    let x = x_of(k, frame.points);
    let y = frame.scale.height_y(point.height);
    match point.row.strength {
        Some(_) => write_dot(page, frame, x, y, point),
        None => write_benchmark(page, x, y, point),
    }
}

/// Writes a benchmark.
#[tactic(auto, unfolding(crate::specs::Points::benchmark_shape))]
fn write_benchmark(page: &mut Page, x: u32, y: u32, point: &DrawnPoint) -> Result<(), AllocError>
    ensures { OnOk result (page.new ≡ page.old ++ benchmark_shape x y point.now) }
{
    write_pair(
        page,
        b"<path class=\"k\" d=\"M",
        u64::from(x),
        u64::from(y.saturating_sub(75)),
    )?;
    page.add(b"l70 120h-140z\">")?;
    write_title(page, point)?;
    page.add(b"</path>\n")
}

/// Writes another point.
#[tactic(auto, unfolding(crate::specs::Points::dot_shape))]
fn write_dot(
    page: &mut Page,
    frame: &Frame,
    x: u32,
    y: u32,
    point: &DrawnPoint,
) -> Result<(), AllocError>
    ensures { OnOk result (page.new ≡ page.old ++ dot_shape frame.now x y point.now) }
{
    write_play_of(page, frame, x, y, point)?;
    write_circle(page, x, y, radius_text(frame.points))?;
    write_dot_title(page, frame.points, point)?;
    page.add(b"</circle>\n")
}

/// Writes the title of a dot, among so many points.
fn write_dot_title(page: &mut Page, count: u64, point: &DrawnPoint) -> Result<(), AllocError>
    ensures { OnOk result (page.new ≡ page.old ++ dot_title count point.now) }
{
    if count <= MANY {
        write_title(page, point)
    } else {
        Ok(())
    }
}

/// Writes how high the best heights of a point reach, if it is drawn at the lowest of them and they differ.
fn write_play_of(
    page: &mut Page,
    frame: &Frame,
    x: u32,
    y: u32,
    point: &DrawnPoint,
) -> Result<(), AllocError>
    ensures { OnOk result (page.new ≡ page.old ++ play_of frame.now x y point.now) }
{
    if has_play(point) {
        write_play(page, x, y, frame.scale.height_y(point.row.high))
    } else {
        Ok(())
    }
}

/// Whether a point is drawn at the lowest of its best heights.
fn is_lowest(point: &DrawnPoint) -> bool
    ensures { result ≡ is_lowest point.now }
{
    point.height == point.row.low
}

/// Whether a point is drawn at the lowest of its best heights, and these differ.
fn has_play(point: &DrawnPoint) -> bool
    ensures { result ≡ has_play point.now }
{
    is_lowest(point) && point.row.low < point.row.high
}

/// Writes how high the best heights of a point reach.
#[tactic(auto, unfolding(crate::specs::Points::play_shape))]
fn write_play(page: &mut Page, x: u32, y: u32, high: u32) -> Result<(), AllocError>
    ensures { OnOk result (page.new ≡ page.old ++ play_shape x y high) }
{
    write_pair(page, b"<path class=\"p\" d=\"M", u64::from(x), u64::from(y))?;
    page.add(b"V")?;
    write_number(page, u64::from(high))?;
    page.add(b"\"/>")
}

/// The radius of a dot, among so many points.
fn radius_text(count: u64) -> &'static [u8]
    ensures { result.now ≡ radius_text count }
{
    if count <= FEW {
        b"38"
    } else if count <= MANY {
        b"20"
    } else {
        b"6"
    }
}

/// Writes the beginning of a dot.
#[tactic(auto, unfolding(crate::specs::Points::circle_text))]
fn write_circle(page: &mut Page, x: u32, y: u32, radius: &[u8]) -> Result<(), AllocError>
    ensures { OnOk result (page.new ≡ page.old ++ circle_text x y radius.now) }
{
    page.add(b"<circle cx=\"")?;
    write_number(page, u64::from(x))?;
    page.add(b"\" cy=\"")?;
    write_number(page, u64::from(y))?;
    page.add(b"\" r=\"")?;
    page.add(radius)?;
    page.add(b"\">")
}

/// Writes the name of a point, with its height if it is drawn there.
#[tactic(auto, unfolding(crate::specs::Points::title_text))]
fn write_title(page: &mut Page, point: &DrawnPoint) -> Result<(), AllocError>
    ensures { OnOk result (page.new ≡ page.old ++ title_text point.now) }
{
    page.add(b"<title>")?;
    write_escaped(page, point.row.name.as_bytes())?;
    write_low_if(page, point)?;
    page.add(b"</title>")
}

/// Writes the lowest best height of a point behind a name, if the point is drawn there.
fn write_low_if(page: &mut Page, point: &DrawnPoint) -> Result<(), AllocError>
    ensures { OnOk result (page.new ≡ page.old ++ low_if point.now) }
{
    if is_lowest(point) {
        write_low(page, point)
    } else {
        Ok(())
    }
}

/// Writes the lowest best height of a point behind a name.
#[tactic(auto, unfolding(crate::specs::Points::low_text))]
fn write_low(page: &mut Page, point: &DrawnPoint) -> Result<(), AllocError>
    ensures { OnOk result (page.new ≡ page.old ++ low_text point.now) }
{
    page.add(b" ")?;
    write_height(page, point.row.low)
}
