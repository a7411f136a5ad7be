//! The picture.
ghost use Rattle.std.specs.Prelude.{◌≡◌, ◌≤◌, ◌<◌, ◌^◌, ◌++◌, OnOk};
ghost use Rattle.std.specs.List.{flat_map};
ghost use Rattle.th_picture.specs.Lines.{label_end, line_open};
ghost use Rattle.th_picture.specs.Pictures.{drawing, frame_of, open_text, picture_text, scale_lines, tick_at, tick_text, turned_picture};

use crate::curves::write_groups;
use crate::drawn::{DrawnPoint, DrawnSight};
use crate::gaps::write_gaps;
use crate::names::{Turn, depth_of, longest_of, turn_of, write_names};
use crate::points::write_points;
use crate::scales::{Frame, RAISE, Scale};
use std::alloc::AllocError;
use th_columns::Page;
use th_html::{write_number, write_sized};

/// Writes the picture of points, in point order, and of sights.
pub fn write_picture(
    page: &mut Page,
    points: &[DrawnPoint],
    sights: &[DrawnSight],
) -> Result<(), AllocError>
    ensures { OnOk result (page.new ≡ page.old ++ picture_text points.now sights.now) }
{
    let frame = frame_of(points);
    let longest = longest_of(points);
    let turn = turn_of(frame.points, longest);
    write_turned(page, &frame, longest, turn, points, sights)
}

/// What the picture of some points is placed in.
fn frame_of(points: &[DrawnPoint]) -> Frame
    ensures { result ≡ frame_of points.now }
{
    Frame {
        scale: Scale::of(points),
        points: points.len() as u64,
    }
}

/// Writes the picture with names that stand in one way.
#[tactic(auto, unfolding(crate::specs::Pictures::turned_picture))]
fn write_turned(
    page: &mut Page,
    frame: &Frame,
    longest: u64,
    turn: Turn,
    points: &[DrawnPoint],
    sights: &[DrawnSight],
) -> Result<(), AllocError>
    requires { longest ≤ 16 }
    ensures { OnOk result (page.new
        ≡ page.old ++ turned_picture frame.now longest turn points.now sights.now) }
{
    write_open(page, 3_560 + depth_of(turn, longest))?;
    write_drawing(page, frame, turn, points, sights)
}

/// Writes what is drawn in a frame.
#[tactic(auto, unfolding(crate::specs::Pictures::drawing))]
fn write_drawing(
    page: &mut Page,
    frame: &Frame,
    turn: Turn,
    points: &[DrawnPoint],
    sights: &[DrawnSight],
) -> Result<(), AllocError>
    ensures { OnOk result (page.new
        ≡ page.old ++ drawing frame.now turn points.now sights.now) }
{
    write_scale(page, &frame.scale)?;
    write_names(page, frame, turn, points)?;
    write_groups(page, frame, sights)?;
    write_points(page, frame, points)?;
    write_gaps(page, frame, sights)?;
    page.add(b"</svg>\n")
}

/// Writes the beginning.
#[tactic(auto, unfolding(crate::specs::Pictures::open_text))]
fn write_open(page: &mut Page, height: u64) -> Result<(), AllocError>
    ensures { OnOk result (page.new ≡ page.old ++ open_text height) }
{
    page.add(b"<svg viewBox=\"0 0 8000 ")?;
    write_number(page, height)?;
    page.add(b"\" role=\"img\" aria-label=\"Heights of points and sights\">\n")
}

/// Writes the scale.
#[tactic(auto, unfolding(crate::specs::Pictures::scale_lines))]
fn write_scale(page: &mut Page, scale: &Scale) -> Result<(), AllocError>
    ensures { OnOk result (page.new ≡ page.old ++ scale_lines scale.now) }
{
    let lines = scale.lines();
    page.add(b"<g class=\"n e\">\n<text x=\"840\" y=\"260\">metres</text>\n")?;
    write_ticks(page, scale, &lines)?;
    page.add(b"</g>\n")
}

/// Writes the lines at some raised heights.
fn write_ticks(page: &mut Page, scale: &Scale, lines: &[u128]) -> Result<(), AllocError>
    ensures { OnOk result (page.new ≡ page.old ++ flat_map (tick_at scale.now) lines.now) }
{
    for at in lines {
        write_tick(page, scale, *at)?;
    }
    Ok(())
}

/// Writes the line at a raised height, if the scale has it.
fn write_tick(page: &mut Page, scale: &Scale, at: u128) -> Result<(), AllocError>
    ensures { OnOk result (page.new ≡ page.old ++ tick_at scale.now at) }
{
    if at <= scale.high() {
        write_shown(page, scale, at)
    } else {
        Ok(())
    }
}

/// Writes the line at a raised height.
#[tactic(auto, unfolding(crate::specs::Pictures::tick_text))]
fn write_shown(page: &mut Page, scale: &Scale, at: u128) -> Result<(), AllocError>
    requires { at < 2 ^ 65 }
    ensures { OnOk result (page.new ≡ page.old ++ tick_text scale.now at) }
{
    let raise = u128::from(RAISE);
    write_line(page, u64::from(scale.y_of(at)))?;
    write_sized(page, at < raise, at.abs_diff(raise))?;
    write_label_end(page)
}

/// Writes a line across, and the beginning of its label.
#[tactic(auto, unfolding(crate::specs::Lines::line_open))]
pub fn write_line(page: &mut Page, y: u64) -> Result<(), AllocError>
    requires { y < 2 ^ 63 }
    ensures { OnOk result (page.new ≡ page.old ++ line_open y) }
{
    page.add(b"<path class=\"l\" d=\"M900 ")?;
    write_number(page, y)?;
    page.add(b"H7900\"/><text x=\"840\" y=\"")?;
    write_number(page, y + 35)?;
    page.add(b"\">")
}

/// Writes the end of a label.
#[tactic(auto, unfolding(crate::specs::Lines::label_end))]
pub fn write_label_end(page: &mut Page) -> Result<(), AllocError>
    ensures { OnOk result (page.new ≡ page.old ++ label_end) }
{
    page.add(b"</text>\n")
}
