//! The sights in the picture.
ghost use Rattle.std.specs.Prelude.{◌≡◌, ◌≤◌, ◌++◌, OnOk};
ghost use Rattle.std.specs.List.{flat_map};
ghost use Rattle.th_picture.specs.Curves.{bent, curve_text, drawn_group, few_text, flatness, group_lines, group_text, path_in, sight_curve, sight_path};

use crate::coordinates::write_pair;
use crate::drawn::DrawnSight;
use crate::groups::{FEW, GROUPS, group_count, is_drawn, is_in, letter_of};
use crate::scales::Frame;
use std::alloc::AllocError;
use th_answer::Group;
use th_columns::Page;
use th_html::write_found;

/// Writes all groups of sights that are drawn.
pub(crate) fn write_groups(
    page: &mut Page,
    frame: &Frame,
    sights: &[DrawnSight],
) -> Result<(), AllocError>
    ensures { OnOk result (page.new ≡ page.old ++ group_lines frame.now sights.now) }
{
    write_each(page, frame, sights, &GROUPS)
}

/// Writes some groups, as far as they are drawn.
fn write_each(
    page: &mut Page,
    frame: &Frame,
    sights: &[DrawnSight],
    groups: &[Group],
) -> Result<(), AllocError>
    ensures { OnOk result (page.new
        ≡ page.old ++ flat_map (drawn_group frame.now sights.now) groups.now) }
{
    for group in groups {
        write_drawn(page, frame, sights, *group)?;
    }
    Ok(())
}

/// Writes a group, if it is drawn.
fn write_drawn(
    page: &mut Page,
    frame: &Frame,
    sights: &[DrawnSight],
    group: Group,
) -> Result<(), AllocError>
    ensures { OnOk result (page.new ≡ page.old ++ drawn_group frame.now sights.now group) }
{
    if is_drawn(sights, group) {
        write_group(page, frame, sights, group)
    } else {
        Ok(())
    }
}

/// Writes a group.
#[tactic(auto, unfolding(crate::specs::Curves::group_text))]
fn write_group(
    page: &mut Page,
    frame: &Frame,
    sights: &[DrawnSight],
    group: Group,
) -> Result<(), AllocError>
    ensures { OnOk result (page.new ≡ page.old ++ group_text frame.now sights.now group) }
{
    page.add(b"<g class=\"")?;
    page.add(&[letter_of(group)])?;
    page.add(few_text(group_count(group, sights)))?;
    page.add(b"\">\n")?;
    write_paths(page, frame, sights, group)?;
    page.add(b"</g>\n")
}

/// The class of a group with few sights.
fn few_text(count: u64) -> &'static [u8]
    ensures { result.now ≡ few_text count }
{
    if count <= FEW { b" few" } else { b"" }
}

/// Writes the sights of a group.
fn write_paths(
    page: &mut Page,
    frame: &Frame,
    sights: &[DrawnSight],
    group: Group,
) -> Result<(), AllocError>
    ensures { OnOk result (page.new
        ≡ page.old ++ flat_map (path_in frame.now group) sights.now) }
{
    for sight in sights {
        write_path_in(page, frame, sight, group)?;
    }
    Ok(())
}

/// Writes a sight, if it is in a group.
fn write_path_in(
    page: &mut Page,
    frame: &Frame,
    sight: &DrawnSight,
    group: Group,
) -> Result<(), AllocError>
    ensures { OnOk result (page.new ≡ page.old ++ path_in frame.now group sight.now) }
{
    if is_in(group, sight) {
        write_path(page, frame, sight)
    } else {
        Ok(())
    }
}

/// Writes a sight.
#[tactic(auto, unfolding(crate::specs::Curves::sight_path))]
fn write_path(page: &mut Page, frame: &Frame, sight: &DrawnSight) -> Result<(), AllocError>
    ensures { OnOk result (page.new ≡ page.old ++ sight_path frame.now sight.now) }
{
    page.add(b"<path d=\"")?;
    write_sight_curve(page, frame, sight)?;
    page.add(b"\"><title>")?;
    write_found(page, &sight.row)?;
    page.add(b"</title></path>\n")
}

/// Writes the curve of a sight, from its station to where it puts its target.
fn write_sight_curve(page: &mut Page, frame: &Frame, sight: &DrawnSight) -> Result<(), AllocError>
    ensures { OnOk result (page.new ≡ page.old ++ sight_curve frame.now sight.now) }
{
    write_curve(
        page,
        flatness(sight.row.number),
        frame.end_x(&sight.row.from),
        frame.station_y(sight),
        frame.end_x(&sight.row.to),
        frame.sighted_y(sight),
    )
}

/// What a sight's bend divides by.
fn flatness(number: u32) -> u64
    ensures value { result ≡ flatness number }
    ensures positive { 1 ≤ result }
{
    32 * (u64::from(number) % 3 + 1)
}

/// The height of a bend.
fn bent(y: u64, x: u32, u: u32, flat: u64) -> u64
    requires y { y ≤ 4294967296 }
    requires flat { 1 ≤ flat }
    ensures { result ≡ bent y x u flat }
{
    (y + u64::from(x) / flat).saturating_sub(u64::from(u) / flat)
}

/// Writes a curve from (x, y) to (u, v) in two halves.
#[tactic(auto, unfolding(crate::specs::Curves::curve_text))]
fn write_curve(page: &mut Page, flat: u64, x: u32, y: u32, u: u32, v: u32) -> Result<(), AllocError>
    requires { 1 ≤ flat }
    ensures { OnOk result (page.new ≡ page.old ++ curve_text flat x y u v) }
{
    let left = (3 * u64::from(x) + u64::from(u)) / 4;
    let quarter = (3 * u64::from(y) + u64::from(v)) / 4;
    let middle = (u64::from(x) + u64::from(u)) / 2;
    let half = (u64::from(y) + u64::from(v)) / 2;
    write_pair(page, b"M", u64::from(x), u64::from(y))?;
    write_pair(page, b"Q", left, bent(quarter, x, u, flat))?;
    write_pair(page, b" ", middle, bent(half, x, u, flat))?;
    write_pair(page, b"T", u64::from(u), u64::from(v))
}
