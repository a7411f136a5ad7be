//! The bars of the strip.
ghost use Rattle.std.specs.Prelude.{◌≡◌, ◌≤◌, ◌++◌, OnOk};
ghost use Rattle.std.specs.List.{flat_map};
ghost use Rattle.th_picture.specs.Strips.{bar_down, bar_group, bar_in, bar_lines, bar_of, bar_up, bars_of, width_of};

use crate::drawn::DrawnSight;
use crate::groups::{GROUPS, is_in, letter_of, occurs};
use crate::strips::{offset, sight_x};
use std::alloc::AllocError;
use th_answer::Group;
use th_columns::Page;
use th_html::write_number;

/// Writes the bars of all groups.
#[tactic(auto, unfolding(crate::specs::Strips::bar_lines))]
pub(crate) fn write_bars(
    page: &mut Page,
    half: u64,
    sights: &[DrawnSight],
) -> Result<(), AllocError>
    ensures { OnOk result (page.new ≡ page.old ++ bar_lines half sights.now) }
{
    page.add(b"<g class=\"bars\" stroke-width=\"")?;
    write_number(page, width_of(sights.len() as u64))?;
    page.add(b"\">\n")?;
    write_groups(page, half, sights, &GROUPS)?;
    page.add(b"</g>\n")
}

/// How wide a bar is, among so many.
fn width_of(count: u64) -> u64
    ensures { result ≡ width_of count }
{
    (3_500 / count.max(1)).min(80).max(6)
}

/// Writes the bars of some groups.
fn write_groups(
    page: &mut Page,
    half: u64,
    sights: &[DrawnSight],
    groups: &[Group],
) -> Result<(), AllocError>
    ensures { OnOk result (page.new
        ≡ page.old ++ flat_map (bars_of half sights.now) groups.now) }
{
    for group in groups {
        write_bars_of(page, half, sights, *group)?;
    }
    Ok(())
}

/// Writes the bars of a group, if it occurs.
fn write_bars_of(
    page: &mut Page,
    half: u64,
    sights: &[DrawnSight],
    group: Group,
) -> Result<(), AllocError>
    ensures { OnOk result (page.new ≡ page.old ++ bars_of half sights.now group) }
{
    if occurs(sights, group) {
        write_group(page, half, sights, group)
    } else {
        Ok(())
    }
}

/// Writes the bars of a group.
#[tactic(auto, unfolding(crate::specs::Strips::bar_group))]
fn write_group(
    page: &mut Page,
    half: u64,
    sights: &[DrawnSight],
    group: Group,
) -> Result<(), AllocError>
    ensures { OnOk result (page.new ≡ page.old ++ bar_group half sights.now group) }
{
    page.add(b"<path class=\"")?;
    page.add(&[letter_of(group)])?;
    page.add(b"\" d=\"")?;
    write_each(page, half, sights.len() as u64, group, sights)?;
    page.add(b"\"/>\n")
}

/// Writes the bar of each sight in a group.
fn write_each(
    page: &mut Page,
    half: u64,
    count: u64,
    group: Group,
    sights: &[DrawnSight],
) -> Result<(), AllocError>
    ensures { OnOk result (page.new
        ≡ page.old ++ flat_map (bar_in half count group) sights.now) }
{
    for sight in sights {
        write_bar_in(page, half, count, group, sight)?;
    }
    Ok(())
}

/// Writes the bar of a sight, if it is in a group.
fn write_bar_in(
    page: &mut Page,
    half: u64,
    count: u64,
    group: Group,
    sight: &DrawnSight,
) -> Result<(), AllocError>
    ensures { OnOk result (page.new ≡ page.old ++ bar_in half count group sight.now) }
{
    if is_in(group, sight) {
        write_bar(page, sight_x(count, sight), half, sight.row.residual)
    } else {
        Ok(())
    }
}

/// Writes the bar of a residual.
fn write_bar(page: &mut Page, x: u32, half: u64, residual: i64) -> Result<(), AllocError>
    ensures { OnOk result (page.new ≡ page.old ++ bar_of x half residual) }
{
    let away = offset(half, residual.unsigned_abs());
    if residual < 0 {
        write_down(page, x, away)
    } else {
        write_up(page, x, away)
    }
}

/// Writes a bar from the middle down.
#[tactic(auto, unfolding(crate::specs::Strips::bar_down))]
fn write_down(page: &mut Page, x: u32, away: u32) -> Result<(), AllocError>
    ensures { OnOk result (page.new ≡ page.old ++ bar_down x away) }
{
    page.add(b"M")?;
    write_number(page, u64::from(x))?;
    page.add(b" 630V")?;
    write_number(page, 650 + u64::from(away))
}

/// Writes a bar from the middle up.
#[tactic(auto, unfolding(crate::specs::Strips::bar_up))]
fn write_up(page: &mut Page, x: u32, away: u32) -> Result<(), AllocError>
    ensures { OnOk result (page.new ≡ page.old ++ bar_up x away) }
{
    page.add(b"M")?;
    write_number(page, u64::from(x))?;
    page.add(b" 670V")?;
    write_number(page, 650u64.saturating_sub(u64::from(away)))
}
