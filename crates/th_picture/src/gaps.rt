//! The gaps of sights in question, and of those that do not fit.
ghost use Rattle.std.specs.Prelude.{◌≡◌, ◌≤◌, ◌++◌, OnOk, length};
ghost use Rattle.std.specs.List.{flat_map};
ghost use Rattle.th_picture.specs.Gaps.{ends_away, gap_count, gap_lines, gap_of, gap_shape, gaps_of, has_gap, shows_gaps};

use crate::coordinates::write_pair;
use crate::drawn::DrawnSight;
use crate::groups::{is_drawn, is_in};
use crate::scales::Frame;
use std::alloc::AllocError;
use th_answer::Group;
use th_columns::Page;
use th_html::write_number;

/// A sight ends away from its target if it is drawn so far from it, at least.
const NEAREST: u32 = 40;

/// The gaps of a group are drawn if it has at most so many.
const MOST_GAPS: u64 = 20;

/// Writes all gaps.
#[tactic(auto, unfolding(crate::specs::Gaps::gap_lines))]
pub(crate) fn write_gaps(
    page: &mut Page,
    frame: &Frame,
    sights: &[DrawnSight],
) -> Result<(), AllocError>
    ensures { OnOk result (page.new ≡ page.old ++ gap_lines frame.now sights.now) }
{
    write_gaps_of(page, frame, sights, Group::Stays)?;
    write_gaps_of(page, frame, sights, Group::Question)
}

/// Writes the gaps of a group, if it is drawn and has few.
fn write_gaps_of(
    page: &mut Page,
    frame: &Frame,
    sights: &[DrawnSight],
    group: Group,
) -> Result<(), AllocError>
    ensures { OnOk result (page.new ≡ page.old ++ gaps_of frame.now sights.now group) }
{
    if shows_gaps(frame, sights, group) {
        write_each(page, frame, sights, group)
    } else {
        Ok(())
    }
}

/// Whether a group is drawn and has few gaps.
fn shows_gaps(frame: &Frame, sights: &[DrawnSight], group: Group) -> bool
    ensures { result ≡ shows_gaps frame.now sights.now group }
{
    is_drawn(sights, group) && gap_count(frame, group, sights) <= MOST_GAPS
}

/// How many sights of a group end away from their targets.
fn gap_count(frame: &Frame, group: Group, sights: &[DrawnSight]) -> u64
    ensures { result ≡ gap_count frame.now group sights.now }
{
    let mut count = 0;
    for sight in sights {
        if has_gap(frame, group, sight) {
            count += 1;
        }
    }
    count
}

/// Whether a sight is in a group and ends away from its target.
fn has_gap(frame: &Frame, group: Group, sight: &DrawnSight) -> bool
    ensures { result ≡ has_gap frame.now group sight.now }
{
    is_in(group, sight) && ends_away(frame, sight)
}

/// Whether a sight ends away from its target.
fn ends_away(frame: &Frame, sight: &DrawnSight) -> bool
    ensures { result ≡ ends_away frame.now sight.now }
{
    NEAREST <= frame.sighted_y(sight).abs_diff(frame.target_y(sight))
}

/// Writes the gaps of a group.
fn write_each(
    page: &mut Page,
    frame: &Frame,
    sights: &[DrawnSight],
    group: Group,
) -> Result<(), AllocError>
    ensures { OnOk result (page.new ≡ page.old ++ flat_map (gap_of frame.now group) sights.now) }
{
    for sight in sights {
        write_gap_of(page, frame, group, sight)?;
    }
    Ok(())
}

/// Writes the gap of a sight of a group, if it has one.
fn write_gap_of(
    page: &mut Page,
    frame: &Frame,
    group: Group,
    sight: &DrawnSight,
) -> Result<(), AllocError>
    ensures { OnOk result (page.new ≡ page.old ++ gap_of frame.now group sight.now) }
{
    if has_gap(frame, group, sight) {
        let x = frame.end_x(&sight.row.to);
        write_shape(page, x, frame.sighted_y(sight), frame.target_y(sight))
    } else {
        Ok(())
    }
}

/// Writes the line of a gap, and its cross.
#[tactic(auto, unfolding(crate::specs::Gaps::gap_shape))]
fn write_shape(page: &mut Page, x: u32, v: u32, y: u32) -> Result<(), AllocError>
    ensures { OnOk result (page.new ≡ page.old ++ gap_shape x v y) }
{
    write_pair(
        page,
        b"<path class=\"gap\" d=\"M",
        u64::from(x),
        u64::from(v),
    )?;
    page.add(b"V")?;
    write_number(page, u64::from(y))?;
    write_pair(
        page,
        b"\"/><path class=\"cross\" d=\"M",
        u64::from(x.saturating_sub(40)),
        u64::from(v.saturating_sub(40)),
    )?;
    page.add(b"l80 80m0-80l-80 80\"/>\n")
}
