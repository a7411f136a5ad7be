//! The strip of residuals.
ghost use Rattle.std.specs.Prelude.{◌≡◌, ◌≤◌, ◌<◌, ◌^◌, ◌++◌, OnOk, fold, unsigned_abs};
ghost use Rattle.std.specs.List.{flat_map};
ghost use Rattle.th_picture.specs.Strips.{half_of, label_lines, label_of, larger, largest_of, offset, open_text, place_label, range_text, scale_lines, sight_x, strip_at, strip_text};

use crate::bars::write_bars;
use crate::drawn::DrawnSight;
use crate::names::is_written;
use crate::pictures::{write_label_end, write_line};
use crate::scales::x_of;
use std::alloc::AllocError;
use th_blunders::is_blunder;
use th_columns::Page;
use th_html::{write_number, write_place, write_sized};
use th_observations::Observation;

/// Half a millimetre, in units of 10 nm.
const HALF_MILLIMETRE: u64 = 50_000;

/// Fewer than twice so many places are written.
const PLACES: u64 = 4;

/// Writes the strip of the residuals of sights. The limit of blunders is in units of 10 nm.
pub fn write_strip(page: &mut Page, sights: &[DrawnSight], limit: i64) -> Result<(), AllocError>
    ensures { OnOk result (page.new ≡ page.old ++ strip_text sights.now limit) }
{
    write_strip_at(page, half_of(limit, sights), limit, sights)
}

/// Writes the strip in which the bar of a size is half as long as the longest.
#[tactic(auto, unfolding(crate::specs::Strips::strip_at))]
fn write_strip_at(
    page: &mut Page,
    half: u64,
    limit: i64,
    sights: &[DrawnSight],
) -> Result<(), AllocError>
    ensures { OnOk result (page.new ≡ page.old ++ strip_at half limit sights.now) }
{
    write_open(page)?;
    write_range(page, offset(half, limit.unsigned_abs()))?;
    write_scale(page, half)?;
    write_bars(page, half, sights)?;
    write_labels(page, sights)
}

/// The size of which a bar is half as long as the longest.
fn half_of(limit: i64, sights: &[DrawnSight]) -> u64
    ensures { result ≡ half_of limit sights.now }
{
    largest_of(limit, sights).max(HALF_MILLIMETRE)
}

/// The largest size of a residual that is within the limit, both in units of 10 nm; 0 if there is none.
pub fn largest_of(limit: i64, sights: &[DrawnSight]) -> u64
    ensures { result ≡ largest_of limit sights.now }
{
    let mut most = 0;
    for sight in sights {
        most = larger(limit, most, sight);
    }
    most
}

/// The larger of a size and that of a residual, if this is within the limit.
fn larger(limit: i64, most: u64, sight: &DrawnSight) -> u64
    ensures { result ≡ larger limit most sight.now }
{
    if is_blunder(sight.row.residual, limit) {
        most
    } else {
        most.max(sight.row.residual.unsigned_abs())
    }
}

/// How far the bar of a size reaches from the middle.
pub(crate) fn offset(half: u64, size: u64) -> u32
    ensures value { result ≡ offset half size }
    ensures small { result ≤ 550 }
{
    let part = 275 * u128::from(size) / u128::from(half).max(1);
    part.min(550) as u32
}

/// Where a sight is, from left to right.
pub(crate) fn sight_x(count: u64, sight: &DrawnSight) -> u32
    ensures { result ≡ sight_x count sight.now }
{
    x_of(u64::from(sight.row.number.saturating_sub(1)), count)
}

/// Writes the beginning.
fn write_open(page: &mut Page) -> Result<(), AllocError>
    ensures { OnOk result (page.new ≡ page.old ++ open_text) }
{
    page.add(b"<svg viewBox=\"0 0 8000 1420\" role=\"img\" aria-label=\"Residuals of sights\">\n")
}

/// Writes the range within the limit.
#[tactic(auto, unfolding(crate::specs::Strips::range_text))]
fn write_range(page: &mut Page, within: u32) -> Result<(), AllocError>
    ensures { OnOk result (page.new ≡ page.old ++ range_text within) }
{
    let within = u64::from(within);
    page.add(b"<rect x=\"900\" y=\"")?;
    write_number(page, 650u64.saturating_sub(within))?;
    page.add(b"\" width=\"7000\" height=\"")?;
    write_number(page, 2 * within)?;
    page.add(b"\"/>\n")
}

/// Writes the lines of the strip, at half the longest bars and in the middle.
#[tactic(auto, unfolding(crate::specs::Strips::scale_lines))]
fn write_scale(page: &mut Page, half: u64) -> Result<(), AllocError>
    ensures { OnOk result (page.new ≡ page.old ++ scale_lines half) }
{
    let size = u128::from(half);
    page.add(b"<g class=\"n e\">\n")?;
    write_line(page, 375)?;
    page.add(b"+")?;
    write_sized(page, false, size)?;
    write_label_end(page)?;
    write_line(page, 925)?;
    write_sized(page, true, size)?;
    write_label_end(page)?;
    page.add(b"</g>\n<path class=\"z\" d=\"M900 650H7900\"/>\n")
}

/// Writes the places of sights.
#[tactic(auto, unfolding(crate::specs::Strips::label_lines))]
fn write_labels(page: &mut Page, sights: &[DrawnSight]) -> Result<(), AllocError>
    ensures { OnOk result (page.new ≡ page.old ++ label_lines sights.now) }
{
    page.add(b"<g class=\"n e\">\n")?;
    write_each(page, sights.len() as u64, sights)?;
    page.add(b"</g>\n</svg>\n")
}

/// Writes the place of each sight that has one.
fn write_each(page: &mut Page, count: u64, sights: &[DrawnSight]) -> Result<(), AllocError>
    ensures { OnOk result (page.new ≡ page.old ++ flat_map (label_of count) sights.now) }
{
    for sight in sights {
        write_label_of(page, count, sight)?;
    }
    Ok(())
}

/// Writes the place of a sight, if it is written.
fn write_label_of(page: &mut Page, count: u64, sight: &DrawnSight) -> Result<(), AllocError>
    ensures { OnOk result (page.new ≡ page.old ++ label_of count sight.now) }
{
    let k = u64::from(sight.row.number.saturating_sub(1));
    if is_written(count, PLACES, k) {
        write_label(page, sight_x(count, sight), &sight.row.observation)
    } else {
        Ok(())
    }
}

/// Writes the place of a sight at x.
#[tactic(auto, unfolding(crate::specs::Strips::place_label))]
fn write_label(page: &mut Page, x: u32, o: &Observation) -> Result<(), AllocError>
    ensures { OnOk result (page.new ≡ page.old ++ place_label x o.now) }
{
    page.add(b"<text x=\"")?;
    write_number(page, u64::from(x))?;
    page.add(b"\" y=\"1350\">")?;
    write_place(page, o.book, o.line)?;
    page.add(b"</text>\n")
}
