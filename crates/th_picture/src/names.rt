//! The names under the picture.
ghost use Rattle.std.specs.Prelude.{◌≡◌, ◌≤◌, ◌++◌, OnOk, fold};
ghost use Rattle.std.specs.List.{enumerate_from, flat_map};
ghost use Rattle.th_picture.specs.Names.{depth_of, is_written, level_open, longer, longest_of, name_lines, name_of, name_open, name_text, turn_of, upright_open};

use crate::coordinates::write_pair;
use crate::drawn::DrawnPoint;
use crate::scales::{Frame, x_of};
use std::alloc::AllocError;
use th_columns::Page;
use th_html::{write_escaped, write_number};

/// Fewer than twice so many names are written.
const NAMES: u64 = 30;

/// How names stand.
#[derive(Clone, Copy)]
pub(crate) enum Turn {
    Level,
    Upright,
}

/// The length of the longest name, in bytes.
pub(crate) fn longest_of(points: &[DrawnPoint]) -> u64
    ensures value { result ≡ longest_of points.now }
    ensures small { result ≤ 16 }
{
    longest(points).min(16)
}

/// The length of the longest name.
fn longest(points: &[DrawnPoint]) -> u64
    ensures { result ≡ fold longer 0 points.now }
{
    let mut most = 0;
    for point in points {
        most = most.max(point.row.name.as_bytes().len() as u64);
    }
    most
}

/// How the names of so many points stand.
pub(crate) fn turn_of(count: u64, longest: u64) -> Turn
    ensures { result ≡ turn_of count longest }
{
    if longest <= 70 / count.max(1) {
        Turn::Level
    } else {
        Turn::Upright
    }
}

/// How much room names need.
pub(crate) fn depth_of(turn: Turn, longest: u64) -> u64
    requires { longest ≤ 16 }
    ensures { result ≡ depth_of turn longest }
{
    match turn {
        Turn::Level => 160,
        Turn::Upright => 100 + 90 * longest,
    }
}

/// Whether number `k`, from 0, of `count` is written, if fewer than twice `many` are written.
pub fn is_written(count: u64, many: u64, k: u64) -> bool
    requires { 1 ≤ many }
    ensures { result ≡ is_written count many k }
{
    let stride = (count / many).max(1);
    k % stride == 0
}

/// Writes the names under the picture.
#[tactic(auto, unfolding(crate::specs::Names::name_lines))]
pub(crate) fn write_names(
    page: &mut Page,
    frame: &Frame,
    turn: Turn,
    points: &[DrawnPoint],
) -> Result<(), AllocError>
    ensures { OnOk result (page.new ≡ page.old ++ name_lines frame.now turn points.now) }
{
    page.add(b"<g class=\"n\">\n")?;
    write_each(page, frame, turn, points)?;
    page.add(b"</g>\n")
}

/// Writes the name of each point that has one.
fn write_each(
    page: &mut Page,
    frame: &Frame,
    turn: Turn,
    points: &[DrawnPoint],
) -> Result<(), AllocError>
    ensures { OnOk result (page.new
        ≡ page.old ++ flat_map (name_of frame.now turn) (enumerate_from 0 points.now)) }
{
    for (k, point) in points.iter().enumerate() {
        write_name_of(page, frame, turn, k as u64, point)?;
    }
    Ok(())
}

/// Writes the name of point `k`, from 0, if it is written.
fn write_name_of(
    page: &mut Page,
    frame: &Frame,
    turn: Turn,
    k: u64,
    point: &DrawnPoint,
) -> Result<(), AllocError>
    ensures { OnOk result (page.new ≡ page.old ++ name_of frame.now turn (k, point.now)) }
{
    if is_written(frame.points, NAMES, k) {
        let x = x_of(k, frame.points);
        let y = frame.scale.height_y(point.height);
        write_name(page, turn, x, y, point)
    } else {
        Ok(())
    }
}

/// Writes a line from a point to its name, and the name.
#[tactic(auto, unfolding(crate::specs::Names::name_text))]
fn write_name(
    page: &mut Page,
    turn: Turn,
    x: u32,
    y: u32,
    point: &DrawnPoint,
) -> Result<(), AllocError>
    ensures { OnOk result (page.new ≡ page.old ++ name_text turn x y point.now) }
{
    write_pair(page, b"<path class=\"d\" d=\"M", u64::from(x), u64::from(y))?;
    page.add(b"V3500\"/>")?;
    write_open(page, turn, x)?;
    write_escaped(page, point.row.name.as_bytes())?;
    page.add(b"</text>\n")
}

/// Writes the beginning of a name.
fn write_open(page: &mut Page, turn: Turn, x: u32) -> Result<(), AllocError>
    ensures { OnOk result (page.new ≡ page.old ++ name_open turn x) }
{
    match turn {
        Turn::Level => write_level(page, u64::from(x)),
        Turn::Upright => write_upright(page, u64::from(x) + 35),
    }
}

/// Writes the beginning of a level name.
#[tactic(auto, unfolding(crate::specs::Names::level_open))]
fn write_level(page: &mut Page, x: u64) -> Result<(), AllocError>
    ensures { OnOk result (page.new ≡ page.old ++ level_open x) }
{
    page.add(b"<text class=\"m\" x=\"")?;
    write_number(page, x)?;
    page.add(b"\" y=\"3650\">")
}

/// Writes the beginning of an upright name, whose foot is at y.
#[tactic(auto, unfolding(crate::specs::Names::upright_open))]
fn write_upright(page: &mut Page, y: u64) -> Result<(), AllocError>
    ensures { OnOk result (page.new ≡ page.old ++ upright_open y) }
{
    page.add(b"<text class=\"e\" x=\"-3560\" y=\"")?;
    write_number(page, y)?;
    page.add(b"\" transform=\"rotate(-90)\">")
}
