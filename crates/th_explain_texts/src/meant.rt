//! The heights that may have been meant.
ghost use Rattle.std.specs.Prelude.{◌≡◌, ◌++◌, OnOk, codes};
ghost use Rattle.std.specs.List.{flat_map};
ghost use Rattle.std.specs.Option.{option_map_or};
ghost use Rattle.th_units.specs.Metres.{metres};
ghost use Rattle.th_explain_texts.specs.Meant.{height_called, line_in, named_line, named_lines, sight_height};

use crate::called::{write_called, write_capital, write_line_name};
use crate::fitting::write_with_length;
use crate::rows::{Named, Row};
use crate::words::is_sight;
use std::alloc::{AllocError, Global};
use th_columns::Page;
use th_entries::HeightKind;

/// So many heights are named in sentences; of more none is.
const MOST_MEANT: usize = 3;

/// Writes the heights that may have been meant, if they are few.
#[tactic(auto, unfolding(crate::specs::Meant::named_lines))]
pub(crate) fn write_named(
    alloc: Global,
    page: &mut Page,
    several: bool,
    rows: &[Row],
    named: &[Named],
) -> Result<(), AllocError>
    ensures { OnOk result (page.new ≡ page.old ++ named_lines several rows.now named.now) }
{
    if named.len() <= MOST_MEANT {
        write_each_named(alloc, page, several, rows, named)
    } else {
        Ok(())
    }
}

/// Writes each of the heights that may have been meant.
fn write_each_named(
    alloc: Global,
    page: &mut Page,
    several: bool,
    rows: &[Row],
    named: &[Named],
) -> Result<(), AllocError>
    ensures { OnOk result (page.new ≡ page.old ++ flat_map (line_in several rows.now) named.now) }
{
    for own in named {
        write_line_in(alloc, page, several, rows, own)?;
    }
    Ok(())
}

/// Writes a height that may have been meant, if it is of one of the rows.
fn write_line_in(
    alloc: Global,
    page: &mut Page,
    several: bool,
    rows: &[Row],
    named: &Named,
) -> Result<(), AllocError>
    ensures { OnOk result (page.new ≡ page.old ++ line_in several rows.now named.now) }
{
    match rows.get(named.row) {
        Some(row) => write_named_line(alloc, page, several, named, row),
        None => Ok(()),
    }
}

/// Writes a height that was keyed in, and the one that may have been meant.
#[tactic(auto, unfolding(crate::specs::Meant::named_line))]
fn write_named_line(
    alloc: Global,
    page: &mut Page,
    several: bool,
    named: &Named,
    row: &Row,
) -> Result<(), AllocError>
    ensures { OnOk result (page.new ≡ page.old ++ named_line several named.now row.now) }
{
    let mut name = Page::new(alloc);
    write_height_called(&mut name, several, named.height, row)?;
    write_capital(page, name.as_bytes())?;
    write_with_length(page, b": typed ", named.typed)?;
    write_with_length(page, b", meant ", named.meant)?;
    page.add(b"?\n")
}

/// Writes what a sentence calls a height of a row.
fn write_height_called(
    page: &mut Page,
    several: bool,
    height: HeightKind,
    row: &Row,
) -> Result<(), AllocError>
    ensures { OnOk result (page.new ≡ page.old ++ height_called several height row.now) }
{
    if is_sight(&row.kind) {
        write_line_name(page, sight_height(height), several, row)
    } else {
        write_called(page, several, row)
    }
}

/// What a sentence calls a height of a sight.
fn sight_height(height: HeightKind) -> &'static [u8]
    ensures { result.now ≡ sight_height height }
{
    match height {
        HeightKind::Reflector => b"the pole of ",
        HeightKind::Instrument => b"the instrument height of ",
    }
}
