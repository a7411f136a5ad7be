//! The readings that fit, in sentences.
ghost use Rattle.std.specs.Prelude.{◌≡◌, ◌++◌, IfOk, OnOk, codes, filter};
ghost use Rattle.std.specs.List.{flat_map};
ghost use Rattle.th_explain_texts.specs.Read.{each_reading, elsewhere_line, elsewhere_lines, fit_called, is_instrument, is_reading_of, line_called, lines_of_readings, point_called, read_called, reading_line, readings_at, sign_called, station_called, target_called};

use crate::called::{write_capital, write_line_name};
use crate::costs::cost_text;
use crate::rows::{Kind, ReadAs, ReadingRow, Row};
use crate::tables::name_field;
use gsi_word::Name;
use std::alloc::{AllocError, Global};
use th_columns::Page;

/// Writes the readings of each row with number 1.
pub(crate) fn write_each_reading(
    alloc: Global,
    page: &mut Page,
    several: bool,
    rows: &[Row],
    readings: &[ReadingRow],
) -> Result<(), AllocError>
    ensures { OnOk result (page.new ≡ page.old ++ each_reading several rows.now readings.now) }
{
    for (place, row) in rows.iter().enumerate() {
        if row.number == 1 {
            let own = readings_of(alloc, readings, place)?;
            write_readings_of(alloc, page, several, row, &own)?;
        }
    }
    Ok(())
}

/// The readings of the row at a place.
fn readings_of(
    alloc: Global,
    readings: &[ReadingRow],
    place: usize,
) -> Result<Vec<ReadingRow>, AllocError>
    ensures { IfOk result (λ own. own.items ≡ filter (is_reading_of place) readings.now) }
{
    readings
        .iter()
        .copied()
        .filter(|own| own.row == place)
        .collect(alloc)
}

/// Writes the readings of a row; of an instrument height without any, that the setup may have stood elsewhere.
fn write_readings_of(
    alloc: Global,
    page: &mut Page,
    several: bool,
    row: &Row,
    readings: &[ReadingRow],
) -> Result<(), AllocError>
    ensures { OnOk result (page.new ≡ page.old ++ lines_of_readings several row.now readings.now) }
{
    for own in readings {
        write_reading(alloc, page, several, row, own)?;
    }
    write_elsewhere(page, row, readings)
}

/// Writes that a setup may have stood elsewhere, if no reading of it fits.
fn write_elsewhere(page: &mut Page, row: &Row, readings: &[ReadingRow]) -> Result<(), AllocError>
    ensures { OnOk result (page.new ≡ page.old ++ elsewhere_lines row.now readings.now) }
{
    if readings.is_empty() && is_instrument(&row.kind) {
        write_elsewhere_line(page, row)
    } else {
        Ok(())
    }
}

/// Writes that a setup may have stood elsewhere.
#[tactic(auto, unfolding(crate::specs::Read::elsewhere_line))]
fn write_elsewhere_line(page: &mut Page, row: &Row) -> Result<(), AllocError>
    ensures { OnOk result (page.new ≡ page.old ++ elsewhere_line row.now) }
{
    page.add(b"Or the setup stood on another point than ")?;
    page.add(name_field(&row.from))?;
    page.add(b".\n")
}

/// Writes what fits of a row, and how far it is from what is read.
#[tactic(auto, unfolding(crate::specs::Read::reading_line))]
fn write_reading(
    alloc: Global,
    page: &mut Page,
    several: bool,
    row: &Row,
    own: &ReadingRow,
) -> Result<(), AllocError>
    ensures { OnOk result (page.new ≡ page.old ++ reading_line several row.now own.now) }
{
    write_read(alloc, page, several, row, &own.read)?;
    write_fit(alloc, page, own.fit)
}

/// Writes how far a reading is from what is read.
fn write_fit(alloc: Global, page: &mut Page, fit: u64) -> Result<(), AllocError>
    ensures { OnOk result (page.new ≡ page.old ++ fit_called fit) }
{
    let text = cost_text(alloc, u128::from(fit))?;
    page.add(b", within ")?;
    page.add(text.as_slice())?;
    page.add(b" m.\n")
}

/// Writes what fits of a row.
fn write_read(
    alloc: Global,
    page: &mut Page,
    several: bool,
    row: &Row,
    read: &ReadAs,
) -> Result<(), AllocError>
    ensures { OnOk result (page.new ≡ page.old ++ read_called several row.now read.now) }
{
    match read {
        ReadAs::Target(name) => write_target(alloc, page, several, row, name),
        ReadAs::Station(name) => write_station(page, several, row, name),
        ReadAs::Point(name) => write_point(page, row, name),
        ReadAs::OtherSign => write_sign(alloc, page, several, row),
    }
}

/// Writes that another point fits in place of the target of a sight.
fn write_target(
    alloc: Global,
    page: &mut Page,
    several: bool,
    row: &Row,
    name: &Name,
) -> Result<(), AllocError>
    ensures { OnOk result (page.new ≡ page.old ++ target_called several row.now name.now) }
{
    write_line(alloc, page, several, row)?;
    page.add(b" fits ")?;
    write_in_place(page, name, name_field(&row.to))
}

/// Writes that another point fits in place of the station of a setup.
fn write_station(page: &mut Page, several: bool, row: &Row, name: &Name) -> Result<(), AllocError>
    ensures { OnOk result (page.new ≡ page.old ++ station_called several row.now name.now) }
{
    write_line_name(page, b"The setup of ", several, row)?;
    page.add(b" fits ")?;
    write_in_place(page, name, name_field(&row.from))
}

/// Writes a name and the one that it replaces.
fn write_in_place(page: &mut Page, name: &Name, old: &[u8]) -> Result<(), AllocError>
    ensures { OnOk result (page.new ≡ page.old ++ (name.now ++ codes " in place of " ++ old.now)) }
{
    page.add(name.as_bytes())?;
    page.add(b" in place of ")?;
    page.add(old)
}

/// Writes that the height of a benchmark fits another point.
fn write_point(page: &mut Page, row: &Row, name: &Name) -> Result<(), AllocError>
    ensures { OnOk result (page.new ≡ page.old ++ point_called row.now name.now) }
{
    page.add(b"The height of ")?;
    page.add(name_field(&row.from))?;
    page.add(b" fits ")?;
    page.add(name.as_bytes())
}

/// Writes that the other sign of word 33 fits.
fn write_sign(alloc: Global, page: &mut Page, several: bool, row: &Row) -> Result<(), AllocError>
    ensures { OnOk result (page.new ≡ page.old ++ sign_called several row.now) }
{
    write_line(alloc, page, several, row)?;
    page.add(b" fits with the other sign of word 33")
}

/// Writes the line of a row with a capital letter.
fn write_line(alloc: Global, page: &mut Page, several: bool, row: &Row) -> Result<(), AllocError>
    ensures { OnOk result (page.new ≡ page.old ++ line_called several row.now) }
{
    let mut line = Page::new(alloc);
    write_line_name(&mut line, b"", several, row)?;
    write_capital(page, line.as_bytes())
}

/// Whether a number is the instrument height of a setup.
fn is_instrument(kind: &Kind) -> bool
    ensures { result ≡ is_instrument kind.now }
{
    match kind {
        Kind::Instrument => true,
        Kind::Reflector => false,
        Kind::InstrumentSince => false,
        Kind::ReflectorSince => false,
        Kind::Sight => false,
        Kind::Benchmark => false,
        Kind::Book => false,
    }
}
