//! What was given of a number, and what fits.
ghost use Rattle.std.specs.Prelude.{◌≡◌, ◌++◌, OnOk, codes};
ghost use Rattle.th_units.specs.Metres.{metres};
ghost use Rattle.th_explain_texts.specs.Fitting.{are_impossible, fits, impossible_line, impossible_lines, lines_with, no_instrument_line, no_pole_line, number_lines, range_called};

use crate::called::{write_called, write_capital};
use crate::columns::mildest_value;
use crate::rows::{Kind, Row, Values};
use std::alloc::{AllocError, Global};
use th_columns::Page;
use th_units::metre_text;

/// An instrument stands no higher than this, and no pole is longer: 5 m, in units of 10 nm.
const HIGHEST_STAND: i64 = 500_000_000;

/// Writes the lines of a number; a book has none.
pub(crate) fn write_number_lines(
    alloc: Global,
    page: &mut Page,
    several: bool,
    row: &Row,
) -> Result<(), AllocError>
    ensures { OnOk result (page.new ≡ page.old ++ number_lines several row.now) }
{
    match row.values {
        Some(values) => write_lines_with(alloc, page, several, row, &values),
        None => Ok(()),
    }
}

/// Writes the lines of a number that has a value.
fn write_lines_with(
    alloc: Global,
    page: &mut Page,
    several: bool,
    row: &Row,
    values: &Values,
) -> Result<(), AllocError>
    ensures { OnOk result (page.new ≡ page.old ++ lines_with several row.now values.now) }
{
    let mut name = Page::new(alloc);
    write_called(&mut name, several, row)?;
    write_capital(page, name.as_bytes())?;
    write_fits(page, values)?;
    write_impossible(page, &row.kind, values)
}

/// Writes the given value and the proposed ones behind the name of a number.
#[tactic(auto, unfolding(crate::specs::Fitting::fits))]
fn write_fits(page: &mut Page, values: &Values) -> Result<(), AllocError>
    ensures { OnOk result (page.new ≡ page.old ++ fits values.now) }
{
    write_with_length(page, b": given ", values.given)?;
    page.add(b", fits ")?;
    write_range(page, values.low, values.high)?;
    page.add(b".\n")
}

/// Writes a word and a length in metres.
pub(crate) fn write_with_length(page: &mut Page, word: &[u8], length: i64) -> Result<(), AllocError>
    ensures { OnOk result (page.new ≡ page.old ++ word.now ++ metres length) }
{
    let text = metre_text(length);
    page.add(word)?;
    page.add(text.as_bytes())
}

/// Writes the proposed values: one, or from the lowest to the highest.
fn write_range(page: &mut Page, low: i64, high: i64) -> Result<(), AllocError>
    ensures { OnOk result (page.new ≡ page.old ++ range_called low high) }
{
    if low == high {
        return write_with_length(page, b"", low);
    }
    write_with_length(page, b"from ", low)?;
    write_with_length(page, b" to ", high)
}

/// Writes that no proposed value can be, if that is so.
fn write_impossible(page: &mut Page, kind: &Kind, values: &Values) -> Result<(), AllocError>
    ensures { OnOk result (page.new ≡ page.old ++ impossible_lines kind.now values.now) }
{
    if are_impossible(values) {
        write_impossible_of(page, kind, values)
    } else {
        Ok(())
    }
}

/// Whether none of the proposed values is a height of an instrument or the length of a pole.
fn are_impossible(values: &Values) -> bool
    ensures { result ≡ are_impossible values.now }
{
    values.high < 0 || HIGHEST_STAND < values.low
}

/// Writes that no proposed value can be, of a height that was keyed in.
fn write_impossible_of(page: &mut Page, kind: &Kind, values: &Values) -> Result<(), AllocError>
    ensures { OnOk result (page.new ≡ page.old ++ impossible_line kind.now values.now) }
{
    match kind {
        Kind::Instrument => write_no_instrument(page, values),
        Kind::Reflector => write_no_pole(page, values),
        Kind::InstrumentSince => write_no_instrument(page, values),
        Kind::ReflectorSince => write_no_pole(page, values),
        Kind::Sight => Ok(()),
        Kind::Benchmark => Ok(()),
        Kind::Book => Ok(()),
    }
}

/// Writes that no instrument stands so high.
#[tactic(auto, unfolding(crate::specs::Fitting::no_instrument_line))]
fn write_no_instrument(page: &mut Page, values: &Values) -> Result<(), AllocError>
    ensures { OnOk result (page.new ≡ page.old ++ no_instrument_line values.now) }
{
    write_with_length(page, b"No instrument stands at ", mildest_value(values))?;
    page.add(b" m: look at the name of the station.\n")
}

/// Writes that no pole is so long.
#[tactic(auto, unfolding(crate::specs::Fitting::no_pole_line))]
fn write_no_pole(page: &mut Page, values: &Values) -> Result<(), AllocError>
    ensures { OnOk result (page.new ≡ page.old ++ no_pole_line values.now) }
{
    write_with_length(page, b"No pole is ", mildest_value(values))?;
    page.add(b" m long.\n")
}
