//! The table of explanations.
ghost use Rattle.std.specs.Prelude.{◌≡◌, ◌++◌, IfOk, OnOk, filter};
ghost use Rattle.std.specs.List.{flat_map};
ghost use Rattle.th_csv.specs.Texts.{csv_text, row_text};
ghost use Rattle.th_explain_texts.specs.Tables.{header, is_instrument_of, is_pole_of, length_field, meant_field, name_field, name_read, number_field, reading_records, reading_word, record_read, record_with, row_record, row_records, spaced, table_text, texts_in};

use crate::costs::cost_text;
use crate::fitting::write_with_length;
use crate::rows::{Named, ReadAs, ReadingRow, Row};
use crate::words::{is_pole, kind_word, word_index};
use gsi_word::Name;
use itoa::Buffer;
use std::alloc::{AllocError, Global};
use th_columns::Page;
use th_csv::RowWriter;
use th_units::{MetreText, metre_text};

/// The table of explanations: the names of its fields, then a record for each row, with the heights that may have
/// been meant, and then a record for each reading.
pub fn explanations_csv(
    alloc: Global,
    rows: &[Row],
    named: &[Named],
    readings: &[ReadingRow],
) -> Result<Vec<u8>, AllocError>
    ensures { IfOk result (λ text. text.items ≡ table_text rows.now named.now readings.now) }
{
    let mut records = RowWriter::new(alloc);
    write_header(&mut records)?;
    write_rows(alloc, &mut records, rows, named)?;
    write_readings(alloc, &mut records, rows, readings)?;
    records.into_text()
}

/// Writes the record of each row.
fn write_rows(
    alloc: Global,
    records: &mut RowWriter,
    rows: &[Row],
    named: &[Named],
) -> Result<(), AllocError>
    ensures { OnOk result (records.new.text ≡ records.old.text ++ csv_text (row_records rows.now named.now)) }
{
    for (place, row) in rows.iter().enumerate() {
        write_row(alloc, records, named, place, row)?;
    }
    Ok(())
}

/// Writes the record of each reading.
fn write_readings(
    alloc: Global,
    records: &mut RowWriter,
    rows: &[Row],
    readings: &[ReadingRow],
) -> Result<(), AllocError>
    ensures { OnOk result (records.new.text ≡ records.old.text ++ csv_text (flat_map (reading_records rows.now) readings.now)) }
{
    for own in readings {
        write_reading(alloc, records, rows, own)?;
    }
    Ok(())
}

/// Writes the record of a reading, if it is of one of the rows.
fn write_reading(
    alloc: Global,
    records: &mut RowWriter,
    rows: &[Row],
    own: &ReadingRow,
) -> Result<(), AllocError>
    ensures { OnOk result (records.new.text ≡ records.old.text ++ csv_text (reading_records rows.now own.now)) }
{
    match rows.get(own.row) {
        Some(row) => write_read(alloc, records, row, own),
        None => Ok(()),
    }
}

/// Writes the names of the fields.
#[tactic(auto, unfolding(crate::specs::Tables::header))]
fn write_header(records: &mut RowWriter) -> Result<(), AllocError>
    ensures { OnOk result (records.new.text ≡ records.old.text ++ row_text header) }
{
    records.write(&[
        b"number",
        b"kind",
        b"book",
        b"line",
        b"word",
        b"from",
        b"to",
        b"sights",
        b"given",
        b"low",
        b"high",
        b"explains",
        b"left",
        b"blunders",
        b"last",
        b"poles",
        b"instruments",
        b"reading",
        b"name",
        b"fit",
    ])
}

/// The texts of a record: the number of the row, its values and costs, the heights that are named for it, and what is
/// read otherwise.
#[derive(Clone, Copy)]
struct RowTexts<'a> {
    number: &'a [u8],
    given: &'a [u8],
    low: &'a [u8],
    high: &'a [u8],
    explains: &'a [u8],
    left: &'a [u8],
    blunders: &'a [u8],
    poles: &'a [u8],
    instruments: &'a [u8],
    reading: &'a [u8],
    name: &'a [u8],
    fit: &'a [u8],
}

/// Writes the record of a row at its place.
fn write_row(
    alloc: Global,
    records: &mut RowWriter,
    named: &[Named],
    place: usize,
    row: &Row,
) -> Result<(), AllocError>
    ensures { OnOk result (records.new.text
        ≡ records.old.text ++ row_text (row_record named.now (place, row.now))) }
{
    let mut number = Buffer::new();
    let mut blunders = Buffer::new();
    let given = length_text(row.values.map(|values| values.given));
    let low = length_text(row.values.map(|values| values.low));
    let high = length_text(row.values.map(|values| values.high));
    let explains = cost_text(alloc, row.explains)?;
    let left = cost_text(alloc, row.left)?;
    let poles = poles_text(alloc, named, place)?;
    let instruments = instruments_text(alloc, named, place)?;
    let texts = RowTexts {
        number: number.format(row.number).as_bytes(),
        given: length_field(&given),
        low: length_field(&low),
        high: length_field(&high),
        explains: explains.as_slice(),
        left: left.as_slice(),
        blunders: blunders.format(row.blunders).as_bytes(),
        poles: poles.as_slice(),
        instruments: instruments.as_slice(),
        reading: b"",
        name: b"",
        fit: b"",
    };
    write_record(records, row, &texts)
}

/// Writes the record of a reading of a row.
fn write_read(
    alloc: Global,
    records: &mut RowWriter,
    row: &Row,
    own: &ReadingRow,
) -> Result<(), AllocError>
    ensures { OnOk result (records.new.text ≡ records.old.text ++ csv_text (record_read own.now row.now)) }
{
    let given = length_text(row.values.map(|values| values.given));
    let low = length_text(row.values.map(|values| values.low));
    let high = length_text(row.values.map(|values| values.high));
    let fit = cost_text(alloc, u128::from(own.fit))?;
    let texts = RowTexts {
        number: b"",
        given: length_field(&given),
        low: length_field(&low),
        high: length_field(&high),
        explains: b"",
        left: b"",
        blunders: b"",
        poles: b"",
        instruments: b"",
        reading: reading_word(&own.read),
        name: name_read(&own.read),
        fit: fit.as_slice(),
    };
    write_record(records, row, &texts)
}

/// What is read otherwise.
fn reading_word(read: &ReadAs) -> &[u8]
    ensures { result.now ≡ reading_word read.now }
{
    match read {
        ReadAs::Target(_) => b"target",
        ReadAs::Station(_) => b"station",
        ReadAs::Point(_) => b"point",
        ReadAs::OtherSign => b"sign",
    }
}

/// The name that is read, and nothing for a sign.
fn name_read(read: &ReadAs) -> &[u8]
    ensures { result.now ≡ name_read read.now }
{
    match read {
        ReadAs::Target(name) => name.as_bytes(),
        ReadAs::Station(name) => name.as_bytes(),
        ReadAs::Point(name) => name.as_bytes(),
        ReadAs::OtherSign => b"",
    }
}

/// Writes the record of a row with these texts.
#[tactic(auto, unfolding(crate::specs::Tables::record_with))]
fn write_record(records: &mut RowWriter, row: &Row, texts: &RowTexts<'_>) -> Result<(), AllocError>
    ensures { OnOk result (records.new.text ≡ records.old.text ++ row_text (record_with row.now (texts_in texts.now))) }
{
    let mut book = Buffer::new();
    let mut line = Buffer::new();
    let mut sights = Buffer::new();
    let mut last = Buffer::new();
    records.write(&[
        texts.number,
        kind_word(&row.kind),
        number_field(&mut book, row.book),
        number_field(&mut line, row.line),
        word_index(&row.kind),
        name_field(&row.from),
        name_field(&row.to),
        sights.format(row.sights).as_bytes(),
        texts.given,
        texts.low,
        texts.high,
        texts.explains,
        texts.left,
        texts.blunders,
        number_field(&mut last, row.last),
        texts.poles,
        texts.instruments,
        texts.reading,
        texts.name,
        texts.fit,
    ])
}

/// The poles that are named for the row at a place, in metres.
fn poles_text(alloc: Global, named: &[Named], place: usize) -> Result<Vec<u8>, AllocError>
    ensures { IfOk result (λ text. text.items ≡ meant_field (filter (is_pole_of place) named.now)) }
{
    let own: Vec<Named> = named
        .iter()
        .copied()
        .filter(|own| own.row == place && is_pole(own.height))
        .collect(alloc)?;
    meant_text(alloc, &own)
}

/// The heights of instruments that are named for the row at a place, in metres.
fn instruments_text(alloc: Global, named: &[Named], place: usize) -> Result<Vec<u8>, AllocError>
    ensures { IfOk result (λ text. text.items ≡ meant_field (filter (is_instrument_of place) named.now)) }
{
    let own: Vec<Named> = named
        .iter()
        .copied()
        .filter(|own| own.row == place && !is_pole(own.height))
        .collect(alloc)?;
    meant_text(alloc, &own)
}

/// Heights that may have been meant, in metres, with a space between them.
fn meant_text(alloc: Global, named: &[Named]) -> Result<Vec<u8>, AllocError>
    ensures { IfOk result (λ text. text.items ≡ meant_field named.now) }
{
    let mut page = Page::new(alloc);
    write_meant(&mut page, named)?;
    Ok(page.into_bytes())
}

/// Writes heights that may have been meant, with a space between them.
#[tactic(auto, unfolding(crate::specs::Tables::meant_field))]
fn write_meant(page: &mut Page, named: &[Named]) -> Result<(), AllocError>
    ensures { OnOk result (page.new ≡ page.old ++ meant_field named.now) }
{
    match named.split_first() {
        Some((first, others)) => {
            write_with_length(page, b"", first.meant)?;
            write_spaced(page, others)
        }
        None => Ok(()),
    }
}

/// Writes further heights that may have been meant.
fn write_spaced(page: &mut Page, named: &[Named]) -> Result<(), AllocError>
    ensures { OnOk result (page.new ≡ page.old ++ flat_map spaced named.now) }
{
    for own in named {
        write_with_length(page, b" ", own.meant)?;
    }
    Ok(())
}

/// The digits of a number, and nothing where there is none.
pub(crate) fn number_field(digits: &mut Buffer, number: Option<u32>) -> &[u8]
    ensures { result.now ≡ number_field number }
{
    match number {
        Some(number) => digits.format(number).as_bytes(),
        None => b"",
    }
}

/// A name, and nothing where there is none.
pub(crate) fn name_field(name: &Option<Name>) -> &[u8]
    ensures { result.now ≡ name_field name.now }
{
    match name {
        Some(name) => name.as_bytes(),
        None => b"",
    }
}

/// A length in metres, where there is one.
pub(crate) fn length_text(length: Option<i64>) -> Option<MetreText>
    ensures { name_field result ≡ length_field length }
{
    match length {
        Some(length) => Some(metre_text(length)),
        None => None,
    }
}

/// The text of a length, and nothing where there is none.
pub(crate) fn length_field(text: &Option<MetreText>) -> &[u8]
    ensures { result.now ≡ name_field text.now }
{
    match text {
        Some(text) => text.as_bytes(),
        None => b"",
    }
}
