//! The changes that mend a book, as a table to be pasted.
ghost use Rattle.std.specs.Prelude.{◌≡◌, ◌++◌, OnOk, codes};
ghost use Rattle.th_units.specs.Metres.{metres};
ghost use Rattle.th_explain_texts.specs.Pasting.{change_record, change_table, changed_word, leaves_out, of_book, pasted, purpose, purpose_line, sight_word, table_of, word_and_value};
ghost use Rattle.th_explain_texts.specs.Tables.{number_field};

use crate::called::{write_number, write_numbered};
use crate::fitting::write_with_length;
use crate::rows::{Kind, Named, Row};
use crate::words::is_sight;
use std::alloc::AllocError;
use th_columns::Page;
use th_entries::HeightKind;

/// Writes the table of changes, if just one height is named.
pub(crate) fn write_pasted(
    page: &mut Page,
    several: bool,
    rows: &[Row],
    named: &[Named],
) -> Result<(), AllocError>
    ensures { OnOk result (page.new ≡ page.old ++ pasted several rows.now named.now) }
{
    match named {
        [own] => write_table_of(page, several, rows, own),
        _ => Ok(()),
    }
}

/// Writes the table of changes of a height, if it is of one of the rows.
fn write_table_of(
    page: &mut Page,
    several: bool,
    rows: &[Row],
    named: &Named,
) -> Result<(), AllocError>
    ensures { OnOk result (page.new ≡ page.old ++ table_of several rows.now named.now) }
{
    match rows.get(named.row) {
        Some(row) => write_change_table(page, several, named, row),
        None => Ok(()),
    }
}

/// Writes a table of changes, behind what it is for.
fn write_change_table(
    page: &mut Page,
    several: bool,
    named: &Named,
    row: &Row,
) -> Result<(), AllocError>
    ensures { OnOk result (page.new ≡ page.old ++ change_table several named.now row.now) }
{
    write_purpose_line(page, several, named, row)?;
    write_change_record(page, named, row)
}

/// Writes an empty line, and what the table is for.
fn write_purpose_line(
    page: &mut Page,
    several: bool,
    named: &Named,
    row: &Row,
) -> Result<(), AllocError>
    ensures { OnOk result (page.new ≡ page.old ++ purpose_line several named.now row.now) }
{
    page.end_line()?;
    write_purpose(page, named, row)?;
    page.add(b", height_office mend takes these changes")?;
    write_of_book(page, several, row)?;
    page.add(b":\n")
}

/// Writes the header and the record of the table.
fn write_change_record(page: &mut Page, named: &Named, row: &Row) -> Result<(), AllocError>
    ensures { OnOk result (page.new ≡ page.old ++ change_record named.now row.now) }
{
    page.add(b"line,word,value\n")?;
    write_number(page, row.line)?;
    write_word_and_value(page, named, row)?;
    page.end_line()
}

/// Writes what becomes of the height.
#[tactic(auto, unfolding(crate::specs::Pasting::purpose))]
fn write_purpose(page: &mut Page, named: &Named, row: &Row) -> Result<(), AllocError>
    ensures { OnOk result (page.new ≡ page.old ++ purpose named.now row.now) }
{
    if leaves_out(named, row) {
        return page.add(b"To leave the sight out");
    }
    write_with_length(page, b"If ", named.meant)?;
    page.add(b" was meant")
}

/// Whether a sight is left out, since other sights use its height too.
fn leaves_out(named: &Named, row: &Row) -> bool
    ensures { result ≡ leaves_out named.now row.now }
{
    is_sight(&row.kind) && !named.whole
}

/// Writes which book is mended, if there are several.
#[tactic(auto, unfolding(crate::specs::Pasting::of_book))]
fn write_of_book(page: &mut Page, several: bool, row: &Row) -> Result<(), AllocError>
    ensures { OnOk result (page.new ≡ page.old ++ of_book several row.now) }
{
    if several {
        write_numbered(page, b" of book ", row.book)
    } else {
        Ok(())
    }
}

/// Writes the word and the value of the change.
#[tactic(auto, unfolding(crate::specs::Pasting::word_and_value))]
fn write_word_and_value(page: &mut Page, named: &Named, row: &Row) -> Result<(), AllocError>
    ensures { OnOk result (page.new ≡ page.old ++ word_and_value named.now row.now) }
{
    if leaves_out(named, row) {
        return page.add(b",33,");
    }
    page.add(b",")?;
    page.add(changed_word(named.height, &row.kind))?;
    write_with_length(page, b",", named.meant)
}

/// What a table of changes calls a height of a row.
fn changed_word(height: HeightKind, kind: &Kind) -> &'static [u8]
    ensures { result.now ≡ changed_word height kind.now }
{
    match kind {
        Kind::Instrument => b"88",
        Kind::Reflector => b"87",
        Kind::InstrumentSince => b"88 since",
        Kind::ReflectorSince => b"87 since",
        Kind::Sight => sight_word(height),
        Kind::Benchmark | Kind::Book => b"",
    }
}

/// What it calls a height of a sight.
fn sight_word(height: HeightKind) -> &'static [u8]
    ensures { result.now ≡ sight_word height }
{
    match height {
        HeightKind::Reflector => b"87",
        HeightKind::Instrument => b"88",
    }
}
