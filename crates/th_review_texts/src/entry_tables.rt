//! The table of entries.
ghost use Rattle.std.specs.Prelude.{◌≡◌, ◌++◌, OnOk, decimal};
ghost use Rattle.std.specs.List.{flat_map};
ghost use Rattle.th_units.specs.Metres.{metres};
ghost use Rattle.th_review_texts.specs.Reviews.{entry_line, entry_lines, entry_places, entry_values};
ghost use Rattle.th_review_rows.specs.Words.{kind_word};

use crate::moves::{write_moved, write_moved_columns};
use itoa::Buffer;
use std::alloc::AllocError;
use th_columns::Page;
use th_entries::Entry;
use th_review_rows::{EntryRow, kind_word, shared_mistake_mark};
use th_units::metre_text;

/// Writes the table of entries.
#[tactic(auto, unfolding(crate::specs::Reviews::entry_lines))]
pub(crate) fn write_entries(page: &mut Page, entries: &[EntryRow]) -> Result<(), AllocError>
    ensures { OnOk result (page.new ≡ page.old ++ entry_lines entries.now) }
{
    write_place_columns(page, b"BK", b"LINE", b"WORD", b"STATION")?;
    write_value_columns(page, b"LENGTH", b"SIGHTS", b"WEIGHT")?;
    write_moved_columns(page, b"MOVES", b"BLAMES", b"")?;
    write_rows(page, entries)
}

/// Writes the line of each entry.
fn write_rows(page: &mut Page, entries: &[EntryRow]) -> Result<(), AllocError>
    ensures { OnOk result (page.new ≡ page.old ++ flat_map entry_line entries.now) }
{
    for row in entries {
        write_entry(page, row)?;
    }
    Ok(())
}

/// Writes the line of an entry.
#[tactic(auto, unfolding(crate::specs::Reviews::entry_line))]
fn write_entry(page: &mut Page, row: &EntryRow) -> Result<(), AllocError>
    ensures { OnOk result (page.new ≡ page.old ++ entry_line row.now) }
{
    write_place(page, &row.entry)?;
    write_values(page, row)?;
    write_moved(page, row.blame, shared_mistake_mark(&row.mistake))
}

/// Writes which entry it is.
fn write_place(page: &mut Page, entry: &Entry) -> Result<(), AllocError>
    ensures { OnOk result (page.new ≡ page.old ++ entry_places (decimal entry.now.book)
        (decimal entry.now.line) (kind_word entry.now.kind) entry.now.station) }
{
    let mut book = Buffer::new();
    let mut line = Buffer::new();
    write_place_columns(
        page,
        book.format(entry.book).as_bytes(),
        line.format(entry.line).as_bytes(),
        kind_word(&entry.kind),
        entry.station.as_bytes(),
    )
}

/// Writes an entry's length, sights and weight.
fn write_values(page: &mut Page, row: &EntryRow) -> Result<(), AllocError>
    ensures { OnOk result (page.new ≡ page.old ++ entry_values (metres row.now.entry.length)
        (decimal row.now.entry.sights) (decimal row.now.weight)) }
{
    let length = metre_text(row.entry.length.get());
    let mut sights = Buffer::new();
    let mut weight = Buffer::new();
    write_value_columns(
        page,
        length.as_bytes(),
        sights.format(row.entry.sights).as_bytes(),
        weight.format(row.weight).as_bytes(),
    )
}

/// Writes the columns that say which entry it is.
#[tactic(auto, unfolding(crate::specs::Reviews::entry_places))]
fn write_place_columns(
    page: &mut Page,
    book: &[u8],
    line: &[u8],
    word: &[u8],
    station: &[u8],
) -> Result<(), AllocError>
    ensures { OnOk result (page.new
        ≡ page.old ++ entry_places book.now line.now word.now station.now) }
{
    page.right(2, book)?;
    page.gap_right(8, line)?;
    page.gap_right(4, word)?;
    page.gap()?;
    page.left_gap(16, station)
}

/// Writes the columns of a length, a number of sights and a weight.
#[tactic(auto, unfolding(crate::specs::Reviews::entry_values))]
fn write_value_columns(
    page: &mut Page,
    length: &[u8],
    sights: &[u8],
    weight: &[u8],
) -> Result<(), AllocError>
    ensures { OnOk result (page.new ≡ page.old ++ entry_values length.now sights.now weight.now) }
{
    page.right(20, length)?;
    page.gap_right(6, sights)?;
    page.gap_right(8, weight)
}
