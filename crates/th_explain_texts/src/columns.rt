//! The head and the columns of the text for people.
ghost use Rattle.std.specs.Prelude.{◌≡◌, ◌++◌, OnOk, decimal};
ghost use Rattle.std.specs.List.{flat_map};
ghost use Rattle.th_explain_texts.specs.Columns.{cost_line, cost_lines, count_lines, end_columns, header_line, mildest_of, mildest_value, place_columns, row_line, row_lines, value_columns};
ghost use Rattle.th_explain_texts.specs.Costs.{cost_metres};
ghost use Rattle.th_explain_texts.specs.Tables.{length_field, name_field, number_field};
ghost use Rattle.th_explain_texts.specs.Words.{since_mark, word_index};

use crate::costs::cost_text;
use crate::rows::{Row, Summary, Values};
use crate::tables::{length_field, length_text, name_field, number_field};
use crate::words::{since_mark, word_index};
use itoa::Buffer;
use std::alloc::{AllocError, Global};
use th_columns::{Page, write_count, write_label, write_limit};

/// Writes the cost, the limit of blunders, and how many are marked.
#[tactic(auto, unfolding(crate::specs::Columns::cost_lines))]
pub(crate) fn write_costs(
    alloc: Global,
    page: &mut Page,
    summary: &Summary,
) -> Result<(), AllocError>
    ensures { OnOk result (page.new ≡ page.old ++ cost_lines summary.now) }
{
    write_cost(alloc, page, summary.cost)?;
    write_limit(page, summary.limit)?;
    write_count(page, b"marked", summary.marked)
}

/// Writes the cost.
#[tactic(auto, unfolding(crate::specs::Columns::cost_line))]
fn write_cost(alloc: Global, page: &mut Page, cost: u128) -> Result<(), AllocError>
    ensures { OnOk result (page.new ≡ page.old ++ cost_line cost) }
{
    let text = cost_text(alloc, cost)?;
    write_label(page, b"cost", text.as_slice())
}

/// Writes how many numbers there are of each kind.
#[tactic(auto, unfolding(crate::specs::Columns::count_lines))]
pub(crate) fn write_counts(page: &mut Page, summary: &Summary) -> Result<(), AllocError>
    ensures { OnOk result (page.new ≡ page.old ++ count_lines summary.now) }
{
    write_count(page, b"sights", summary.sights)?;
    write_count(page, b"entries", summary.entries)?;
    write_count(page, b"changes", summary.changes)?;
    write_count(page, b"benchmarks", summary.benchmarks)?;
    write_count(page, b"books", summary.books)
}

/// Writes how many rows there are, and the table of them.
#[tactic(auto, unfolding(crate::specs::Columns::row_lines))]
pub(crate) fn write_table(alloc: Global, page: &mut Page, rows: &[Row]) -> Result<(), AllocError>
    ensures { OnOk result (page.new ≡ page.old ++ row_lines rows.now) }
{
    write_count(page, b"explanations", rows.len())?;
    write_header(page)?;
    write_rows(alloc, page, rows)
}

/// Writes the line of each row.
fn write_rows(alloc: Global, page: &mut Page, rows: &[Row]) -> Result<(), AllocError>
    ensures { OnOk result (page.new ≡ page.old ++ flat_map row_line rows.now) }
{
    for row in rows {
        write_row(alloc, page, row)?;
    }
    Ok(())
}

/// Writes the names of the columns.
#[tactic(auto, unfolding(crate::specs::Columns::header_line))]
fn write_header(page: &mut Page) -> Result<(), AllocError>
    ensures { OnOk result (page.new ≡ page.old ++ header_line) }
{
    write_place_columns(page, b"NO", b"BK", b"LINE", b"WORD")?;
    write_end_columns(page, b"FROM", b"TO")?;
    write_value_columns(page, b"PROPOSED", b"COST LEFT", b"BLUNDERS", b"")
}

/// Writes the line of a row.
#[tactic(auto, unfolding(crate::specs::Columns::row_line))]
fn write_row(alloc: Global, page: &mut Page, row: &Row) -> Result<(), AllocError>
    ensures { OnOk result (page.new ≡ page.old ++ row_line row.now) }
{
    write_place(page, row)?;
    write_end_columns(page, name_field(&row.from), name_field(&row.to))?;
    write_values(alloc, page, row)
}

/// Writes which number a row is.
fn write_place(page: &mut Page, row: &Row) -> Result<(), AllocError>
    ensures { OnOk result (page.new ≡ page.old ++ place_columns (decimal row.now.number)
        (number_field row.now.book) (number_field row.now.line) (word_index row.now.kind)) }
{
    let mut number = Buffer::new();
    let mut book = Buffer::new();
    let mut line = Buffer::new();
    write_place_columns(
        page,
        number.format(row.number).as_bytes(),
        number_field(&mut book, row.book),
        number_field(&mut line, row.line),
        word_index(&row.kind),
    )
}

/// Writes what a row proposes, and what it leaves.
fn write_values(alloc: Global, page: &mut Page, row: &Row) -> Result<(), AllocError>
    ensures { OnOk result (page.new ≡ page.old ++ value_columns (length_field (mildest_of row.now))
        (cost_metres row.now.left) (decimal row.now.blunders) (since_mark row.now.kind)) }
{
    let proposed = length_text(row.values.map(|values| mildest_value(&values)));
    let left = cost_text(alloc, row.left)?;
    let mut blunders = Buffer::new();
    write_value_columns(
        page,
        length_field(&proposed),
        left.as_slice(),
        blunders.format(row.blunders).as_bytes(),
        since_mark(&row.kind),
    )
}

/// The proposed value that is nearest to the given one.
pub fn mildest_value(values: &Values) -> i64
    ensures { result ≡ mildest_value values.now }
{
    if values.given < values.low {
        values.low
    } else if values.high < values.given {
        values.high
    } else {
        values.given
    }
}

/// Writes the columns that say which number it is.
#[tactic(auto, unfolding(crate::specs::Columns::place_columns))]
fn write_place_columns(
    page: &mut Page,
    number: &[u8],
    book: &[u8],
    line: &[u8],
    word: &[u8],
) -> Result<(), AllocError>
    ensures { OnOk result (page.new
        ≡ page.old ++ place_columns number.now book.now line.now word.now) }
{
    page.right(4, number)?;
    page.gap_right(2, book)?;
    page.gap_right(6, line)?;
    page.gap_right(4, word)?;
    page.gap()
}

/// Writes the columns of the ends.
#[tactic(auto, unfolding(crate::specs::Columns::end_columns))]
fn write_end_columns(page: &mut Page, from: &[u8], to: &[u8]) -> Result<(), AllocError>
    ensures { OnOk result (page.new ≡ page.old ++ end_columns from.now to.now) }
{
    page.left_gap(16, from)?;
    page.left_gap(16, to)
}

/// Writes the other columns.
#[tactic(auto, unfolding(crate::specs::Columns::value_columns))]
fn write_value_columns(
    page: &mut Page,
    proposed: &[u8],
    left: &[u8],
    blunders: &[u8],
    mark: &[u8],
) -> Result<(), AllocError>
    ensures { OnOk result (page.new
        ≡ page.old ++ value_columns proposed.now left.now blunders.now mark.now) }
{
    page.right(13, proposed)?;
    page.gap_right(12, left)?;
    page.right(9, blunders)?;
    page.add(mark)?;
    page.end_line()
}
