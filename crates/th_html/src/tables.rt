//! What all tables have.
ghost use Rattle.std.specs.Prelude.{◌≡◌, ◌++◌, OnOk, take};
ghost use Rattle.th_html.specs.Tables.{head_end, left_out, more_text, more_words, most_rows, row_open, table_close, table_open, table_start};

use crate::texts::write_number;
use std::alloc::AllocError;
use th_answer::MOST_BENCHMARKS;
use th_columns::Page;

/// The most rows of a table: as many as benchmarks are compared with the others.
const MOST_ROWS: usize = MOST_BENCHMARKS;

/// The first rows, as many as a table has.
pub fn first_rows<T>(rows: &[T]) -> &[T]
    ensures { result.now ≡ take most_rows rows.now }
{
    if rows.len() <= MOST_ROWS {
        rows
    } else {
        &rows[..MOST_ROWS]
    }
}

/// Writes the beginning of a table, with its head.
#[tactic(auto, unfolding(crate::specs::Tables::table_open))]
pub fn write_open(page: &mut Page, head: &[u8]) -> Result<(), AllocError>
    ensures { OnOk result (page.new ≡ page.old ++ table_open head.now) }
{
    write_start(page)?;
    page.add(head)?;
    write_head_end(page)
}

/// Writes what is before the head of a table.
#[tactic(auto, unfolding(crate::specs::Tables::table_start))]
fn write_start(page: &mut Page) -> Result<(), AllocError>
    ensures { OnOk result (page.new ≡ page.old ++ table_start) }
{
    page.add(b"<div class=\"w\"><table>\n<thead><tr>")
}

/// Writes what is behind the head of a table.
#[tactic(auto, unfolding(crate::specs::Tables::head_end))]
pub(crate) fn write_head_end(page: &mut Page) -> Result<(), AllocError>
    ensures { OnOk result (page.new ≡ page.old ++ head_end) }
{
    page.add(b"</thead>\n<tbody>\n")
}

/// Writes the end of a table.
#[tactic(auto, unfolding(crate::specs::Tables::table_close))]
pub fn write_close(page: &mut Page) -> Result<(), AllocError>
    ensures { OnOk result (page.new ≡ page.old ++ table_close) }
{
    page.add(b"</tbody></table></div>\n")
}

/// Writes the beginning of a row, which is marked or not.
pub(crate) fn write_row_open(page: &mut Page, is_marked: bool) -> Result<(), AllocError>
    ensures { OnOk result (page.new ≡ page.old ++ row_open is_marked) }
{
    if is_marked {
        page.add(b"<tr class=\"x\">")
    } else {
        page.add(b"<tr>")
    }
}

/// Writes how many rows were left out, given how many there are.
pub fn write_left_out(page: &mut Page, count: usize) -> Result<(), AllocError>
    ensures { OnOk result (page.new ≡ page.old ++ left_out count) }
{
    if count > MOST_ROWS {
        write_more(page, (count - MOST_ROWS) as u64)
    } else {
        Ok(())
    }
}

/// Writes how many rows were left out.
#[tactic(auto, unfolding(crate::specs::Tables::more_text))]
fn write_more(page: &mut Page, count: u64) -> Result<(), AllocError>
    ensures { OnOk result (page.new ≡ page.old ++ more_text count) }
{
    page.add(b"<p>")?;
    write_number(page, count)?;
    page.add(more_words(count))
}

/// What is said of so many rows.
fn more_words(count: u64) -> &'static [u8]
    ensures { result.now ≡ more_words count }
{
    if count == 1 {
        b" more row is in the tables of height_office review.</p>\n"
    } else {
        b" more rows are in the tables of height_office review.</p>\n"
    }
}
