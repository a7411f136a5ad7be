//! The review for people.
ghost use Rattle.std.specs.Prelude.{◌≡◌, ◌++◌, IfOk, OnOk};
ghost use Rattle.th_inputs.specs.Inputs.{inputs_of};
ghost use Rattle.th_review_rows.specs.Found.{rows_in};
ghost use Rattle.th_review_texts.specs.Reviews.{front_part, review_text, table_part};

use crate::benchmark_tables::write_benchmarks;
use crate::book_tables::write_books;
use crate::entry_tables::write_entries;
use crate::heads::write_head;
use crate::observation_tables::{write_largest, write_observations};
use crate::point_tables::{largest_weight, write_points};
use std::alloc::{AllocError, Global};
use th_columns::Page;
use th_inputs::{NamedInputs, write_inputs};
use th_notes::write_notes;
use th_review_rows::Found;

/// The review for people: what was reviewed in numbers, the books, the inputs, the largest residuals, the
/// points, the observations, the entries and the benchmarks, and the notes.
///
/// The limit of blunders is in units of 10 nm.
#[tactic(auto, unfolding(crate::specs::Reviews::review_text))]
pub(crate) fn review_text(
    alloc: Global,
    found: &Found<'_>,
    inputs: NamedInputs<'_>,
    limit: i64,
) -> Result<Vec<u8>, AllocError>
    ensures { IfOk result (λ text. text.items
        ≡ review_text (rows_in found.now) (inputs_of inputs.entry) limit) }
{
    let mut page = Page::new(alloc);
    write_front(alloc, &mut page, found, inputs, limit)?;
    write_tables(&mut page, found)?;
    write_notes(&mut page, &found.notes)?;
    Ok(page.into_bytes())
}

/// Writes the head, the books, the inputs and the largest residuals.
#[tactic(auto, unfolding(crate::specs::Reviews::front_part))]
fn write_front(
    alloc: Global,
    page: &mut Page,
    found: &Found<'_>,
    inputs: NamedInputs<'_>,
    limit: i64,
) -> Result<(), AllocError>
    ensures { OnOk result (page.new
        ≡ page.old ++ front_part (rows_in found.now) (inputs_of inputs.entry) limit) }
{
    write_head(page, found)?;
    page.end_line()?;
    write_books(page, found.reviews)?;
    page.end_line()?;
    write_inputs(alloc, page, inputs)?;
    page.end_line()?;
    write_largest(alloc, page, &found.observations, limit)?;
    page.end_line()
}

/// Writes the tables of all points, observations, entries and benchmarks.
#[tactic(auto, unfolding(crate::specs::Reviews::table_part))]
fn write_tables(page: &mut Page, found: &Found<'_>) -> Result<(), AllocError>
    ensures { OnOk result (page.new ≡ page.old ++ table_part (rows_in found.now)) }
{
    write_points(page, &found.points, largest_weight(found.network))?;
    page.end_line()?;
    write_observations(page, &found.observations)?;
    page.end_line()?;
    write_entries(page, &found.entries)?;
    page.end_line()?;
    write_benchmarks(page, &found.benchmarks)?;
    page.end_line()
}
