//! The text for people.
ghost use Rattle.std.specs.Prelude.{◌≡◌, IfOk};
ghost use Rattle.th_explain_texts.specs.Sentences.{sentences};
ghost use Rattle.th_explain_texts.specs.Texts.{explanation_text};

use crate::columns::{write_costs, write_counts, write_table};
use crate::pasting::write_pasted;
use crate::rows::{Named, ReadingRow, Row, Summary};
use crate::sentences::{Fitting, write_sentences};
use std::alloc::{AllocError, Global};
use th_columns::Page;

/// The text for people: what was looked at in numbers, the rows, what they say, with the heights that may have been
/// meant and the readings that fit, and the changes that mend the book.
#[tactic(auto, unfolding(crate::specs::Texts::explanation_text))]
pub fn explanations_text(
    alloc: Global,
    summary: &Summary,
    rows: &[Row],
    named: &[Named],
    readings: &[ReadingRow],
) -> Result<Vec<u8>, AllocError>
    ensures { IfOk result (λ text. text.items ≡ explanation_text summary.now rows.now named.now readings.now) }
{
    let mut page = Page::new(alloc);
    write_costs(alloc, &mut page, summary)?;
    write_counts(&mut page, summary)?;
    write_table(alloc, &mut page, rows)?;
    page.end_line()?;
    let fitting = Fitting { named, readings };
    write_sentences(alloc, &mut page, summary, rows, fitting)?;
    write_pasted(&mut page, summary.books > 1, rows, named)?;
    Ok(page.into_bytes())
}

/// What the rows say alone: the sentences of the text for people, each on a line.
pub fn sentences_text(
    alloc: Global,
    summary: &Summary,
    rows: &[Row],
    named: &[Named],
    readings: &[ReadingRow],
) -> Result<Vec<u8>, AllocError>
    ensures { IfOk result (λ text. text.items ≡ sentences summary.now rows.now named.now readings.now) }
{
    let mut page = Page::new(alloc);
    let fitting = Fitting { named, readings };
    write_sentences(alloc, &mut page, summary, rows, fitting)?;
    Ok(page.into_bytes())
}
