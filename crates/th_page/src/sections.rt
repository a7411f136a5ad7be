//! The sections of heights, benchmarks, explanations and notes.
ghost use Rattle.std.specs.Prelude.{◌≡◌, ◌++◌, OnOk, map};
ghost use Rattle.std.specs.List.{flat_map};
ghost use Rattle.th_page.specs.Sections.{benchmark_section, explanation_section, height_section, note_item, note_section, struck_words};

use crate::fixed::{
    write_benchmark_start, write_explanation_start, write_height_note, write_height_start,
    write_note_start, write_section_end,
};
use std::alloc::AllocError;
use th_columns::Page;
use th_explain_texts::Row;
use th_html::{
    ShownBenchmark, ShownPoint, moved_count, write_escaped, write_explanations, write_heights,
    write_others,
};

/// Writes the section of heights.
#[tactic(auto, unfolding(crate::specs::Sections::height_section))]
pub(crate) fn write_height_section(page: &mut Page, points: &[ShownPoint]) -> Result<(), AllocError>
    ensures { OnOk result (page.new ≡ page.old ++ height_section points.now) }
{
    write_height_start(page)?;
    page.add(struck_words(moved_count(points)))?;
    write_height_note(page)?;
    write_heights(page, points)?;
    write_section_end(page)
}

/// Which heights not to use, if so many are struck out.
fn struck_words(count: u64) -> &'static [u8]
    ensures { result.now ≡ struck_words count }
{
    if count == 0 {
        b""
    } else {
        b"<span class=\"r\">Do not use the heights that are struck out.</span> "
    }
}

/// Writes the section of benchmarks, if there are any.
#[tactic(auto, unfolding(crate::specs::Sections::benchmark_section))]
pub(crate) fn write_benchmark_section(
    page: &mut Page,
    rows: &[ShownBenchmark],
    limit: i64,
) -> Result<(), AllocError>
    ensures { OnOk result (page.new ≡ page.old ++ benchmark_section rows.now limit) }
{
    if rows.is_empty() {
        return Ok(());
    }
    write_benchmark_start(page)?;
    write_others(page, rows, limit)?;
    write_section_end(page)
}

/// Writes the section of explanations, if there are any.
#[tactic(auto, unfolding(crate::specs::Sections::explanation_section))]
pub(crate) fn write_explanation_section(page: &mut Page, rows: &[Row]) -> Result<(), AllocError>
    ensures { OnOk result (page.new ≡ page.old ++ explanation_section rows.now) }
{
    if rows.is_empty() {
        return Ok(());
    }
    write_explanation_start(page)?;
    write_explanations(page, rows)?;
    write_section_end(page)
}

/// Writes the section of notes, if there are any.
#[tactic(auto, unfolding(crate::specs::Sections::note_section))]
pub(crate) fn write_note_section(page: &mut Page, notes: &[&[u8]]) -> Result<(), AllocError>
    ensures { OnOk result (page.new ≡ page.old ++ note_section (map (λ note. note.now) notes.now)) }
{
    if notes.is_empty() {
        return Ok(());
    }
    write_note_start(page)?;
    write_note_items(page, notes)?;
    page.add(b"</ul>\n")?;
    write_section_end(page)
}

/// Writes each note.
fn write_note_items(page: &mut Page, notes: &[&[u8]]) -> Result<(), AllocError>
    ensures { OnOk result (page.new
        ≡ page.old ++ flat_map note_item (map (λ note. note.now) notes.now)) }
{
    for note in notes {
        write_note(page, note)?;
    }
    Ok(())
}

/// Writes a note.
#[tactic(auto, unfolding(crate::specs::Sections::note_item))]
fn write_note(page: &mut Page, note: &[u8]) -> Result<(), AllocError>
    ensures { OnOk result (page.new ≡ page.old ++ note_item note.now) }
{
    page.add(b"<li>")?;
    write_escaped(page, note)?;
    page.add(b"\n")
}
