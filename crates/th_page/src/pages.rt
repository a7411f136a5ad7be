//! The page.
ghost use Rattle.std.specs.Prelude.{◌≡◌, ◌++◌, IfOk, OnOk};
ghost use Rattle.th_page.specs.Contents.{joined_by, shown_by};
ghost use Rattle.th_page.specs.Pages.{back_part, front_part, height_part, page_text, page_with};

use crate::asks::write_ask_section;
use crate::contents::Shown;
use crate::counts::{Counts, counts_of};
use crate::facts::write_facts;
use crate::figures::write_figure;
use crate::heads::write_head;
use crate::hiding::write_hiding;
use crate::joined::{Joined, joined_of};
use crate::residuals::write_residual_section;
use crate::sections::{
    write_benchmark_section, write_explanation_section, write_height_section, write_note_section,
};
use crate::verdict_texts::write_verdict;
use std::alloc::{AllocError, Global};
use th_columns::Page;
use th_picture::largest_of;

/// The page that shows what was found.
pub fn page_text(alloc: Global, shown: &Shown<'_>) -> Result<Vec<u8>, AllocError>
    ensures { IfOk result (λ text. text.items ≡ page_text (shown_by shown.now)) }
{
    let joined = joined_of(alloc, shown)?;
    let counts = counts_of(shown, &joined);
    page_with(alloc, &counts, shown, &joined)
}

/// The page, given its counts and its rows with what the answer says of them.
#[tactic(auto, unfolding(crate::specs::Pages::page_with))]
fn page_with(
    alloc: Global,
    counts: &Counts,
    shown: &Shown<'_>,
    joined: &Joined,
) -> Result<Vec<u8>, AllocError>
    ensures { IfOk result (λ text. text.items
        ≡ page_with counts.now (shown_by shown.now) (joined_by joined.now)) }
{
    let mut page = Page::new(alloc);
    write_head(
        &mut page,
        shown.title,
        shown.names,
        shown.sums,
        shown.explained.limit,
    )?;
    write_front(&mut page, counts, shown, joined)?;
    write_heights(alloc, &mut page, shown, joined)?;
    write_back(alloc, &mut page, shown)?;
    page.add(b"</body>\n</html>\n")?;
    Ok(page.into_bytes())
}

/// Writes the verdict, the picture and the facts.
#[tactic(auto, unfolding(crate::specs::Pages::front_part))]
fn write_front(
    page: &mut Page,
    counts: &Counts,
    shown: &Shown<'_>,
    joined: &Joined,
) -> Result<(), AllocError>
    ensures { OnOk result (page.new
        ≡ page.old ++ front_part counts.now (shown_by shown.now) (joined_by joined.now)) }
{
    write_verdict(page, counts, shown, joined)?;
    write_figure(page, &joined.dots, &joined.sights, counts.firsts)?;
    write_facts(
        page,
        counts,
        largest_of(shown.explained.limit, &joined.sights),
    )
}

/// Writes the heights, what the benchmarks say, and the residuals.
#[tactic(auto, unfolding(crate::specs::Pages::height_part))]
fn write_heights(
    alloc: Global,
    page: &mut Page,
    shown: &Shown<'_>,
    joined: &Joined,
) -> Result<(), AllocError>
    ensures { OnOk result (page.new
        ≡ page.old ++ height_part (shown_by shown.now) (joined_by joined.now)) }
{
    let limit = shown.explained.limit;
    write_height_section(page, &joined.points)?;
    write_benchmark_section(page, &joined.benchmarks, limit)?;
    write_residual_section(alloc, page, &joined.sights, limit)
}

/// Writes what is behind them.
#[tactic(auto, unfolding(crate::specs::Pages::back_part))]
fn write_back(alloc: Global, page: &mut Page, shown: &Shown<'_>) -> Result<(), AllocError>
    ensures { OnOk result (page.new ≡ page.old ++ back_part (shown_by shown.now)) }
{
    write_explanation_section(page, shown.explained.rows)?;
    write_hiding(alloc, page, shown.sights, shown.benchmarks, shown.entries)?;
    write_note_section(page, shown.notes)?;
    write_ask_section(alloc, page, shown.explained.cost, shown.names, shown.sums)
}
