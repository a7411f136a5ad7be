//! The facts in numbers.
ghost use Rattle.std.specs.Prelude.{◌≡◌, ◌++◌, OnOk};
ghost use Rattle.th_page.specs.Facts.{fact_item, facts_text, largest_item};

use crate::counts::Counts;
use std::alloc::AllocError;
use th_columns::Page;
use th_html::{write_number, write_size};

/// Writes the facts, given the largest residual that is not marked.
#[tactic(auto, unfolding(crate::specs::Facts::facts_text))]
pub(crate) fn write_facts(page: &mut Page, counts: &Counts, largest: u64) -> Result<(), AllocError>
    ensures { OnOk result (page.new ≡ page.old ++ facts_text counts.now largest) }
{
    page.add(b"<ul class=\"facts\">\n")?;
    write_fact(page, counts.sights, b"sights")?;
    write_fact(page, counts.free, b"new points")?;
    write_fact(page, counts.loops, b"sights to spare")?;
    write_largest(page, largest)?;
    page.add(b"</ul>\n")
}

/// Writes a fact: how many of what.
#[tactic(auto, unfolding(crate::specs::Facts::fact_item))]
pub(crate) fn write_fact(page: &mut Page, count: u64, what: &[u8]) -> Result<(), AllocError>
    ensures { OnOk result (page.new ≡ page.old ++ fact_item count what.now) }
{
    page.add(b"<li><b>")?;
    write_number(page, count)?;
    page.add(b"</b>")?;
    page.add(what)?;
    page.add(b"\n")
}

/// Writes the largest residual that is not marked.
#[tactic(auto, unfolding(crate::specs::Facts::largest_item))]
fn write_largest(page: &mut Page, size: u64) -> Result<(), AllocError>
    ensures { OnOk result (page.new ≡ page.old ++ largest_item size) }
{
    page.add(b"<li><b>")?;
    write_size(page, size)?;
    page.add(b"</b>largest residual within the limit\n")
}
