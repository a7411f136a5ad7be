//! The head: the title, and what the heights come from.
ghost use Rattle.std.specs.Prelude.{◌≡◌, ◌++◌, OnOk, map, zip};
ghost use Rattle.std.specs.List.{flat_map};
ghost use Rattle.th_page.specs.Heads.{head_part, name_text, names_text, next_name, source_text, title_part};

use crate::fixed::{write_body_text, write_head_text, write_style_text, write_title_end};
use std::alloc::AllocError;
use th_columns::Page;
use th_html::{write_escaped, write_size};
use th_inputs::Sum;

/// Writes the head of a page of inputs, each with a name and a sum, and the limit of blunders.
#[tactic(auto, unfolding(crate::specs::Heads::head_part))]
pub(crate) fn write_head(
    page: &mut Page,
    title: &[u8],
    names: &[&[u8]],
    sums: &[Sum],
    limit: i64,
) -> Result<(), AllocError>
    ensures { OnOk result (page.new ≡ page.old
        ++ head_part title.now (zip (map (λ name. name.now) names.now) sums.now) limit) }
{
    write_title(page, title)?;
    write_source(page, names, sums, limit)
}

/// Writes the title, in the head and above the page.
#[tactic(auto, unfolding(crate::specs::Heads::title_part))]
fn write_title(page: &mut Page, title: &[u8]) -> Result<(), AllocError>
    ensures { OnOk result (page.new ≡ page.old ++ title_part title.now) }
{
    write_head_text(page)?;
    write_escaped(page, title)?;
    write_title_end(page)?;
    write_style_text(page)?;
    write_body_text(page)?;
    write_escaped(page, title)?;
    page.add(b"</h1>\n")
}

/// Writes what the heights come from, and the limit.
#[tactic(auto, unfolding(crate::specs::Heads::source_text))]
fn write_source(
    page: &mut Page,
    names: &[&[u8]],
    sums: &[Sum],
    limit: i64,
) -> Result<(), AllocError>
    ensures { OnOk result (page.new ≡ page.old
        ++ source_text (zip (map (λ name. name.now) names.now) sums.now) limit) }
{
    page.add(b"<p class=\"of\">Heights from ")?;
    write_names(page, names, sums)?;
    page.add(b" &middot; limit ")?;
    write_size(page, limit.unsigned_abs())?;
    page.add(b"</p>\n")
}

/// Writes the names of the inputs.
fn write_names(page: &mut Page, names: &[&[u8]], sums: &[Sum]) -> Result<(), AllocError>
    ensures { OnOk result (page.new
        ≡ page.old ++ names_text (zip (map (λ name. name.now) names.now) sums.now)) }
{
    let (Some((name, names)), Some((_, sums))) = (names.split_first(), sums.split_first()) else {
        return Ok(());
    };
    write_name(page, name)?;
    write_next_names(page, names, sums)
}

/// Writes the names of inputs behind others.
fn write_next_names(page: &mut Page, names: &[&[u8]], sums: &[Sum]) -> Result<(), AllocError>
    ensures { OnOk result (page.new
        ≡ page.old ++ flat_map next_name (zip (map (λ name. name.now) names.now) sums.now)) }
{
    let (Some((name, names)), Some((sum, sums))) = (names.split_first(), sums.split_first()) else {
        return Ok(());
    };
    write_next_name(page, name, sum)?;
    write_next_names(page, names, sums)
}

/// Writes the name of an input behind others.
#[tactic(auto, unfolding(crate::specs::Heads::next_name))]
fn write_next_name(page: &mut Page, name: &[u8], _sum: &Sum) -> Result<(), AllocError>
    ensures { OnOk result (page.new ≡ page.old ++ next_name (name.now, _sum.now)) }
{
    page.add(b", ")?;
    write_name(page, name)
}

/// Writes the name of an input.
#[tactic(auto, unfolding(crate::specs::Heads::name_text))]
fn write_name(page: &mut Page, name: &[u8]) -> Result<(), AllocError>
    ensures { OnOk result (page.new ≡ page.old ++ name_text name.now) }
{
    page.add(b"<bdi>")?;
    write_escaped(page, name)?;
    page.add(b"</bdi>")
}
