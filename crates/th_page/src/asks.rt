//! The section of what a client may ask: how the heights were found, how to check them, and from what.
ghost use Rattle.std.specs.Prelude.{◌≡◌, ◌++◌, OnOk, map, zip};
ghost use Rattle.std.specs.List.{flat_map};
ghost use Rattle.th_page.specs.Asks.{ask_section, input_item, sum_text};

use crate::fixed::{write_ask_end, write_ask_middle, write_ask_start};
use std::alloc::{AllocError, Global};
use th_columns::Page;
use th_html::{write_escaped, write_number, write_sized};
use th_inputs::Sum;

/// Writes the section, with the least cost and each input that has a name and a sum.
#[tactic(auto, unfolding(crate::specs::Asks::ask_section))]
pub(crate) fn write_ask_section(
    alloc: Global,
    page: &mut Page,
    cost: u128,
    names: &[&[u8]],
    sums: &[Sum],
) -> Result<(), AllocError>
    ensures { OnOk result (page.new ≡ page.old
        ++ ask_section cost (zip (map (λ name. name.now) names.now) sums.now)) }
{
    write_ask_start(page)?;
    write_sized(page, false, cost)?;
    write_ask_middle(page)?;
    write_inputs(alloc, page, names, sums)?;
    write_ask_end(page)
}

/// Writes each input that has a name and a sum.
fn write_inputs(
    alloc: Global,
    page: &mut Page,
    names: &[&[u8]],
    sums: &[Sum],
) -> Result<(), AllocError>
    ensures { OnOk result (page.new
        ≡ page.old ++ flat_map input_item (zip (map (λ name. name.now) names.now) sums.now)) }
{
    let (Some((name, names)), Some((sum, sums))) = (names.split_first(), sums.split_first()) else {
        return Ok(());
    };
    write_input(alloc, page, name, sum)?;
    write_inputs(alloc, page, names, sums)
}

/// Writes an input with this name.
#[tactic(auto, unfolding(crate::specs::Asks::input_item))]
fn write_input(alloc: Global, page: &mut Page, name: &[u8], sum: &Sum) -> Result<(), AllocError>
    ensures { OnOk result (page.new ≡ page.old ++ input_item (name.now, sum.now)) }
{
    let label = sum.label(alloc)?;
    page.add(b"<li>")?;
    page.add(label.as_bytes())?;
    page.add(b": <bdi>")?;
    write_escaped(page, name)?;
    page.add(b"</bdi> ")?;
    write_sum(alloc, page, sum)
}

/// Writes the length and the digest of an input.
#[tactic(auto, unfolding(crate::specs::Asks::sum_text))]
fn write_sum(alloc: Global, page: &mut Page, sum: &Sum) -> Result<(), AllocError>
    ensures { OnOk result (page.new ≡ page.old ++ sum_text sum.now) }
{
    let digest = sum.digest_text(alloc)?;
    page.add(b"<small>")?;
    write_number(page, sum.length)?;
    page.add(b" B, SHA-256 ")?;
    page.add(digest.as_bytes())?;
    page.add(b"</small>\n")
}
