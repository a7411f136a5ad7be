//! The verdict in words: the heading, the marks, and the sentences of the explanations.
ghost use Rattle.std.specs.Prelude.{◌≡◌, ◌++◌, OnOk, map};
ghost use Rattle.std.specs.List.{flat_map};
ghost use Rattle.th_page.specs.Contents.{joined_by, shown_by};
ghost use Rattle.th_page.specs.Verdicts.{found_part, marks_counts, marks_paragraph, marks_words, said_paragraph, verdict_start, verdict_text};

use crate::contents::Shown;
use crate::counts::Counts;
use crate::joined::Joined;
use crate::meanings::write_meaning;
use crate::verdicts::{Tone, Verdict, tone_of, verdict_of};
use std::alloc::AllocError;
use th_columns::Page;
use th_html::{write_escaped, write_number};

/// Writes the verdict, with the sentences of the explanations and what they mean for the heights.
#[tactic(auto, unfolding(crate::specs::Verdicts::verdict_text))]
pub(crate) fn write_verdict(
    page: &mut Page,
    counts: &Counts,
    shown: &Shown<'_>,
    joined: &Joined,
) -> Result<(), AllocError>
    ensures { OnOk result (page.new ≡ page.old
        ++ verdict_text counts.now (shown_by shown.now) (joined_by joined.now)) }
{
    write_found(page, counts, shown.says)?;
    write_meaning(page, counts, shown, joined)?;
    page.add(b"</div>\n")
}

/// Writes what is found to be wrong.
#[tactic(auto, unfolding(crate::specs::Verdicts::found_part))]
fn write_found(page: &mut Page, counts: &Counts, says: &[&[u8]]) -> Result<(), AllocError>
    ensures { OnOk result (page.new
        ≡ page.old ++ found_part counts.now (map (λ line. line.now) says.now)) }
{
    write_start(page, tone_of(counts), verdict_of(counts))?;
    write_marks(page, counts)?;
    write_says(page, says)
}

/// Writes the beginning, with the heading.
#[tactic(auto, unfolding(crate::specs::Verdicts::verdict_start))]
fn write_start(page: &mut Page, tone: Tone, verdict: Verdict) -> Result<(), AllocError>
    ensures { OnOk result (page.new ≡ page.old ++ verdict_start tone verdict) }
{
    page.add(b"<div class=\"verdict ")?;
    page.add(tone.class())?;
    page.add(b"\">\n<h2>")?;
    page.add(verdict.heading())?;
    page.add(b"</h2>\n")
}

/// Writes how many sights are marked, and whether to use the heights.
#[tactic(auto, unfolding(crate::specs::Verdicts::marks_paragraph))]
fn write_marks(page: &mut Page, counts: &Counts) -> Result<(), AllocError>
    ensures { OnOk result (page.new ≡ page.old ++ marks_paragraph counts.now) }
{
    page.add(b"<p>")?;
    write_marks_counts(page, counts.marked, counts.sights)?;
    page.add(marks_words(counts.marked))?;
    page.add(tone_of(counts).wait_words())?;
    page.add(b"</p>\n")
}

/// Writes how many of so many sights are marked.
#[tactic(auto, unfolding(crate::specs::Verdicts::marks_counts))]
fn write_marks_counts(page: &mut Page, count: u64, total: u64) -> Result<(), AllocError>
    ensures { OnOk result (page.new ≡ page.old ++ marks_counts count total) }
{
    page.add(b"<b>")?;
    write_number(page, count)?;
    page.add(b" of ")?;
    write_number(page, total)?;
    page.add(b" sights marked.</b> ")
}

/// What it means.
fn marks_words(count: u64) -> &'static [u8]
    ensures { result.now ≡ marks_words count }
{
    if count == 0 {
        b"No residual is above the limit."
    } else if count == 1 {
        b"Its residual is above the limit: see <a href=\"#residuals\">residuals</a>."
    } else {
        b"Their residuals are above the limit: see <a href=\"#residuals\">residuals</a>."
    }
}

/// Writes the sentences of the explanations.
fn write_says(page: &mut Page, says: &[&[u8]]) -> Result<(), AllocError>
    ensures { OnOk result (page.new
        ≡ page.old ++ flat_map said_paragraph (map (λ line. line.now) says.now)) }
{
    for sentence in says {
        write_said(page, sentence)?;
    }
    Ok(())
}

/// Writes a sentence.
#[tactic(auto, unfolding(crate::specs::Verdicts::said_paragraph))]
fn write_said(page: &mut Page, sentence: &[u8]) -> Result<(), AllocError>
    ensures { OnOk result (page.new ≡ page.old ++ said_paragraph sentence.now) }
{
    page.add(b"<p>")?;
    write_escaped(page, sentence)?;
    page.add(b"</p>\n")
}
