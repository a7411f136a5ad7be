//! The legend of the picture and of the strip.
ghost use Rattle.std.specs.Prelude.{◌≡◌, ◌++◌, OnOk};
ghost use Rattle.std.specs.List.{flat_map};
ghost use Rattle.th_picture.specs.Legends.{legend_text, question_words, sample_of, sample_text, words_of};

use crate::drawn::DrawnSight;
use crate::groups::{letter_of, occurs};
use std::alloc::AllocError;
use th_answer::Group;
use th_columns::Page;

/// The groups in the order of the legend: what is in question comes first.
const LEGEND: [Group; 5] = [
    Group::Question,
    Group::Stays,
    Group::Cleared,
    Group::Unlike,
    Group::Fits,
];

/// Writes the legend of some sights: the groups that occur, and benchmarks. `firsts` is how many numbers
/// explain most.
#[tactic(auto, unfolding(crate::specs::Legends::legend_text))]
pub fn write_legend(page: &mut Page, sights: &[DrawnSight], firsts: u64) -> Result<(), AllocError>
    ensures { OnOk result (page.new ≡ page.old ++ legend_text sights.now firsts) }
{
    page.add(b"<ul class=\"legend\">\n")?;
    write_samples(page, sights, firsts, &LEGEND)?;
    page.add(
        b"<li><svg viewBox=\"0 0 500 160\"><path class=\"k\" d=\"M250 20l70 120h-140z\"/></svg>benchmark\n</ul>\n",
    )
}

/// Writes the lines of some groups.
fn write_samples(
    page: &mut Page,
    sights: &[DrawnSight],
    firsts: u64,
    groups: &[Group],
) -> Result<(), AllocError>
    ensures { OnOk result (page.new
        ≡ page.old ++ flat_map (sample_of sights.now firsts) groups.now) }
{
    for group in groups {
        write_sample_of(page, sights, firsts, *group)?;
    }
    Ok(())
}

/// Writes the line of a group, if it occurs.
fn write_sample_of(
    page: &mut Page,
    sights: &[DrawnSight],
    firsts: u64,
    group: Group,
) -> Result<(), AllocError>
    ensures { OnOk result (page.new ≡ page.old ++ sample_of sights.now firsts group) }
{
    if occurs(sights, group) {
        write_sample(page, letter_of(group), words_of(firsts, group))
    } else {
        Ok(())
    }
}

/// Writes a line: what is drawn, and its words.
#[tactic(auto, unfolding(crate::specs::Legends::sample_text))]
fn write_sample(page: &mut Page, letter: u8, words: &[u8]) -> Result<(), AllocError>
    ensures { OnOk result (page.new ≡ page.old ++ sample_text letter words.now) }
{
    page.add(b"<li><svg viewBox=\"0 0 500 160\"><path class=\"")?;
    page.add(&[letter])?;
    page.add(b"\" d=\"M0 80H500\"/></svg>")?;
    page.add(words)?;
    page.add(b"\n")
}

/// What is said of the sights of a group, if so many numbers explain most.
fn words_of(firsts: u64, group: Group) -> &'static [u8]
    ensures { result.now ≡ words_of firsts group }
{
    match group {
        Group::Question => question_words(firsts),
        Group::Stays => b"does not fit",
        Group::Cleared => b"does not fit now, but does with the right number",
        Group::Unlike => b"within the limit, but unlike the others",
        Group::Fits => b"fits",
    }
}

/// What is said of a sight in question, if so many numbers explain most.
fn question_words(firsts: u64) -> &'static [u8]
    ensures { result.now ≡ question_words firsts }
{
    if firsts <= 1 {
        b"sight with the wrong number"
    } else {
        b"sight with a number that may be wrong"
    }
}
