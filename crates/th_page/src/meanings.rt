//! What the verdict means for the heights, and what nothing checks.
ghost use Rattle.std.specs.Prelude.{◌≡◌, ◌++◌, OnOk};
ghost use Rattle.std.specs.List.{flat_map};
ghost use Rattle.th_page.specs.Contents.{joined_by, shown_by};
ghost use Rattle.th_page.specs.Verdicts.{both_called, count_text, depend_words, entries_called, lone_paragraph, many_words, meaning_part, moved_words, moves_note, moves_paragraph, moves_words, one_words, outlier_limit, outlier_note, outlier_paragraph, outlier_sight, outlier_size, point_heights, point_name, point_words, sights_called, still_words, unchecked_called, unchecked_note, unchecked_paragraph, unlike_paragraph, words_of_point};

use crate::contents::Shown;
use crate::counts::Counts;
use crate::joined::Joined;
use crate::verdicts::{Verdict, all_checked, verdict_of};
use std::alloc::AllocError;
use th_answer::Moved;
use th_columns::Page;
use th_html::{ShownPoint, write_escaped, write_height, write_number, write_size};
use th_remarks::Outlier;
use th_review_rows::PointRow;

/// Writes what the verdict means for the heights, and what nothing checks.
#[tactic(auto, unfolding(crate::specs::Verdicts::meaning_part))]
pub(crate) fn write_meaning(
    page: &mut Page,
    counts: &Counts,
    shown: &Shown<'_>,
    joined: &Joined,
) -> Result<(), AllocError>
    ensures { OnOk result (page.new ≡ page.old
        ++ meaning_part counts.now (shown_by shown.now) (joined_by joined.now)) }
{
    let explained = &shown.explained;
    write_moves(page, counts, explained.limit.unsigned_abs(), &joined.points)?;
    write_unlike(page, verdict_of(counts), &explained.answer.outlier)?;
    write_unchecked(page, counts)?;
    write_lone(page, counts.benchmarks)
}

/// Writes which heights move, if a number explains anything.
fn write_moves(
    page: &mut Page,
    counts: &Counts,
    limit: u64,
    points: &[ShownPoint],
) -> Result<(), AllocError>
    ensures { OnOk result (page.new ≡ page.old ++ moves_paragraph counts.now limit points.now) }
{
    if counts.firsts == 0 {
        Ok(())
    } else {
        write_moves_note(page, counts, limit, points)
    }
}

/// Writes which heights move.
#[tactic(auto, unfolding(crate::specs::Verdicts::moves_note))]
fn write_moves_note(
    page: &mut Page,
    counts: &Counts,
    limit: u64,
    points: &[ShownPoint],
) -> Result<(), AllocError>
    ensures { OnOk result (page.new ≡ page.old ++ moves_note counts.now limit points.now) }
{
    page.add(b"<p>")?;
    write_moves_words(page, counts, limit, points)?;
    page.add(b"</p>\n")
}

/// Writes what the numbers that explain most move.
fn write_moves_words(
    page: &mut Page,
    counts: &Counts,
    limit: u64,
    points: &[ShownPoint],
) -> Result<(), AllocError>
    ensures { OnOk result (page.new ≡ page.old ++ moves_words counts.now limit points.now) }
{
    if counts.moved == 0 {
        write_still(page, limit)
    } else if counts.firsts == 1 {
        write_one(page, counts.moved, limit, points)
    } else {
        write_depend(page, counts.moved, limit)
    }
}

/// Writes that no height moves.
#[tactic(auto, unfolding(crate::specs::Verdicts::still_words))]
fn write_still(page: &mut Page, limit: u64) -> Result<(), AllocError>
    ensures { OnOk result (page.new ≡ page.old ++ still_words limit) }
{
    page.add(b"No height moves by more than ")?;
    write_size(page, limit)?;
    page.add(b" then.")
}

/// Writes what one number moves.
fn write_one(
    page: &mut Page,
    count: u64,
    limit: u64,
    points: &[ShownPoint],
) -> Result<(), AllocError>
    ensures { OnOk result (page.new ≡ page.old ++ one_words count limit points.now) }
{
    if count == 1 {
        write_points(page, points)
    } else {
        write_many(page, count, limit)
    }
}

/// Writes that heights move.
#[tactic(auto, unfolding(crate::specs::Verdicts::many_words))]
fn write_many(page: &mut Page, count: u64, limit: u64) -> Result<(), AllocError>
    ensures { OnOk result (page.new ≡ page.old ++ many_words count limit) }
{
    page.add(b"Then ")?;
    write_number(page, count)?;
    page.add(b" heights move by more than ")?;
    write_size(page, limit)?;
    page.add(b": they are struck out below.")
}

/// Writes that heights depend on which number is wrong.
#[tactic(auto, unfolding(crate::specs::Verdicts::depend_words))]
fn write_depend(page: &mut Page, count: u64, limit: u64) -> Result<(), AllocError>
    ensures { OnOk result (page.new ≡ page.old ++ depend_words count limit) }
{
    write_counted(page, count, b"height depends", b"heights depend")?;
    page.add(b" on it by more than ")?;
    write_size(page, limit)?;
    page.add(b": struck out below.")
}

/// Writes the height of each point that is moved, and the one in its place.
fn write_points(page: &mut Page, points: &[ShownPoint]) -> Result<(), AllocError>
    ensures { OnOk result (page.new ≡ page.old ++ flat_map words_of_point points.now) }
{
    for point in points {
        write_moved(page, &point.row, &point.moved)?;
    }
    Ok(())
}

/// Writes those of a point, if it is moved.
fn write_moved(page: &mut Page, row: &PointRow, moved: &Option<Moved>) -> Result<(), AllocError>
    ensures { OnOk result (page.new ≡ page.old ++ moved_words row.now moved.now) }
{
    match moved {
        Some(moved) => write_point(page, row, moved),
        None => Ok(()),
    }
}

/// Writes those of a point that is moved.
#[tactic(auto, unfolding(crate::specs::Verdicts::point_words))]
fn write_point(page: &mut Page, row: &PointRow, moved: &Moved) -> Result<(), AllocError>
    ensures { OnOk result (page.new ≡ page.old ++ point_words row.now moved.now) }
{
    write_point_name(page, row)?;
    write_point_heights(page, moved.low, row.low)
}

/// Writes which point it is.
#[tactic(auto, unfolding(crate::specs::Verdicts::point_name))]
fn write_point_name(page: &mut Page, row: &PointRow) -> Result<(), AllocError>
    ensures { OnOk result (page.new ≡ page.old ++ point_name row.now) }
{
    page.add(b"Then the height of <b>")?;
    write_escaped(page, row.name.as_bytes())?;
    page.add(b"</b> is <b>")
}

/// Writes a height, and the one in the place of which it is.
#[tactic(auto, unfolding(crate::specs::Verdicts::point_heights))]
fn write_point_heights(page: &mut Page, mended: i64, height: i64) -> Result<(), AllocError>
    ensures { OnOk result (page.new ≡ page.old ++ point_heights mended height) }
{
    write_height(page, mended)?;
    page.add(b"</b> in place of <s>")?;
    write_height(page, height)?;
    page.add(b"</s>.")
}

/// Writes the sight that is far beyond the others, if the verdict speaks of it.
fn write_unlike(
    page: &mut Page,
    verdict: Verdict,
    outlier: &Option<Outlier>,
) -> Result<(), AllocError>
    ensures { OnOk result (page.new ≡ page.old ++ unlike_paragraph verdict outlier.now) }
{
    match verdict {
        Verdict::Unlike => write_outlier(page, outlier),
        _ => Ok(()),
    }
}

/// Writes that sight, if there is one.
fn write_outlier(page: &mut Page, outlier: &Option<Outlier>) -> Result<(), AllocError>
    ensures { OnOk result (page.new ≡ page.old ++ outlier_paragraph outlier.now) }
{
    match outlier {
        Some(outlier) => write_outlier_note(page, outlier),
        None => Ok(()),
    }
}

/// Writes the sight that is far beyond the others, and the limit that marks it.
#[tactic(auto, unfolding(crate::specs::Verdicts::outlier_note))]
fn write_outlier_note(page: &mut Page, outlier: &Outlier) -> Result<(), AllocError>
    ensures { OnOk result (page.new ≡ page.old ++ outlier_note outlier.now) }
{
    write_outlier_sight(page, outlier)?;
    write_outlier_size(page, outlier)?;
    write_outlier_limit(page, outlier)
}

/// Writes which sight it is.
#[tactic(auto, unfolding(crate::specs::Verdicts::outlier_sight))]
fn write_outlier_sight(page: &mut Page, outlier: &Outlier) -> Result<(), AllocError>
    ensures { OnOk result (page.new ≡ page.old ++ outlier_sight outlier.now) }
{
    page.add(b"<p>The sight in line ")?;
    write_number(page, u64::from(outlier.line))?;
    page.add(b" of book ")?;
    write_number(page, u64::from(outlier.book))?;
    page.add(b" is off by ")
}

/// Writes its residual, and how many times as large it is as the usual one.
#[tactic(auto, unfolding(crate::specs::Verdicts::outlier_size))]
fn write_outlier_size(page: &mut Page, outlier: &Outlier) -> Result<(), AllocError>
    ensures { OnOk result (page.new ≡ page.old ++ outlier_size outlier.now) }
{
    write_size(page, outlier.size)?;
    page.add(b": ")?;
    write_number(page, u64::from(outlier.times))?;
    page.add(b" times the usual residual. ")
}

/// Writes the limit that marks it.
#[tactic(auto, unfolding(crate::specs::Verdicts::outlier_limit))]
fn write_outlier_limit(page: &mut Page, outlier: &Outlier) -> Result<(), AllocError>
    ensures { OnOk result (page.new ≡ page.old ++ outlier_limit outlier.now) }
{
    page.add(b"To see what would explain it, make the page again with <code>--blunder ")?;
    write_number(page, u64::from(outlier.limit))?;
    page.add(b"</code>.</p>\n")
}

/// Writes what nothing checks, if there is anything.
fn write_unchecked(page: &mut Page, counts: &Counts) -> Result<(), AllocError>
    ensures { OnOk result (page.new ≡ page.old ++ unchecked_paragraph counts.now) }
{
    if all_checked(counts) {
        Ok(())
    } else {
        write_unchecked_note(page, counts.unchecked_sights, counts.unchecked_entries)
    }
}

/// Writes how many sights and keyed-in heights nothing checks.
#[tactic(auto, unfolding(crate::specs::Verdicts::unchecked_note))]
fn write_unchecked_note(page: &mut Page, sights: u64, entries: u64) -> Result<(), AllocError>
    ensures { OnOk result (page.new ≡ page.old ++ unchecked_note sights entries) }
{
    page.add(b"<p>Nothing checks ")?;
    write_called(page, sights, entries)?;
    page.add(b": a mistake there would not show.</p>\n")
}

/// Writes how many sights and keyed-in heights it is, without what is checked.
fn write_called(page: &mut Page, sights: u64, entries: u64) -> Result<(), AllocError>
    ensures { OnOk result (page.new ≡ page.old ++ unchecked_called sights entries) }
{
    if sights == 0 {
        write_entries_called(page, entries)
    } else if entries == 0 {
        write_sights_called(page, sights)
    } else {
        write_both_called(page, sights, entries)
    }
}

/// Writes how many sights it is.
fn write_sights_called(page: &mut Page, sights: u64) -> Result<(), AllocError>
    ensures { OnOk result (page.new ≡ page.old ++ sights_called sights) }
{
    write_counted(page, sights, b"sight", b"sights")
}

/// Writes how many keyed-in heights it is.
fn write_entries_called(page: &mut Page, entries: u64) -> Result<(), AllocError>
    ensures { OnOk result (page.new ≡ page.old ++ entries_called entries) }
{
    write_counted(page, entries, b"keyed-in height", b"keyed-in heights")
}

/// Writes how many sights and keyed-in heights it is.
#[tactic(auto, unfolding(crate::specs::Verdicts::both_called))]
fn write_both_called(page: &mut Page, sights: u64, entries: u64) -> Result<(), AllocError>
    ensures { OnOk result (page.new ≡ page.old ++ both_called sights entries) }
{
    write_sights_called(page, sights)?;
    page.add(b" and ")?;
    write_entries_called(page, entries)
}

/// Writes that there is one benchmark, if there is one.
#[tactic(auto, unfolding(crate::specs::Verdicts::lone_paragraph))]
fn write_lone(page: &mut Page, benchmarks: u64) -> Result<(), AllocError>
    ensures { OnOk result (page.new ≡ page.old ++ lone_paragraph benchmarks) }
{
    if benchmarks == 1 {
        page.add(b"<p>All heights rest on one benchmark: nothing checks its height.</p>\n")
    } else {
        Ok(())
    }
}

/// Writes a count of what is called in one way if it is one, else in another.
#[tactic(auto, unfolding(crate::specs::Verdicts::count_text))]
fn write_counted(page: &mut Page, count: u64, one: &[u8], many: &[u8]) -> Result<(), AllocError>
    ensures { OnOk result (page.new ≡ page.old ++ count_text count one.now many.now) }
{
    write_number(page, count)?;
    page.add(b" ")?;
    page.add(if count == 1 { one } else { many })
}
