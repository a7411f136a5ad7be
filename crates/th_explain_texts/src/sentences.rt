//! What the rows say, in sentences.
ghost use Rattle.std.specs.Prelude.{◌≡◌, ◌++◌, IfOk, OnOk, codes, filter, find, fold, length};
ghost use Rattle.std.specs.List.{flat_map};
ghost use Rattle.th_explain_texts.specs.Fitting.{number_lines};
ghost use Rattle.th_explain_texts.specs.Sentences.{are_few, count_called, explaining, few_line, fewer, first_line, firsts, found_lines, given_lines, is_second, least_blunders, leaves_line, leaves_none, many_line, many_most_line, mend_line, most_line, nothing_line, reading_lines, sentences, spoken_of, stay_called, unmarked_line, which_line};

use crate::called::{write_capital, write_joined};
use crate::costs::cost_text;
use crate::fitting::write_number_lines;
use crate::meant::write_named;
use crate::ranks::MOST_ROWS;
use crate::read::write_each_reading;
use crate::rows::{Named, ReadingRow, Row, Summary};
use itoa::Buffer;
use std::alloc::{AllocError, Global};
use th_columns::Page;
use th_units::metre_text;

/// So many numbers are named in a sentence.
pub const MOST_NAMED: usize = 3;

/// What may have been meant where rows doubt what the books say.
#[derive(Clone, Copy)]
pub(crate) struct Fitting<'a> {
    /// The heights that may have been meant.
    pub named: &'a [Named],
    /// The readings that fit.
    pub readings: &'a [ReadingRow],
}

/// The rows that explain most, and what fits of them.
#[derive(Clone, Copy)]
struct Leading<'a> {
    /// Those with number 1.
    firsts: &'a [Row],
    /// Those of them that leave no blunder.
    explaining: &'a [Row],
    fitting: Fitting<'a>,
}

/// Writes the sentences on all rows.
#[tactic(auto, unfolding(crate::specs::Sentences::sentences))]
pub(crate) fn write_sentences(
    alloc: Global,
    page: &mut Page,
    summary: &Summary,
    rows: &[Row],
    fitting: Fitting<'_>,
) -> Result<(), AllocError>
    ensures { OnOk result (page.new ≡ page.old ++ sentences summary.now rows.now fitting.entry.named.now fitting.entry.readings.now) }
{
    if rows.is_empty() {
        return write_nothing(page, summary);
    }
    let firsts = firsts_of(alloc, rows)?;
    let explaining = explaining_of(alloc, &firsts)?;
    let leading = Leading {
        firsts: &firsts,
        explaining: &explaining,
        fitting,
    };
    write_found(alloc, page, summary.books > 1, &leading, rows)
}

/// The rows that explain most.
pub fn firsts_of(alloc: Global, rows: &[Row]) -> Result<Vec<Row>, AllocError>
    ensures { IfOk result (λ own. own.items ≡ firsts rows.now) }
{
    rows.iter()
        .copied()
        .filter(|row| row.number == 1)
        .collect(alloc)
}

/// Those of them that leave no blunder.
fn explaining_of(alloc: Global, firsts: &[Row]) -> Result<Vec<Row>, AllocError>
    ensures { IfOk result (λ own. own.items ≡ filter leaves_none firsts.now) }
{
    firsts
        .iter()
        .copied()
        .filter(|row| row.blunders == 0)
        .collect(alloc)
}

/// Writes that there is no row.
fn write_nothing(page: &mut Page, summary: &Summary) -> Result<(), AllocError>
    ensures { OnOk result (page.new ≡ page.old ++ nothing_line summary.now) }
{
    if summary.marked == 0 {
        write_unmarked(page, summary.limit)
    } else {
        page.add(b"No single number explains what is marked.\n")
    }
}

/// Writes that nothing has to be explained.
#[tactic(auto, unfolding(crate::specs::Sentences::unmarked_line))]
fn write_unmarked(page: &mut Page, limit: i64) -> Result<(), AllocError>
    ensures { OnOk result (page.new ≡ page.old ++ unmarked_line limit) }
{
    let limit = metre_text(limit);
    page.add(b"Nothing to explain: no number has to be wrong by more than ")?;
    page.add(limit.as_bytes())?;
    page.add(b" m.\n")
}

/// Writes the sentences on the rows that explain most.
#[tactic(auto, unfolding(crate::specs::Sentences::found_lines))]
fn write_found(
    alloc: Global,
    page: &mut Page,
    several: bool,
    leading: &Leading<'_>,
    rows: &[Row],
) -> Result<(), AllocError>
    ensures { OnOk result (page.new ≡ page.old ++ found_lines several leading.now.firsts.now leading.now.explaining.now rows.now leading.now.fitting.named.now leading.now.fitting.readings.now) }
{
    let spoken_of = leading.spoken_of();
    write_first(alloc, page, several, leading)?;
    write_which(page, spoken_of)?;
    write_given(alloc, page, several, spoken_of)?;
    write_readings(alloc, page, several, leading, rows)?;
    write_named(alloc, page, several, rows, leading.fitting.named)?;
    write_leaves(alloc, page, &second_of(rows))?;
    write_mend(page, leading.explaining)
}

impl<'a> Leading<'a> {
    /// Those that explain all; or if none does, all of them.
    fn spoken_of(&self) -> &'a [Row]
        ensures { result.now ≡ spoken_of self.now.firsts.now self.now.explaining.now }
    {
        if self.explaining.is_empty() {
            self.firsts
        } else {
            self.explaining
        }
    }
}

/// Whether some rows are so few that sentences name each.
fn are_few(rows: &[Row]) -> bool
    ensures { result ≡ are_few rows.now }
{
    rows.len() <= MOST_NAMED
}

/// Writes which numbers explain all, or else which explain most.
fn write_first(
    alloc: Global,
    page: &mut Page,
    several: bool,
    leading: &Leading<'_>,
) -> Result<(), AllocError>
    ensures { OnOk result (page.new ≡ page.old ++ first_line several leading.now.firsts.now leading.now.explaining.now) }
{
    let Leading {
        firsts,
        explaining,
        ..
    } = *leading;
    match (explaining.is_empty(), are_few(leading.spoken_of())) {
        (true, true) => write_most(alloc, page, several, firsts),
        (true, false) => write_many_most(page, firsts),
        (false, true) => write_few(page, several, explaining),
        (false, false) => write_many(page, firsts.len(), explaining.len()),
    }
}

/// Writes which one, two or three numbers explain all.
#[tactic(auto, unfolding(crate::specs::Sentences::few_line))]
fn write_few(page: &mut Page, several: bool, rows: &[Row]) -> Result<(), AllocError>
    ensures { OnOk result (page.new ≡ page.old ++ few_line several rows.now) }
{
    page.add(b"One wrong number explains this: ")?;
    write_joined(page, several, rows)?;
    page.add(b".\n")
}

/// Writes that more numbers explain all.
#[tactic(auto, unfolding(crate::specs::Sentences::many_line))]
fn write_many(page: &mut Page, ranked: usize, count: usize) -> Result<(), AllocError>
    ensures { OnOk result (page.new ≡ page.old ++ many_line ranked count) }
{
    write_count_called(page, ranked, count)?;
    page.add(
        b" numbers explain this equally well: any one of them may be wrong. The books do not say which. Measure one of them again.\n",
    )
}

/// Writes which one, two or three numbers explain most.
#[tactic(auto, unfolding(crate::specs::Sentences::most_line))]
fn write_most(alloc: Global, page: &mut Page, several: bool, rows: &[Row]) -> Result<(), AllocError>
    ensures { OnOk result (page.new ≡ page.old ++ most_line several rows.now) }
{
    let mut names = Page::new(alloc);
    write_joined(&mut names, several, rows)?;
    page.add(b"No one number explains all of this. ")?;
    write_capital(page, names.as_bytes())?;
    page.add(b" explains most: ")?;
    write_stay_called(page, least_blunders(rows))?;
    page.add(b".\n")
}

/// Writes that more numbers explain most.
#[tactic(auto, unfolding(crate::specs::Sentences::many_most_line))]
fn write_many_most(page: &mut Page, rows: &[Row]) -> Result<(), AllocError>
    ensures { OnOk result (page.new ≡ page.old ++ many_most_line rows.now) }
{
    page.add(b"No one number explains all of this. ")?;
    write_count_called(page, rows.len(), rows.len())?;
    page.add(b" numbers explain most, equally well: ")?;
    write_stay_called(page, least_blunders(rows))?;
    page.add(b". The books do not say which. Measure one of them again.\n")
}

/// Writes how many numbers explain equally, of so many rows with number 1.
fn write_count_called(page: &mut Page, ranked: usize, count: usize) -> Result<(), AllocError>
    ensures { OnOk result (page.new ≡ page.old ++ count_called ranked count) }
{
    if ranked == MOST_ROWS {
        page.add(b"At least ")?;
    }
    let mut digits = Buffer::new();
    page.add(digits.format(count).as_bytes())
}

/// Writes that two or three numbers explain equally.
#[tactic(auto, unfolding(crate::specs::Sentences::which_line))]
fn write_which(page: &mut Page, rows: &[Row]) -> Result<(), AllocError>
    ensures { OnOk result (page.new ≡ page.old ++ which_line rows.now) }
{
    if 1 < rows.len() && are_few(rows) {
        page.add(b"The books do not say which of them.\n")
    } else {
        Ok(())
    }
}

/// Writes what was given and what fits, of each number that is named.
#[tactic(auto, unfolding(crate::specs::Sentences::given_lines))]
fn write_given(
    alloc: Global,
    page: &mut Page,
    several: bool,
    rows: &[Row],
) -> Result<(), AllocError>
    ensures { OnOk result (page.new ≡ page.old ++ given_lines several rows.now) }
{
    if are_few(rows) {
        write_each_given(alloc, page, several, rows)
    } else {
        Ok(())
    }
}

/// Writes what was given and what fits, of each number.
fn write_each_given(
    alloc: Global,
    page: &mut Page,
    several: bool,
    rows: &[Row],
) -> Result<(), AllocError>
    ensures { OnOk result (page.new ≡ page.old ++ flat_map (number_lines several) rows.now) }
{
    for row in rows {
        write_number_lines(alloc, page, several, row)?;
    }
    Ok(())
}

/// Writes what fits if a name or a sign is read otherwise, where few numbers explain most.
#[tactic(auto, unfolding(crate::specs::Sentences::reading_lines))]
fn write_readings(
    alloc: Global,
    page: &mut Page,
    several: bool,
    leading: &Leading<'_>,
    rows: &[Row],
) -> Result<(), AllocError>
    ensures { OnOk result (page.new ≡ page.old ++ reading_lines several leading.now.firsts.now rows.now leading.now.fitting.readings.now) }
{
    if are_few(leading.firsts) {
        write_each_reading(alloc, page, several, rows, leading.fitting.readings)
    } else {
        Ok(())
    }
}

/// The first row behind those that explain most.
fn second_of(rows: &[Row]) -> Option<Row>
    ensures { result ≡ find is_second rows.now }
{
    rows.iter().copied().find(|row| row.number == 2)
}

/// Writes what the first row behind those that explain most leaves.
#[tactic(auto, unfolding(crate::specs::Sentences::leaves_line))]
fn write_leaves(alloc: Global, page: &mut Page, row: &Option<Row>) -> Result<(), AllocError>
    ensures { OnOk result (page.new ≡ page.old ++ leaves_line row.now) }
{
    match row {
        Some(row) => {
            let left = cost_text(alloc, row.left)?;
            page.add(b"The next best leaves ")?;
            page.add(left.as_slice())?;
            page.add(b".\n")
        }
        None => Ok(()),
    }
}

/// The least number of blunders that one of some rows leaves.
fn least_blunders(rows: &[Row]) -> u32
    ensures { result ≡ least_blunders rows.now }
{
    match rows.split_first() {
        Some((row, others)) => fewest(row.blunders, others),
        None => 0,
    }
}

/// The least of a number and the numbers of blunders that some rows leave.
fn fewest(blunders: u32, rows: &[Row]) -> u32
    ensures { result ≡ fold fewer blunders rows.now }
{
    let mut least = blunders;
    for row in rows {
        least = least.min(row.blunders);
    }
    least
}

/// Writes how many sights stay marked.
fn write_stay_called(page: &mut Page, count: u32) -> Result<(), AllocError>
    ensures { OnOk result (page.new ≡ page.old ++ stay_called count) }
{
    if count == 1 {
        page.add(b"1 sight stays marked")
    } else {
        let mut digits = Buffer::new();
        page.add(digits.format(count).as_bytes())?;
        page.add(b" sights stay marked")
    }
}

/// Writes what to do where no number explains all.
#[tactic(auto, unfolding(crate::specs::Sentences::mend_line))]
fn write_mend(page: &mut Page, explaining: &[Row]) -> Result<(), AllocError>
    ensures { OnOk result (page.new ≡ page.old ++ mend_line explaining.now) }
{
    if explaining.is_empty() {
        page.add(b"Mend it and run again.\n")
    } else {
        Ok(())
    }
}
