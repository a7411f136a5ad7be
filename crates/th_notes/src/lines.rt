//! The lines of notes.
ghost use Rattle.std.specs.Prelude.{pos, ◌≡◌, ◌++◌, IfOk, OnOk, decimal};
ghost use Rattle.std.specs.List.{flat_map};
ghost use Rattle.th_units.specs.Metres.{metres};
ghost use Rattle.th_entries.specs.Sights.{enumerated, no_sight_text, words_seen};
ghost use Rattle.th_notes.specs.Notes.{benchmark_text, book_place, doubt_text, formula_text, hanging_text, in_benchmarks, in_weights, kind_text, line_text, more_text, near_text, name_place, note_line, note_lines, note_text, odd_text, once_text, one_text, pair_text, respelled_text, same_text, second_text, turned_text, twin_text, two_text, unseen_text, unused_text, within_text};

use crate::notes::{Kind, LineKind, Note, Pair};
use gsi_word::Name;
use itoa::Buffer;
use std::alloc::{AllocError, Global};
use th_columns::{Page, write_count};
use th_entries::{NoSight, blocks_end, separator, words_lead};
use th_units::metre_text;

/// Writes how many notes there are, and a line for each.
#[tactic(auto, unfolding(crate::specs::Notes::note_lines))]
pub fn write_notes(page: &mut Page, notes: &[Note]) -> Result<(), AllocError>
    ensures { OnOk result (page.new ≡ page.old ++ note_lines notes.now) }
{
    write_count(page, b"notes", notes.len())?;
    write_rows(page, notes)
}

/// The text of a note, without the end of its line.
pub fn note_text(alloc: Global, note: &Note) -> Result<Vec<u8>, AllocError>
    ensures { IfOk result (λ text. text.items ≡ note_text note.now) }
{
    let mut page = Page::new(alloc);
    write_text(&mut page, note)?;
    Ok(page.into_bytes())
}

/// Writes the line of each note.
fn write_rows(page: &mut Page, notes: &[Note]) -> Result<(), AllocError>
    ensures { OnOk result (page.new ≡ page.old ++ flat_map note_line notes.now) }
{
    for note in notes {
        write_note(page, note)?;
    }
    Ok(())
}

/// Writes the line of a note.
#[tactic(auto, unfolding(crate::specs::Notes::note_line))]
fn write_note(page: &mut Page, note: &Note) -> Result<(), AllocError>
    ensures { OnOk result (page.new ≡ page.old ++ note_line note.now) }
{
    write_text(page, note)?;
    page.end_line()
}

/// Writes the text of a note.
fn write_text(page: &mut Page, note: &Note) -> Result<(), AllocError>
    ensures { OnOk result (page.new ≡ page.old ++ note_text note.now) }
{
    match note {
        Note::NoSight(note) => write_no_sight(page, note),
        Note::SameObservations { book, earlier } => write_same(page, *book, *earlier),
        Note::Line { kind, book, line } => write_line(page, *kind, *book, *line),
        Note::UnusedWeight {
            row,
            station,
            target,
        } => write_unused(page, *row, station, target),
        Note::TurnedWeight {
            row,
            station,
            target,
        } => write_turned(page, *row, station, target),
        Note::UnseenBenchmark { row, name } => write_unseen(page, *row, name),
        Note::OneBenchmark { name } => write_one(page, name),
        Note::TwoBenchmarks { name, other } => write_two(page, name, other),
        Note::SightedOnce { book, line, name } => write_once(page, *book, *line, name),
        Note::Twin { book, line, pair } => write_twin(page, *book, *line, pair),
        Note::Respelled { book, line, name } => write_respelled(page, *book, *line, name),
        Note::Formula { name } => write_formula(page, name),
        Note::More { kind, count } => write_more(page, *kind, *count),
    }
}

/// Writes digits.
fn write_number(page: &mut Page, number: u32) -> Result<(), AllocError>
    ensures { OnOk result (page.new ≡ page.old ++ decimal number) }
{
    let mut digits = Buffer::new();
    page.add(digits.format(number).as_bytes())
}

/// Writes the digits of a record's number, or of a count.
fn write_row(page: &mut Page, row: u64) -> Result<(), AllocError>
    ensures { OnOk result (page.new ≡ page.old ++ decimal row) }
{
    let mut digits = Buffer::new();
    page.add(digits.format(row).as_bytes())
}

/// Writes a name.
fn write_name(page: &mut Page, name: &Name) -> Result<(), AllocError>
    ensures { OnOk result (page.new ≡ page.old ++ name.now) }
{
    page.add(name.as_bytes())
}

/// Writes which line of which book.
#[tactic(auto, unfolding(crate::specs::Notes::book_place))]
fn write_place(page: &mut Page, book: u32, line: u32) -> Result<(), AllocError>
    ensures { OnOk result (page.new ≡ page.old ++ book_place book line) }
{
    page.add(b"book ")?;
    write_number(page, book)?;
    page.add(b" line ")?;
    write_number(page, line)
}

/// Writes a name at a line of a book.
#[tactic(auto, unfolding(crate::specs::Notes::name_place))]
fn write_name_place(page: &mut Page, book: u32, line: u32, name: &Name) -> Result<(), AllocError>
    ensures { OnOk result (page.new ≡ page.old ++ name_place book line name.now) }
{
    write_place(page, book, line)?;
    page.add(b": ")?;
    write_name(page, name)
}

/// Writes that it is a record of the table of weights.
#[tactic(auto, unfolding(crate::specs::Notes::in_weights))]
fn write_in_weights(page: &mut Page) -> Result<(), AllocError>
    ensures { OnOk result (page.new ≡ page.old ++ in_weights) }
{
    page.add(b"weights record ")
}

/// Writes that it is a record of the table of benchmarks.
#[tactic(auto, unfolding(crate::specs::Notes::in_benchmarks))]
fn write_in_benchmarks(page: &mut Page) -> Result<(), AllocError>
    ensures { OnOk result (page.new ≡ page.old ++ in_benchmarks) }
{
    page.add(b"benchmarks record ")
}

/// Writes the pair of a row of the table of weights.
#[tactic(auto, unfolding(crate::specs::Notes::pair_text))]
fn write_pair(page: &mut Page, row: u64, station: &Name, target: &Name) -> Result<(), AllocError>
    ensures { OnOk result (page.new ≡ page.old ++ pair_text row station.now target.now) }
{
    write_in_weights(page)?;
    write_row(page, row)?;
    page.add(b": ")?;
    write_name(page, station)?;
    page.add(b" to ")?;
    write_name(page, target)
}

/// Writes the name of a row of the table of benchmarks.
#[tactic(auto, unfolding(crate::specs::Notes::benchmark_text))]
fn write_benchmark(page: &mut Page, row: u64, name: &Name) -> Result<(), AllocError>
    ensures { OnOk result (page.new ≡ page.old ++ benchmark_text row name.now) }
{
    write_in_benchmarks(page)?;
    write_row(page, row)?;
    page.add(b": ")?;
    write_name(page, name)
}

/// Writes the note of a book with blocks and without a sight.
fn write_no_sight(page: &mut Page, note: &NoSight) -> Result<(), AllocError>
    ensures { OnOk result (page.new ≡ page.old ++ no_sight_text note.now) }
{
    page.add(b"book ")?;
    write_number(page, note.book)?;
    page.add(b" has no sight in ")?;
    write_number(page, note.blocks)?;
    page.add(blocks_end(note.blocks).as_bytes())?;
    write_words(page, note.numbers().as_slice())?;
    page.add(b")")
}

/// Writes which words a book has in place of sights.
fn write_words(page: &mut Page, numbers: &[u16]) -> Result<(), AllocError>
    ensures { OnOk result (page.new ≡ page.old ++ words_seen numbers.now) }
{
    page.add(words_lead(numbers).as_bytes())?;
    write_numbers(page, numbers)
}

/// Writes some numbers one after the other.
fn write_numbers(page: &mut Page, numbers: &[u16]) -> Result<(), AllocError>
    ensures { OnOk result (page.new ≡ page.old ++ enumerated numbers.now) }
{
    let Some((first, rest)) = numbers.split_first() else {
        return Ok(());
    };
    write_number(page, u32::from(*first))?;
    page.add(separator(rest).as_bytes())?;
    write_numbers(page, rest)
}

/// Writes the note of a book with the observations of an earlier one.
#[tactic(auto, unfolding(crate::specs::Notes::same_text))]
fn write_same(page: &mut Page, book: u32, earlier: u32) -> Result<(), AllocError>
    ensures { OnOk result (page.new ≡ page.old ++ same_text book earlier) }
{
    page.add(b"book ")?;
    write_number(page, book)?;
    page.add(b": same observations as book ")?;
    write_number(page, earlier)
}

/// Writes the note of an odd line of a book.
#[tactic(auto, unfolding(crate::specs::Notes::line_text))]
fn write_line(page: &mut Page, kind: LineKind, book: u32, line: u32) -> Result<(), AllocError>
    ensures { OnOk result (page.new ≡ page.old ++ line_text kind book line) }
{
    write_place(page, book, line)?;
    write_odd(page, kind)
}

/// Writes what is odd in a line.
fn write_odd(page: &mut Page, kind: LineKind) -> Result<(), AllocError>
    ensures { OnOk result (page.new ≡ page.old ++ odd_text kind) }
{
    match kind {
        LineKind::Lookalike => page.add(b": looks like a setup, but has no word 84, 85 or 86"),
        LineKind::OtherHeight => page.add(b": another instrument height than its setup"),
        LineKind::Direction => page.add(b": words 31 and 33 are both zero"),
    }
}

/// Writes the note of a row of the table of weights whose pair was never observed.
#[tactic(auto, unfolding(crate::specs::Notes::unused_text))]
fn write_unused(page: &mut Page, row: u64, station: &Name, target: &Name) -> Result<(), AllocError>
    ensures { OnOk result (page.new ≡ page.old ++ unused_text row station.now target.now) }
{
    write_pair(page, row, station, target)?;
    page.add(b" was never observed")
}

/// Writes the note of a row of the table of weights whose pair was observed the other way round alone.
#[tactic(auto, unfolding(crate::specs::Notes::turned_text))]
fn write_turned(page: &mut Page, row: u64, station: &Name, target: &Name) -> Result<(), AllocError>
    ensures { OnOk result (page.new ≡ page.old ++ turned_text row station.now target.now) }
{
    write_unused(page, row, station, target)?;
    page.add(b", but ")?;
    write_name(page, target)?;
    page.add(b" to ")?;
    write_name(page, station)?;
    page.add(b" was")
}

/// Writes the note of a benchmark that was never observed.
#[tactic(auto, unfolding(crate::specs::Notes::unseen_text))]
fn write_unseen(page: &mut Page, row: u64, name: &Name) -> Result<(), AllocError>
    ensures { OnOk result (page.new ≡ page.old ++ unseen_text row name.now) }
{
    write_benchmark(page, row, name)?;
    page.add(b" was never observed")
}

/// Writes that a part of the network hangs on a benchmark.
#[tactic(auto, unfolding(crate::specs::Notes::hanging_text))]
fn write_hanging(page: &mut Page, name: &Name) -> Result<(), AllocError>
    ensures { OnOk result (page.new ≡ page.old ++ hanging_text name.now) }
{
    page.add(b"a part of the network hangs on ")?;
    write_name(page, name)
}

/// Writes the note of a part of the network with one benchmark.
#[tactic(auto, unfolding(crate::specs::Notes::one_text))]
fn write_one(page: &mut Page, name: &Name) -> Result<(), AllocError>
    ensures { OnOk result (page.new ≡ page.old ++ one_text name.now) }
{
    write_hanging(page, name)?;
    page.add(b" alone: nothing checks its height")
}

/// Writes the note of a part of the network with two benchmarks.
#[tactic(auto, unfolding(crate::specs::Notes::two_text))]
fn write_two(page: &mut Page, name: &Name, other: &Name) -> Result<(), AllocError>
    ensures { OnOk result (page.new ≡ page.old ++ two_text name.now other.now) }
{
    write_hanging(page, name)?;
    write_second(page, other)
}

/// Writes that the part hangs on a second benchmark.
#[tactic(auto, unfolding(crate::specs::Notes::second_text))]
fn write_second(page: &mut Page, other: &Name) -> Result<(), AllocError>
    ensures { OnOk result (page.new ≡ page.old ++ second_text other.now) }
{
    page.add(b" and ")?;
    write_name(page, other)?;
    write_doubt(page)
}

/// Writes that either of two benchmarks may be wrong.
#[tactic(auto, unfolding(crate::specs::Notes::doubt_text))]
fn write_doubt(page: &mut Page) -> Result<(), AllocError>
    ensures { OnOk result (page.new ≡ page.old ++ doubt_text) }
{
    page.add(b": nothing says which is wrong")
}

/// Writes the note of a point with one observation.
#[tactic(auto, unfolding(crate::specs::Notes::once_text))]
fn write_once(page: &mut Page, book: u32, line: u32, name: &Name) -> Result<(), AllocError>
    ensures { OnOk result (page.new ≡ page.old ++ once_text book line name.now) }
{
    write_name(page, name)?;
    page.add(b" is sighted once (")?;
    write_place(page, book, line)?;
    page.add(b")")
}

/// Writes the note of a point that may be another one.
#[tactic(auto, unfolding(crate::specs::Notes::twin_text))]
fn write_twin(page: &mut Page, book: u32, line: u32, pair: &Pair) -> Result<(), AllocError>
    ensures { OnOk result (page.new ≡ page.old ++ twin_text book line pair.now) }
{
    write_name(page, &pair.name)?;
    page.add(b" (")?;
    write_place(page, book, line)?;
    write_near(page, pair.apart)?;
    write_name(page, &pair.other)
}

/// Writes how near another point is.
#[tactic(auto, unfolding(crate::specs::Notes::near_text))]
fn write_near(page: &mut Page, apart: u32) -> Result<(), AllocError>
    ensures { OnOk result (page.new ≡ page.old ++ near_text apart) }
{
    write_within(page)?;
    write_metres(page, apart)?;
    page.add(b" m of ")
}

/// Writes that another point is near.
#[tactic(auto, unfolding(crate::specs::Notes::within_text))]
fn write_within(page: &mut Page) -> Result<(), AllocError>
    ensures { OnOk result (page.new ≡ page.old ++ within_text) }
{
    page.add(b") is within ")
}

/// Writes a length in metres.
fn write_metres(page: &mut Page, units: u32) -> Result<(), AllocError>
    ensures { OnOk result (page.new ≡ page.old ++ metres (pos units)) }
{
    page.add(metre_text(i64::from(units)).as_bytes())
}

/// Writes the note of a name that is spelled in another way than before.
#[tactic(auto, unfolding(crate::specs::Notes::respelled_text))]
fn write_respelled(page: &mut Page, book: u32, line: u32, name: &Name) -> Result<(), AllocError>
    ensures { OnOk result (page.new ≡ page.old ++ respelled_text book line name.now) }
{
    write_name_place(page, book, line, name)?;
    page.add(b" is spelled in another way than before")
}

/// Writes the note of a name that reads as a formula.
#[tactic(auto, unfolding(crate::specs::Notes::formula_text))]
fn write_formula(page: &mut Page, name: &Name) -> Result<(), AllocError>
    ensures { OnOk result (page.new ≡ page.old ++ formula_text name.now) }
{
    write_name(page, name)?;
    page.add(b" reads as a formula in a spreadsheet")
}

/// Writes how many more notes of a kind there are.
#[tactic(auto, unfolding(crate::specs::Notes::more_text))]
fn write_more(page: &mut Page, kind: Kind, count: u64) -> Result<(), AllocError>
    ensures { OnOk result (page.new ≡ page.old ++ more_text kind count) }
{
    page.add(b"and ")?;
    write_row(page, count)?;
    page.add(b" more: ")?;
    write_kind(page, kind)
}

/// Writes what the notes of a kind are on.
fn write_kind(page: &mut Page, kind: Kind) -> Result<(), AllocError>
    ensures { OnOk result (page.new ≡ page.old ++ kind_text kind) }
{
    match kind {
        Kind::Lines(LineKind::Lookalike) => page.add(b"lines that look like setups"),
        Kind::Lines(LineKind::OtherHeight) => page.add(b"sights with another instrument height"),
        Kind::Lines(LineKind::Direction) => {
            page.add(b"sights whose words 31 and 33 are both zero")
        }
        Kind::Weights => page.add(b"weights records never observed"),
        Kind::Benchmarks => page.add(b"benchmarks records never observed"),
        Kind::Hanging => page.add(b"parts with one or two benchmarks"),
        Kind::Once => page.add(b"points sighted once"),
        Kind::Twins => page.add(b"points that may be others"),
        Kind::Spellings => page.add(b"names spelled in another way than before"),
        Kind::Formulas => page.add(b"names that read as formulas"),
    }
}
