//! The tables.
ghost use Rattle.std.specs.Prelude.{◌≡◌, ◌++◌, IfOk, OnOk};
ghost use Rattle.th_csv.specs.Texts.{row_text};
ghost use Rattle.th_review_texts.specs.Tables.{benchmark_record, benchmarks_header, benchmarks_text, entries_header, entries_text, entry_record, number_field, observation_record, observations_header, observations_text, point_record, points_text};

use itoa::Buffer;
use std::alloc::{AllocError, Global};
use th_csv::RowWriter;
use th_review_rows::{
    BenchmarkRow, EntryRow, ObservationRow, PointRow, benchmark_word, blamed_of, blames_of,
    kind_word, mistake_word, moves_of, shared_mistake_word,
};
use th_units::metre_text;

/// The table of points: the names of its fields, and then a record for each row.
pub(crate) fn points_csv(alloc: Global, points: &[PointRow]) -> Result<Vec<u8>, AllocError>
    ensures { IfOk result (λ text. text.items ≡ points_text points.now) }
{
    let mut rows = RowWriter::new(alloc);
    rows.write(&[b"point", b"height", b"low", b"high", b"strength"])?;
    for row in points {
        write_point(&mut rows, row)?;
    }
    rows.into_text()
}

/// Writes the record of a point.
fn write_point(rows: &mut RowWriter, row: &PointRow) -> Result<(), AllocError>
    ensures { OnOk result (rows.new.text ≡ rows.old.text ++ row_text (point_record row.now)) }
{
    let mut digits = Buffer::new();
    let low = metre_text(row.low);
    let high = metre_text(row.high);
    rows.write(&[
        row.name.as_bytes(),
        low.as_bytes(),
        low.as_bytes(),
        high.as_bytes(),
        number_field(&mut digits, row.strength),
    ])
}

/// The table of observations: the names of its fields, and then a record for each row.
pub(crate) fn observations_csv(
    alloc: Global,
    observations: &[ObservationRow],
) -> Result<Vec<u8>, AllocError>
    ensures { IfOk result (λ text. text.items ≡ observations_text observations.now) }
{
    let mut rows = RowWriter::new(alloc);
    write_observations_header(&mut rows)?;
    for row in observations {
        write_observation(&mut rows, row)?;
    }
    rows.into_text()
}

/// Writes the names of an observation's fields.
#[tactic(auto, unfolding(crate::specs::Tables::observations_header))]
fn write_observations_header(rows: &mut RowWriter) -> Result<(), AllocError>
    ensures { OnOk result (rows.new.text ≡ rows.old.text ++ row_text observations_header) }
{
    rows.write(&[
        b"number",
        b"book",
        b"line",
        b"from",
        b"to",
        b"difference",
        b"weight",
        b"residual",
        b"control",
        b"mistake",
        b"moves",
        b"blames",
        b"blamed",
    ])
}

/// Writes the record of an observation.
#[tactic(auto, unfolding(crate::specs::Tables::observation_record))]
fn write_observation(rows: &mut RowWriter, row: &ObservationRow) -> Result<(), AllocError>
    ensures { OnOk result (rows.new.text ≡ rows.old.text ++ row_text (observation_record row.now)) }
{
    let mut number = Buffer::new();
    let mut book = Buffer::new();
    let mut line = Buffer::new();
    let mut weight = Buffer::new();
    let mut control = Buffer::new();
    let mut moves = Buffer::new();
    let mut blames = Buffer::new();
    let mut blamed = Buffer::new();
    let difference = metre_text(row.observation.difference());
    let residual = metre_text(row.residual);
    rows.write(&[
        number.format(row.number).as_bytes(),
        book.format(row.observation.book).as_bytes(),
        line.format(row.observation.line).as_bytes(),
        row.observation.station.as_bytes(),
        row.observation.target.as_bytes(),
        difference.as_bytes(),
        weight.format(row.weight).as_bytes(),
        residual.as_bytes(),
        number_field(&mut control, row.control),
        mistake_word(&row.mistake),
        count_field(&mut moves, moves_of(row.blame)),
        count_field(&mut blames, blames_of(row.blame)),
        count_field(&mut blamed, blamed_of(row.blame)),
    ])
}

/// The table of entries: the names of its fields, and then a record for each row.
pub(crate) fn entries_csv(alloc: Global, entries: &[EntryRow]) -> Result<Vec<u8>, AllocError>
    ensures { IfOk result (λ text. text.items ≡ entries_text entries.now) }
{
    let mut rows = RowWriter::new(alloc);
    write_entries_header(&mut rows)?;
    for row in entries {
        write_entry(&mut rows, row)?;
    }
    rows.into_text()
}

/// Writes the names of an entry's fields.
#[tactic(auto, unfolding(crate::specs::Tables::entries_header))]
fn write_entries_header(rows: &mut RowWriter) -> Result<(), AllocError>
    ensures { OnOk result (rows.new.text ≡ rows.old.text ++ row_text entries_header) }
{
    rows.write(&[
        b"book", b"line", b"word", b"station", b"length", b"sights", b"weight", b"mistake",
        b"moves", b"blames", b"blamed",
    ])
}

/// Writes the record of an entry.
#[tactic(auto, unfolding(crate::specs::Tables::entry_record))]
fn write_entry(rows: &mut RowWriter, row: &EntryRow) -> Result<(), AllocError>
    ensures { OnOk result (rows.new.text ≡ rows.old.text ++ row_text (entry_record row.now)) }
{
    let mut book = Buffer::new();
    let mut line = Buffer::new();
    let mut sights = Buffer::new();
    let mut weight = Buffer::new();
    let mut moves = Buffer::new();
    let mut blames = Buffer::new();
    let mut blamed = Buffer::new();
    let length = metre_text(row.entry.length.get());
    rows.write(&[
        book.format(row.entry.book).as_bytes(),
        line.format(row.entry.line).as_bytes(),
        kind_word(&row.entry.kind),
        row.entry.station.as_bytes(),
        length.as_bytes(),
        sights.format(row.entry.sights).as_bytes(),
        weight.format(row.weight).as_bytes(),
        shared_mistake_word(&row.mistake),
        count_field(&mut moves, moves_of(row.blame)),
        count_field(&mut blames, blames_of(row.blame)),
        count_field(&mut blamed, blamed_of(row.blame)),
    ])
}

/// The table of benchmarks: the names of its fields, and then a record for each row.
pub(crate) fn benchmarks_csv(
    alloc: Global,
    benchmarks: &[BenchmarkRow],
) -> Result<Vec<u8>, AllocError>
    ensures { IfOk result (λ text. text.items ≡ benchmarks_text benchmarks.now) }
{
    let mut rows = RowWriter::new(alloc);
    write_benchmarks_header(&mut rows)?;
    for row in benchmarks {
        write_benchmark(&mut rows, row)?;
    }
    rows.into_text()
}

/// Writes the names of a benchmark's fields.
#[tactic(auto, unfolding(crate::specs::Tables::benchmarks_header))]
fn write_benchmarks_header(rows: &mut RowWriter) -> Result<(), AllocError>
    ensures { OnOk result (rows.new.text ≡ rows.old.text ++ row_text benchmarks_header) }
{
    rows.write(&[
        b"point",
        b"height",
        b"sights",
        b"weight",
        b"strength",
        b"mistake",
        b"moves",
        b"blames",
        b"blamed",
    ])
}

/// Writes the record of a benchmark.
#[tactic(auto, unfolding(crate::specs::Tables::benchmark_record))]
fn write_benchmark(rows: &mut RowWriter, row: &BenchmarkRow) -> Result<(), AllocError>
    ensures { OnOk result (rows.new.text ≡ rows.old.text ++ row_text (benchmark_record row.now)) }
{
    let mut sights = Buffer::new();
    let mut weight = Buffer::new();
    let mut strength = Buffer::new();
    let mut moves = Buffer::new();
    let mut blames = Buffer::new();
    let mut blamed = Buffer::new();
    let height = metre_text(row.height);
    rows.write(&[
        row.name.as_bytes(),
        height.as_bytes(),
        sights.format(row.sights).as_bytes(),
        weight.format(row.weight).as_bytes(),
        number_field(&mut strength, row.strength),
        benchmark_word(&row.mistake),
        count_field(&mut moves, moves_of(row.blame)),
        count_field(&mut blames, blames_of(row.blame)),
        count_field(&mut blamed, blamed_of(row.blame)),
    ])
}

/// The digits of a number, and an empty field where there is none.
fn number_field(digits: &mut Buffer, number: Option<u32>) -> &[u8]
    ensures { result.now ≡ number_field number }
{
    match number {
        Some(number) => digits.format(number).as_bytes(),
        None => b"",
    }
}

/// The digits of a count, and an empty field where there is none.
fn count_field(digits: &mut Buffer, count: Option<usize>) -> &[u8]
    ensures { result.now ≡ number_field count }
{
    match count {
        Some(count) => digits.format(count).as_bytes(),
        None => b"",
    }
}
