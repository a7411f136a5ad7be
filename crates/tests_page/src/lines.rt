//! The rows that a page shows, read from a text. Its lines are:
//!
//! - `limit UNITS`, `cost UNITS`, `title HEX`, `book HEX`, a name that the page sums as the book's bytes, `note HEX`;
//! - `point HEX LOW HIGH STRENGTH DRAWN LOW HIGH`, the last two its heights if a number moves it;
//! - `observations HEX`, the bytes of the next book;
//! - `sight WEIGHT RESIDUAL CONTROL MISTAKE FROM LOW TO LOW GROUP`, one for each observation of the books in order,
//!   with places among the points from 0;
//! - `entry BOOK LINE WORD HEX SIGN DIGITS UNIT SIGHTS WEIGHT MISTAKE`;
//! - `benchmark HEX HEIGHT SIGHTS WEIGHT MISTAKE OTHERS LOW HIGH`, where the others say nothing, that it fits, or that it
//!   differs;
//! - `explanation NUMBER KIND BOOK LINE HEX HEX GIVEN LOW HIGH LEFT BLUNDERS`;
//! - `says HEX`, a sentence of the explanations.
//!
//! `-` is a value that is missing. Lengths are in units of 10 nm.
use crate::words::{
    bytes_of, cost, keyed_in, length, name, number, optional, optional_name, place, unit,
};
use anyhow::{Context, Result, bail};
use std::alloc::Global;
use th_answer::{Answer, Group, Moved, Others};
use th_book::read_book;
use th_entries::{Entry, HeightKind};
use th_explain_texts::{Kind, Row, Values};
use th_observations::Observation;
use th_reliability::{Mistake, SharedMistake};
use th_review_rows::{BenchmarkRow, End, EntryRow, ObservationRow, PointRow};

/// What a page shows.
#[derive(Drop)]
pub struct Rows {
    observations: Vec<Observation>,
    read: u32,
    pub title: Vec<u8>,
    pub books: Vec<Vec<u8>>,
    pub points: Vec<PointRow>,
    pub sights: Vec<ObservationRow>,
    pub entries: Vec<EntryRow>,
    pub benchmarks: Vec<BenchmarkRow>,
    pub explanations: Vec<Row>,
    pub says: Vec<Vec<u8>>,
    pub notes: Vec<Vec<u8>>,
    pub answer: Answer,
    pub cost: u128,
    pub limit: i64,
}

impl Rows {
    /// The rows of a text.
    pub fn read(alloc: Global, text: &str) -> Result<Rows> {
        let mut rows = Rows {
            observations: Vec::new(alloc),
            read: 0,
            title: Vec::new(alloc),
            books: Vec::new(alloc),
            points: Vec::new(alloc),
            sights: Vec::new(alloc),
            entries: Vec::new(alloc),
            benchmarks: Vec::new(alloc),
            explanations: Vec::new(alloc),
            says: Vec::new(alloc),
            notes: Vec::new(alloc),
            answer: no_answer(alloc),
            cost: 0,
            limit: 0,
        };
        for line in text.lines() {
            let words: Vec<&str> = line.split_whitespace().collect(alloc)?;
            rows.add(alloc, &words)?;
        }
        Ok(rows)
    }

    /// Adds a row.
    fn add(&mut self, alloc: Global, words: &[&str]) -> Result<()> {
        match words {
            ["limit", units] => self.set_limit(units),
            ["cost", units] => self.set_cost(units),
            ["title", text] => self.set_title(alloc, text),
            ["book", text] => self.add_book(alloc, text),
            ["note", text] => self.add_note(alloc, text),
            ["observations", book] => self.read_book(alloc, &bytes_of(alloc, book)?),
            ["point", rest @ ..] => self.add_point(alloc, rest),
            ["sight", rest @ ..] => self.add_sight(rest),
            ["entry", rest @ ..] => self.add_entry(alloc, rest),
            ["benchmark", rest @ ..] => self.add_benchmark(alloc, rest),
            ["explanation", rest @ ..] => add_explanation(alloc, &mut self.explanations, rest),
            ["says", text] => self.add_sentence(alloc, text),
            _ => bail!("an unknown row"),
        }
    }

    /// Sets the limit of blunders.
    fn set_limit(&mut self, units: &str) -> Result<()> {
        self.limit = length(units)?;
        Ok(())
    }

    /// Sets the least cost.
    fn set_cost(&mut self, units: &str) -> Result<()> {
        self.cost = cost(units)?;
        Ok(())
    }

    /// Sets the title.
    fn set_title(&mut self, alloc: Global, text: &str) -> Result<()> {
        self.title = bytes_of(alloc, text)?;
        Ok(())
    }

    /// Adds the name of a book.
    fn add_book(&mut self, alloc: Global, text: &str) -> Result<()> {
        let name = bytes_of(alloc, text)?;
        self.books.push(name)?;
        Ok(())
    }

    /// Adds a note.
    fn add_note(&mut self, alloc: Global, text: &str) -> Result<()> {
        let note = bytes_of(alloc, text)?;
        self.notes.push(note)?;
        Ok(())
    }

    /// Adds a sentence of the explanations.
    fn add_sentence(&mut self, alloc: Global, text: &str) -> Result<()> {
        let sentence = bytes_of(alloc, text)?;
        self.says.push(sentence)?;
        Ok(())
    }

    /// Adds a point, and what is said of it.
    fn add_point(&mut self, alloc: Global, words: &[&str]) -> Result<()> {
        let [own, low, high, strength, drawn, least, greatest] = words else {
            bail!("a point")
        };
        self.points
            .push(point_of(alloc, &[*own, *low, *high, *strength])?)?;
        self.answer.drawn.push(length(drawn)?)?;
        self.answer.moved.push(moved_of(least, greatest)?)?;
        Ok(())
    }

    /// Adds an entry.
    fn add_entry(&mut self, alloc: Global, words: &[&str]) -> Result<()> {
        let row = entry_of(alloc, words)?;
        self.entries.push(row)?;
        Ok(())
    }

    /// Adds a benchmark, and what the others say of it.
    fn add_benchmark(&mut self, alloc: Global, words: &[&str]) -> Result<()> {
        let [own, height, sights, weight, mistake, others, low, high] = words else {
            bail!("a benchmark")
        };
        let row = benchmark_of(alloc, &[*own, *height, *sights, *weight, *mistake])?;
        self.benchmarks.push(row)?;
        if *others != "-" {
            self.answer.others.push(others_of(others, low, high)?)?;
        }
        Ok(())
    }

    /// Adds the observations of a book.
    fn read_book(&mut self, alloc: Global, bytes: &[u8]) -> Result<()> {
        self.read = self.read.checked_add(1).context("too many books")?;
        let observations = read_book(alloc, self.read, bytes)
            .ok()
            .context("a bad book")?;
        self.observations.extend_from_slice(&observations)?;
        Ok(())
    }

    /// Adds the sight of the next observation, and its group.
    fn add_sight(&mut self, words: &[&str]) -> Result<()> {
        let [rest @ .., group] = words else {
            bail!("a sight")
        };
        let k = self.sights.len();
        let observation = *self.observations.get(k).context("too many sights")?;
        self.sights.push(sight_of(k, &observation, rest)?)?;
        self.answer.groups.push(group_of(group)?)?;
        Ok(())
    }
}

/// An answer that says nothing yet. No row has the sight that is far beyond the usual residual.
fn no_answer(alloc: Global) -> Answer {
    Answer {
        groups: Vec::new(alloc),
        moved: Vec::new(alloc),
        drawn: Vec::new(alloc),
        others: Vec::new(alloc),
        outlier: None,
    }
}

/// The heights of a point that a number moves, if one does.
fn moved_of(low: &str, high: &str) -> Result<Option<Moved>> {
    if low == "-" {
        return Ok(None);
    }
    Ok(Some(Moved {
        low: length(low)?,
        high: length(high)?,
    }))
}

/// The group of a letter.
fn group_of(letter: &str) -> Result<Group> {
    match letter {
        "a" => Ok(Group::Question),
        "s" => Ok(Group::Stays),
        "c" => Ok(Group::Cleared),
        "v" => Ok(Group::Unlike),
        "q" => Ok(Group::Fits),
        _ => bail!("no group"),
    }
}

/// What the others say.
fn others_of(word: &str, low: &str, high: &str) -> Result<Others> {
    match word {
        "nothing" => Ok(Others::Nothing),
        "fits" => Ok(Others::Fits),
        "differs" => Ok(Others::Differ {
            low: length(low)?,
            high: length(high)?,
        }),
        _ => bail!("nothing that others say"),
    }
}

/// A point.
fn point_of(alloc: Global, words: &[&str]) -> Result<PointRow> {
    let [own, low, high, strength] = words else {
        bail!("a point")
    };
    let low = length(low)?;
    let high = length(high)?;
    Ok(PointRow {
        name: name(alloc, own)?,
        low,
        high,
        spread: high.checked_sub(low).context("a large spread")?,
        strength: optional(strength)?,
        alone: false,
    })
}

/// The sight of observation `k`, from 0.
fn sight_of(k: usize, observation: &Observation, words: &[&str]) -> Result<ObservationRow> {
    let [
        weight,
        residual,
        control,
        mistake,
        from,
        from_low,
        to,
        to_low,
    ] = words
    else {
        bail!("a sight")
    };
    let weight = number(weight)?;
    let control = optional(control)?;
    Ok(ObservationRow {
        number: u32::try_from(k)
            .ok()
            .and_then(|k| k.checked_add(1))
            .context("many sights")?,
        observation: *observation,
        weight,
        residual: length(residual)?,
        control,
        mistake: mistake_of(mistake)?,
        blame: None,
        from: End {
            place: place(from)?,
            low: length(from_low)?,
        },
        to: End {
            place: place(to)?,
            low: length(to_low)?,
        },
    })
}

/// What a mistake in a sight would do.
fn mistake_of(word: &str) -> Result<Mistake> {
    match word {
        "shows" => Ok(Mistake::Shows),
        "ties" => Ok(Mistake::Ties),
        "hides" => Ok(Mistake::Hides),
        "unchecked" => Ok(Mistake::Unchecked),
        _ => bail!("no mistake in a sight"),
    }
}

/// What a mistake in a number of several sights would do.
fn shared_mistake_of(word: &str) -> Result<SharedMistake> {
    match word {
        "shows" => Ok(SharedMistake::Shows),
        "ties" => Ok(SharedMistake::Ties),
        "drags" => Ok(SharedMistake::Drags),
        "unchecked" => Ok(SharedMistake::Unchecked),
        _ => bail!("no mistake in several sights"),
    }
}

/// An entry.
fn entry_of(alloc: Global, words: &[&str]) -> Result<EntryRow> {
    let [
        book,
        line,
        word,
        station,
        sign,
        digits,
        code,
        sights,
        weight,
        mistake,
    ] = words
    else {
        bail!("an entry")
    };
    let line = number(line)?;
    let kind = if *word == "87" {
        HeightKind::Reflector
    } else {
        HeightKind::Instrument
    };
    let unit = unit(code)?;
    Ok(EntryRow {
        entry: Entry {
            book: number(book)?,
            line,
            kind,
            station: name(alloc, station)?,
            length: keyed_in(sign, digits, unit)?,
            unit,
            repeated: line,
            sights: number(sights)?,
            last: line,
        },
        weight: number(weight)?,
        mistake: shared_mistake_of(mistake)?,
        blame: None,
    })
}

/// A benchmark.
fn benchmark_of(alloc: Global, words: &[&str]) -> Result<BenchmarkRow> {
    let [own, height, sights, weight, mistake] = words else {
        bail!("a benchmark")
    };
    Ok(BenchmarkRow {
        name: name(alloc, own)?,
        height: length(height)?,
        sights: number(sights)? as usize,
        weight: number(weight)?,
        strength: None,
        mistake: if *mistake == "-" {
            None
        } else {
            Some(shared_mistake_of(mistake)?)
        },
        blame: None,
    })
}

/// Adds an explanation.
fn add_explanation(alloc: Global, rows: &mut Vec<Row>, words: &[&str]) -> Result<()> {
    let [
        own,
        kind,
        book,
        line,
        from,
        to,
        given,
        low,
        high,
        left,
        blunders,
    ] = words
    else {
        bail!("an explanation")
    };
    rows.push(Row {
        number: number(own)?,
        kind: kind_of(kind)?,
        book: optional(book)?,
        line: optional(line)?,
        last: None,
        from: optional_name(alloc, from)?,
        to: optional_name(alloc, to)?,
        sights: 0,
        values: values_of(given, low, high)?,
        explains: 0,
        left: cost(left)?,
        blunders: number(blunders)?,
    })?;
    Ok(())
}

/// The values of a number.
fn values_of(given: &str, low: &str, high: &str) -> Result<Option<Values>> {
    if given == "-" {
        return Ok(None);
    }
    Ok(Some(Values {
        given: length(given)?,
        low: length(low)?,
        high: length(high)?,
    }))
}

/// A kind of number.
fn kind_of(word: &str) -> Result<Kind> {
    match word {
        "instrument" => Ok(Kind::Instrument),
        "reflector" => Ok(Kind::Reflector),
        "instrument_since" => Ok(Kind::InstrumentSince),
        "reflector_since" => Ok(Kind::ReflectorSince),
        "sight" => Ok(Kind::Sight),
        "benchmark" => Ok(Kind::Benchmark),
        "book" => Ok(Kind::Book),
        _ => bail!("no kind"),
    }
}
