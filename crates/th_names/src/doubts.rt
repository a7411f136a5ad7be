//! What a row doubts whose names may be wrong.
ghost use Rattle.std.specs.Prelude.{◌≡◌, IfOk};
ghost use Rattle.th_names.specs.Doubts.{doubt_of, doubt_with, lone_station, namings_of, number_of, setup_with, sight_doubt, sight_with};

use crate::namings::Naming;
use gsi_word::Name;
use std::alloc::{AllocError, Global};
use th_changes::Number;
use th_entries::{Entry, HeightKind};
use th_explain_texts::{Kind, Row};
use th_meant::entry_of;
use th_reliability::Sights;
use th_review_rows::sights_of;

/// What a row doubts whose names may be wrong.
#[derive(Clone, Copy, Debug)]
pub enum Doubt {
    /// A sight to a target.
    Sight(Sights, Name),
    /// The only sight of a setup, to a target and from a station.
    LoneSight(Sights, Name, Name),
    /// The sights that use an instrument height, from a station.
    Setup(Sights, Name),
    /// The height of a benchmark.
    Benchmark(Name),
}

impl Doubt {
    /// Its number.
    pub fn number(&self) -> Number
        ensures { result ≡ number_of self.now }
    {
        match self {
            Doubt::Sight(sights, _) => Number::Added(*sights),
            Doubt::LoneSight(sights, _, _) => Number::Added(*sights),
            Doubt::Setup(sights, _) => Number::Added(*sights),
            Doubt::Benchmark(name) => Number::Benchmark(*name),
        }
    }

    /// Its names, a target before a station.
    pub(crate) fn namings(&self, alloc: Global) -> Result<Vec<Naming>, AllocError>
        ensures { IfOk result (λ namings. namings.items ≡ namings_of self.now) }
    {
        let namings = match self {
            Doubt::Sight(sights, target) => {
                Vec::from_array(alloc, [Naming::Target(*sights, *target)])?
            }
            Doubt::LoneSight(sights, target, station) => Vec::from_array(
                alloc,
                [
                    Naming::Target(*sights, *target),
                    Naming::Station(*sights, *station),
                ],
            )?,
            Doubt::Setup(sights, station) => {
                Vec::from_array(alloc, [Naming::Station(*sights, *station)])?
            }
            Doubt::Benchmark(name) => Vec::from_array(alloc, [Naming::Row(*name)])?,
        };
        Ok(namings)
    }
}

/// What a row doubts whose names may be wrong: a sight, a setup or a benchmark.
pub(crate) fn doubt_of(entries: &[Entry], row: &Row) -> Option<Doubt>
    ensures { result ≡ doubt_of entries.now row.now }
{
    doubt_with(row, entry_of(entries, row, HeightKind::Instrument))
}

/// The same, given the instrument height that is in force in the line of the row.
fn doubt_with(row: &Row, setup: Option<Entry>) -> Option<Doubt>
    ensures { result ≡ doubt_with row.now.kind row.now setup }
{
    match row.kind {
        Kind::Instrument => setup.map(|entry| setup_with(&entry)),
        Kind::Reflector => None,
        Kind::InstrumentSince => None,
        Kind::ReflectorSince => None,
        Kind::Sight => sight_doubt(row, lone_station(setup)),
        Kind::Benchmark => row.from.map(|name| Doubt::Benchmark(name)),
        Kind::Book => None,
    }
}

/// The sights that use an instrument height.
fn setup_with(entry: &Entry) -> Doubt
    ensures { result ≡ setup_with entry.now }
{
    Doubt::Setup(sights_of(entry), entry.station)
}

/// The station of a setup that has one sight.
fn lone_station(setup: Option<Entry>) -> Option<Name>
    ensures { result ≡ lone_station setup }
{
    match setup {
        Some(entry) if entry.sights == 1 => Some(entry.station),
        _ => None,
    }
}

/// The sight of a row, given the station if it is all that its setup has.
fn sight_doubt(row: &Row, station: Option<Name>) -> Option<Doubt>
    ensures { result ≡ sight_doubt row.now.book row.now.line row.now.to station }
{
    match (row.book, row.line, row.to) {
        (Some(book), Some(line), Some(target)) => {
            let sights = Sights {
                book,
                first: line,
                last: line,
            };
            Some(sight_with(sights, target, station))
        }
        _ => None,
    }
}

/// A sight to a target, which may be all that its setup has.
fn sight_with(sights: Sights, target: Name, station: Option<Name>) -> Doubt
    ensures { result ≡ sight_with sights target station }
{
    match station {
        Some(station) => Doubt::LoneSight(sights, target, station),
        None => Doubt::Sight(sights, target),
    }
}
