//! The entries that are in force in a line, found line by line.
ghost use Rattle.std.specs.Prelude.{◌≡◌, is_some};
ghost use Rattle.th_mend.specs.Inside.Forces.{force_of, force_with, forces_with, height_of, home_in, is_same, none_if, setup_on};

use crate::changes::What;
use gsi_word::Name;
use th_book::{Entered, Setup};
use th_entries::HeightKind;
use th_units::Len;

/// The lines of the entries that are in force: that of the reflector's height and that of the
/// instrument's. Places count lines from 0.
#[derive(Clone, Copy, Debug)]
pub struct Forces {
    pub(crate) reflector: Option<u32>,
    pub(crate) instrument: Option<u32>,
}

impl Forces {
    /// What is in force behind the line at a place, which enters this in the running setup.
    pub(crate) fn after(&self, running: &Option<Setup>, entered: &Entered, place: u32) -> Forces
        ensures { result ≡ forces_with running.now entered.now place self.now }
    {
        let setup = setup_on(running, &entered.station);
        let begins = entered.station.is_some();
        let reflector = none_if(begins, self.reflector);
        let instrument = none_if(begins, self.instrument);
        Forces {
            reflector: force_with(
                HeightKind::Reflector,
                &setup,
                entered.reflector,
                place,
                reflector,
            ),
            instrument: force_with(
                HeightKind::Instrument,
                &setup,
                entered.instrument,
                place,
                instrument,
            ),
        }
    }

    /// What a line at a place has in common with the others that a change reaches.
    pub(crate) fn home(&self, what: &What, place: u32) -> Option<u32>
        ensures { result ≡ home_in what.now place self.now }
    {
        match what {
            What::Height(kind, _, _) => self.of(*kind),
            _ => Some(place),
        }
    }

    /// The line of the entry of a kind that is in force.
    fn of(&self, kind: HeightKind) -> Option<u32>
        ensures { result ≡ force_of kind self.now }
    {
        match kind {
            HeightKind::Reflector => self.reflector,
            HeightKind::Instrument => self.instrument,
        }
    }
}

/// The setup of a line, before its heights.
fn setup_on(running: &Option<Setup>, station: &Option<Name>) -> Option<Setup>
    ensures { result ≡ setup_on running.now station.now }
{
    match station {
        Some(station) => Some(Setup {
            station: *station,
            instrument: None,
            reflector: None,
        }),
        None => *running,
    }
}

/// A new setup has no entry yet.
fn none_if(begins: bool, before: Option<u32>) -> Option<u32>
    ensures { result ≡ none_if begins before }
{
    if begins { None } else { before }
}

/// The entry in force behind a line that is in this setup and may enter a length.
fn force_with(
    kind: HeightKind,
    setup: &Option<Setup>,
    length: Option<Len>,
    place: u32,
    before: Option<u32>,
) -> Option<u32>
    ensures { result ≡ force_with kind setup.now length place before }
{
    match (setup, length) {
        (Some(setup), Some(length)) if !is_same(height_of(kind, setup), length) => Some(place),
        _ => before,
    }
}

/// The last height of a kind in a setup.
fn height_of(kind: HeightKind, setup: &Setup) -> Option<Len>
    ensures { result ≡ height_of kind setup.now }
{
    match kind {
        HeightKind::Reflector => setup.reflector,
        HeightKind::Instrument => setup.instrument,
    }
}

/// Whether a length repeats the last one, if there is one.
fn is_same(last: Option<Len>, length: Len) -> bool
    ensures { result ≡ is_same last length }
{
    match last {
        Some(last) => last == length,
        None => false,
    }
}
