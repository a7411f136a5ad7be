//! The changes that are sought in a book while it is read.
ghost use Rattle.std.specs.Prelude.{◌≡◌, ◌≤◌, ◌==◌, ◌++◌, ◌∷◌, [], OnOk, length, map};
ghost use Rattle.th_mend.specs.Limits.{max_changes};
ghost use Rattle.gsi_word.specs.Words.{parts_of};
ghost use Rattle.th_mend.specs.Inside.Forces.{seen_all, spot_here, spot_later, unknown};
ghost use Rattle.th_mend.specs.Reached.{are_one, height_fault, own_fault, place_of, setup_fault, unless_sight};

use crate::changes::{Change, What};
use crate::faults::MendKind;
use crate::forces::Forces;
use crate::sights::{has_coordinate, is_setup, is_sight};
use crate::sought::{Locating, Sought};
use crate::spots::Spot;
use gsi_word::Word;
use std::alloc::{AllocError, Global};
use th_book::laws::faultless_book_is_sound;
use th_book::{Entered, Setup, Witness};

impl Locating {
    ghost use Rattle.std.specs.Prelude.{ℕ, IfOk, List};
    ghost use Rattle.th_book.specs.Lines.{ParsedLine};
    ghost use Rattle.th_mend.specs.Located.{HasLocated};

    /// What is known of changes before the first line of a book. Changes are those of
    /// `crate::read_changes`.
    pub fn new(alloc: Global, changes: &[Change]) -> Result<Locating, AllocError>
        requires { length changes.now ≤ max_changes }
        ensures { IfOk result (λ locating. (number : ℕ) (parsed : List ParsedLine) →
            HasLocated changes.now number parsed 0 locating) }
    {
        let mut sought = Vec::new(alloc);
        append_sought(changes, &mut sought)?;
        Ok(Locating {
            place: 0,
            forces: Forces {
                reflector: None,
                instrument: None,
            },
            sought,
        })
    }
}

/// Appends changes of which nothing is known.
fn append_sought(changes: &[Change], sought: &mut Vec<Sought>) -> Result<(), AllocError>
    ensures { OnOk result (sought.new.items ≡ sought.old.items ++ map unknown changes.now) }
{
    let Some((change, later)) = changes.split_first() else {
        return Ok(());
    };
    push_sought(*change, sought)?;
    append_sought(later, sought)
}

// Taken apart, since the prover has to see the type of each part.
/// Appends a change of which nothing is known.
fn push_sought(change: Change, sought: &mut Vec<Sought>) -> Result<(), AllocError>
    ensures { OnOk result (sought.new.items ≡ sought.old.items ++ unknown change ∷ []) }
{
    let Change { line, what } = change;
    sought.push(Sought {
        change: Change { line, what },
        spot: None::<Spot>,
    })?;
    Ok(())
}

impl Witness for Locating {
    ghost use Rattle.std.specs.Prelude.{List};
    ghost use Rattle.th_mend.specs.Located.{HasLocated};
    ghost use Rattle.th_mend.specs.declared.changes.Change.{Change};

    ghost Start = { List Change };

    ghost has_seen = { HasLocated };

    fn blank(&mut self) {
        see_all(&mut self.sought, self.place, &self.forces, &[]);
        self.place = self.place.saturating_add(1);
    }

    fn block(&mut self, running: &Option<Setup>, entered: &Entered, words: &[Word<'_>]) {
        faultless_book_is_sound();
        self.forces = self.forces.after(running, entered, self.place);
        see_all(&mut self.sought, self.place, &self.forces, words);
        self.place = self.place.saturating_add(1);
    }
}

/// Sees the line at a place with these words, behind which this is in force.
fn see_all(sought: &mut Vec<Sought>, place: u32, forces: &Forces, words: &[Word<'_>])
    ensures { sought.new.items ≡ seen_all place forces.now (map parts_of words.now) sought.old.items }
{
    see(sought.as_mut_slice(), place, forces, words);
}

/// The same for some of the changes.
fn see(sought: &mut [Sought], place: u32, forces: &Forces, words: &[Word<'_>])
    ensures { sought.new ≡ seen_all place forces.now (map parts_of words.now) sought.old }
{
    let Some((own, later)) = sought.split_first_mut() else {
        return;
    };
    own.see(place, forces, words);
    see(later, place, forces, words);
}

impl Sought {
    ghost use Rattle.th_mend.specs.Inside.Forces.{seen_one};

    /// Sees the line at a place.
    fn see(&mut self, place: u32, forces: &Forces, words: &[Word<'_>])
        ensures { self.new ≡ seen_one place forces.now (map parts_of words.now) self.old }
    {
        let home = forces.home(&self.change.what, place);
        if is_at(&self.change, place) {
            self.spot = Some(spot_here(&self.change.what, words, home, place));
        } else {
            self.spot = spot_later(home, place, self.spot);
        }
    }
}

/// Whether a change names the line at a place.
fn is_at(change: &Change, place: u32) -> bool
    ensures { result ≡ (place_of change.now == place) }
{
    change.line.saturating_sub(1) == place
}

/// What is known of a change at its own line.
fn spot_here(what: &What, words: &[Word<'_>], home: Option<u32>, place: u32) -> Spot
    ensures { result ≡ spot_here what.now (map parts_of words.now) home place }
{
    let last = if are_one(home, home) {
        Some(place)
    } else {
        None
    };
    Spot {
        fault: own_fault(what, words, home),
        home,
        last,
    }
}

/// What is known of a change behind a later line.
fn spot_later(home: Option<u32>, place: u32, spot: Option<Spot>) -> Option<Spot>
    ensures { result ≡ spot_later home place spot }
{
    let spot = spot?;
    let last = if are_one(spot.home, home) {
        Some(place)
    } else {
        spot.last
    };
    Some(Spot {
        fault: spot.fault,
        home: spot.home,
        last,
    })
}

/// Whether two homes are there, and are one.
fn are_one(own: Option<u32>, other: Option<u32>) -> bool
    ensures { result ≡ are_one own other }
{
    match (own, other) {
        (Some(own), Some(other)) => own == other,
        _ => false,
    }
}

/// The fault of a change in a line with these words.
fn own_fault(what: &What, words: &[Word<'_>], home: Option<u32>) -> Option<MendKind>
    ensures { result ≡ own_fault what.now (map parts_of words.now) home }
{
    match what {
        What::Height(_, _, _) => height_fault(words, home),
        What::LeftOut if is_sight(words) && has_coordinate(words) => Some(MendKind::BeginsSetup),
        What::Station(_) => setup_fault(words),
        _ => unless_sight(words),
    }
}

/// The fault of a change of a height, in a line where no entry is in force, or which is blank.
fn height_fault(words: &[Word<'_>], entry: Option<u32>) -> Option<MendKind>
    ensures { result ≡ height_fault (map parts_of words.now) entry }
{
    if words.is_empty() || entry.is_none() {
        Some(MendKind::NoHeight)
    } else {
        None
    }
}

/// The fault of a change of a setup.
fn setup_fault(words: &[Word<'_>]) -> Option<MendKind>
    ensures { result ≡ setup_fault (map parts_of words.now) }
{
    if is_setup(words) {
        None
    } else {
        Some(MendKind::NoSetup)
    }
}

/// The fault of a change of a sight.
fn unless_sight(words: &[Word<'_>]) -> Option<MendKind>
    ensures { result ≡ unless_sight (map parts_of words.now) }
{
    if is_sight(words) {
        None
    } else {
        Some(MendKind::NoSight)
    }
}
