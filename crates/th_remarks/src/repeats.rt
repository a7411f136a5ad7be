//! The notes of books of which many sights are in an earlier book too.
ghost use Rattle.std.specs.Prelude.{◌≡◌, ◌≤◌, ◌+◌, ◌++◌, ◌&&◌, ◌||◌, ℕ, IfOk, OnOk, length, option_to_list};
ghost use Rattle.th_limits.specs.Limits.{max_books, max_observations};
ghost use Rattle.th_observations.specs.Observed.{Observed};
ghost use Rattle.th_remarks.specs.Inside.Said.{AreSaidIn, IsSaidIn, has_said, said};
ghost use Rattle.th_remarks.specs.Repeats.{AreRepeatNotes, IsRepeatNote, is_in, is_said_in, says_same, shared, sights_in};

use gsi_word::Name;
use std::alloc::{AllocError, Global};
use std::collections::BTreeSet;
use th_limits::MAX_BOOKS;
use th_observations::Observation;

/// The fewest sights of a book that is noted.
const FEWEST: u32 = 3;

/// Half of the sights of a book or more are in an earlier one too.
#[derive(Clone, Copy, Debug)]
pub struct Repeat {
    /// The number of the book, from 1.
    pub book: u32,
    /// How many sights it has.
    pub sights: u32,
    /// How many of them are in the earlier book: it has a sight with the same station, target and
    /// difference.
    pub count: u32,
    /// The number of the earlier book.
    pub earlier: u32,
}

/// What sights say, each a station, a target and a difference, in order: each costs the logarithm of their
/// number, whatever the names are.
type Sayings = BTreeSet<(Name, Name, i64)>;

/// The notes on books 1 to `MAX_BOOKS` of some observations, in their order.
///
/// The time is that of a pass over the observations for each two books.
pub fn repeats_in(alloc: Global, observations: &[Observation]) -> Result<Vec<Repeat>, AllocError>
    requires { length observations.now ≤ max_observations }
    ensures { IfOk result (λ notes. AreRepeatNotes observations.now notes.items) }
{
    let mut notes = Vec::new(alloc);
    let mut before = Vec::new(alloc);
    for k in 0..MAX_BOOKS {
        let book = k as u32 + 1;
        add_note(&mut notes, repeat_of(observations, book, &before))?;
        before.push(said_in(alloc, observations, book)?)?;
    }
    Ok(notes)
}

/// Adds a note, if there is one.
fn add_note(notes: &mut Vec<Repeat>, note: Option<Repeat>) -> Result<(), AllocError>
    ensures { OnOk result (notes.new.items ≡ notes.old.items ++ option_to_list note) }
{
    if let Some(note) = note {
        notes.push(note)?;
    }
    Ok(())
}

/// The note on a book, given what is said in each book before it.
fn repeat_of(observations: &[Observation], book: u32, before: &[Sayings]) -> Option<Repeat>
    requires few { length observations.now ≤ max_observations }
    requires within { book ≤ max_books }
    requires all { length before.now + 1 ≡ book }
    requires said { AreSaidIn observations.now before.now }
    ensures { IsRepeatNote observations.now book result }
{
    let sights = sights_in(observations, book);
    if sights < FEWEST {
        return None;
    }
    let mut count = 0;
    let mut earlier = 0;
    for (k, sayings) in before.iter().enumerate() {
        let own = shared(observations, book, sayings);
        if own > count {
            count = own;
            earlier = k as u32 + 1;
        }
    }
    if 2 * count < sights {
        return None;
    }
    Some(Repeat {
        book,
        sights,
        count,
        earlier,
    })
}

/// How many sights a book has.
fn sights_in(observations: &[Observation], book: u32) -> u32
    requires { length observations.now ≤ max_observations }
    ensures { result ≡ sights_in observations.now book }
{
    let mut count = 0;
    for o in observations {
        if o.book == book {
            count += 1;
        }
    }
    count
}

/// How many sights of a book say what is said in another one.
fn shared(observations: &[Observation], book: u32, other: &Sayings) -> u32
    requires { length observations.now ≤ max_observations }
    ensures small { result ≤ max_observations }
    ensures shared { (number : ℕ) → IsSaidIn observations.now number other.now
        → result ≡ shared observations.now book number }
{
    let mut count = 0;
    for o in observations {
        if is_shared(o, book, other) {
            count += 1;
        }
    }
    count
}

/// Whether a sight is in a book, and says what is said in another one.
fn is_shared(o: &Observation, book: u32, other: &Sayings) -> bool
    ensures { result ≡ (is_in book o.now && has_said other.now (said o.now)) }
{
    o.book == book && other.contains(&said(o))
}

/// What is said in a book.
fn said_in(alloc: Global, observations: &[Observation], book: u32) -> Result<Sayings, AllocError>
    ensures { IfOk result (IsSaidIn observations.now book) }
{
    let mut all = BTreeSet::new(alloc);
    for o in observations {
        add_said(&mut all, o, book)?;
    }
    Ok(all)
}

/// Adds what a sight says, if it is in the book.
fn add_said(all: &mut Sayings, o: &Observation, book: u32) -> Result<(), AllocError>
    ensures { OnOk result ((own : Observed) → has_said all.new (said own)
        ≡ (has_said all.old (said own) || (is_in book o.now && says_same o.now own))) }
{
    if o.book != book {
        return Ok(());
    }
    all.insert(said(o))?;
    Ok(())
}

/// What a sight says.
fn said(o: &Observation) -> (Name, Name, i64)
    ensures { result ≡ said o.now }
{
    (o.station, o.target, o.diff)
}
