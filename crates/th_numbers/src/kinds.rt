//! The entries of a survey by kind, and those that an observation may be among.
ghost use Rattle.std.specs.Prelude.{◌≡◌, ◌≤◌, IfOk, OnOk, false, length, true};
ghost use Rattle.std.specs.List.{filter};
ghost use Rattle.std.specs.List.Sorted.{IsPartitionPoint};
ghost use Rattle.th_entries.specs.declared.entries.HeightKind.TheVariants as height;
ghost use Rattle.th_numbers.specs.Inside.Kinds.{AreAround, FollowEachOther, is_ended, is_of, precedes};
ghost use Rattle.th_numbers.specs.Lists.{is_kind, is_used};

use std::alloc::{AllocError, Global};
use th_entries::{Entry, HeightKind};
use th_observations::Observation;

/// The entries of one kind, and whether each ends before the next one begins, as those of books do.
#[derive(Drop)]
struct Holders {
    entries: Vec<Entry>,
    in_order: bool,
    ghost ordered: { in_order ≡ true → FollowEachOther entries.items },
}

/// The entries of a survey, and those of each kind.
#[derive(Drop)]
pub struct Kinds<'a> {
    pub entries: &'a [Entry],
    instruments: Holders,
    reflectors: Holders,
    ghost instruments_are: { instruments.entries.items ≡ filter (is_of height.Instrument) entries.now },
    ghost reflectors_are: { reflectors.entries.items ≡ filter (is_of height.Reflector) entries.now },
}

impl<'a> Kinds<'a> {
    /// The entries by kind.
    pub fn of(alloc: Global, entries: &'a [Entry]) -> Result<Kinds<'a>, AllocError>
        ensures { IfOk result (λ own. own.entries.now ≡ entries.now) }
    {
        Ok(Kinds {
            entries,
            instruments: Holders::of(alloc, entries, HeightKind::Instrument)?,
            reflectors: Holders::of(alloc, entries, HeightKind::Reflector)?,
        })
    }

    /// Some entries, among them all of a kind that an observation is among. Where those of the kind
    /// follow each other, it is one at most.
    pub fn around(&self, kind: HeightKind, o: &Observation) -> &[Entry]
        ensures { filter (is_used kind o.now) result.now ≡ filter (is_used kind o.now) self.now.entries.now }
    {
        match kind {
            HeightKind::Instrument => self.instruments.around(HeightKind::Instrument, o),
            HeightKind::Reflector => self.reflectors.around(HeightKind::Reflector, o),
        }
    }
}

impl Holders {
    /// The entries of a kind among some.
    fn of(alloc: Global, entries: &[Entry], kind: HeightKind) -> Result<Holders, AllocError>
        ensures { IfOk result (λ own. own.entries.items ≡ filter (is_of kind) entries.now) }
    {
        let own = of_kind(alloc, entries, kind)?;
        let in_order = follow_each_other(own.as_slice());
        Ok(Holders {
            entries: own,
            in_order,
        })
    }

    /// Those that an observation may be among: one at most, if all are in order.
    fn around(&self, kind: HeightKind, o: &Observation) -> &[Entry]
        ensures { filter (is_used kind o.now) result.now ≡ filter (is_used kind o.now) self.now.entries.items }
    {
        let (start, end) = self.window(o);
        &self.entries[start..end]
    }

    /// From where to where they are, without the second place.
    fn window(&self, o: &Observation) -> (usize, usize)
        ensures { AreAround self.now.entries.items o.now result }
    {
        let entries = self.entries.as_slice();
        if !self.in_order {
            return (0, entries.len());
        }
        let start = count_ended(entries, o.book, o.line);
        (start, entries.len().min(start + 1))
    }
}

/// The entries of a kind.
fn of_kind(alloc: Global, entries: &[Entry], kind: HeightKind) -> Result<Vec<Entry>, AllocError>
    ensures { IfOk result (λ own. own.items ≡ filter (is_of kind) entries.now) }
{
    let mut own = Vec::new(alloc);
    for entry in entries {
        if is_kind(entry.kind, kind) {
            own.push(*entry)?;
        }
    }
    Ok(own)
}

/// Whether a height is of a kind.
pub fn is_kind(own: HeightKind, kind: HeightKind) -> bool
    ensures { result ≡ is_kind own kind }
{
    match (own, kind) {
        (HeightKind::Instrument, HeightKind::Instrument) => true,
        (HeightKind::Reflector, HeightKind::Reflector) => true,
        _ => false,
    }
}

/// Whether each entry ends before the next one begins.
fn follow_each_other(entries: &[Entry]) -> bool
    ensures { result ≡ true → FollowEachOther entries.now }
{
    for k in 1..entries.len() {
        if !precedes(&entries[k - 1], &entries[k]) {
            return false;
        }
    }
    true
}

/// Whether an entry ends before another begins, which does not end before it begins.
fn precedes(entry: &Entry, next: &Entry) -> bool
    ensures { result ≡ precedes entry.now next.now }
{
    is_ended(entry, next.book, next.line) && next.line <= next.last
}

/// Whether an entry ends before a line of a book.
fn is_ended(entry: &Entry, book: u32, line: u32) -> bool
    ensures { result ≡ is_ended book line entry.now }
{
    entry.book < book || (entry.book == book && entry.last < line)
}

/// How many entries end before a line of a book.
fn count_ended(entries: &[Entry], book: u32, line: u32) -> usize
    requires { FollowEachOther entries.now }
    ensures within { result ≤ length entries.now }
    ensures split { IsPartitionPoint (λ entry. is_ended book line entry ≡ true)
        (λ entry. is_ended book line entry ≡ false) entries.now result }
{
    entries.partition_point(|entry| is_ended(entry, book, line))
}
