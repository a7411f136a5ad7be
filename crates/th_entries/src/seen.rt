//! Names of stations and targets that were seen so far, and where a spelling first differs.
ghost use Rattle.std.specs.Prelude.{◌≡◌, ◌≤◌, [], ℕ, List, OnOk, Some, length, map};
ghost use Rattle.gsi_word.specs.Words.{parts_of};
ghost use Rattle.th_book.specs.Lines.{ParsedLine};
ghost use Rattle.th_entries.specs.Inside.Seen.{IsKnownNext, IsSeenNext, mention_by};
ghost use Rattle.th_entries.specs.Spellings.{without_zeros};

use crate::limits::MAX_MENTIONS;
use crate::listed::Listed;
use crate::spellings::Spelling;
use arrayvec::ArrayVec;
use gsi_word::{Name, Word};
use std::alloc::{AllocError, Global};
use std::collections::BTreeMap;
use th_book::Entered;

/// The most bytes of data that a word has.
const MAX_DATA: usize = 16;

/// How a name is spelled so far.
#[derive(Drop)]
enum Spelled {
    /// With these data each time, but for leading zeros.
    Alike(ArrayVec<u8, MAX_DATA>),
    /// In more than one way.
    Otherwise,
}

/// The names of stations and targets, and how they are spelled. It passes from one book to the
/// next. The names of the first `MAX_MENTIONS` setups and sights are kept, so that what is kept has a
/// bound.
///
/// The names are kept in order, so that each costs the logarithm of their number, whatever they are. A
/// hash could have no seed that covers the names still to come.
#[derive(Drop)]
pub struct SeenNames {
    spelled: BTreeMap<Name, Spelled>,
    found: Listed<Spelling>,
    /// How many setups and sights mentioned these names, at most `MAX_MENTIONS`.
    taken: u32,
}

impl SeenNames {
    ghost use Rattle.th_entries.specs.Listed.{IsListed};
    ghost use Rattle.th_entries.specs.Seen.{AreSeenInBooks};
    ghost use Rattle.th_entries.specs.Spellings.{spellings_of};

    /// No names yet.
    pub fn new(alloc: Global) -> SeenNames
        ensures { AreSeenInBooks [] result }
    {
        SeenNames {
            spelled: BTreeMap::new(alloc),
            found: Listed::new(alloc),
            taken: 0,
        }
    }

    /// Where each name is first spelled in another way than before, in the order of books and lines.
    pub fn found(&self) -> &Listed<Spelling>
        ensures { (books : List (ℕ × List ParsedLine)) →
            AreSeenInBooks books self.now → IsListed (spellings_of books) result.now }
    {
        &self.found
    }

    /// Takes the next mention of a name, which the data of a word spell. After `MAX_MENTIONS` it does
    /// nothing.
    pub(crate) fn take(&mut self, here: Spelling, word: &Word<'_>) -> Result<(), AllocError>
        ensures { OnOk result (IsSeenNext (Some (record {
          here = here;
          bytes = without_zeros (parts_of word.now).body;
        })) self.old self.new) }
    {
        if self.taken < MAX_MENTIONS {
            self.taken += 1;
            self.learn(here, word)?;
        }
        Ok(())
    }

    /// Learns how a mention of a name spells it.
    fn learn(&mut self, here: Spelling, word: &Word<'_>) -> Result<(), AllocError>
        ensures taken { self.new.taken ≡ self.old.taken }
        ensures known { OnOk result (IsKnownNext (record {
          here = here;
          bytes = without_zeros (parts_of word.now).body;
        }) self.old self.new) }
    {
        match self.spelled.get(&here.name) {
            None => {
                self.spelled
                    .insert(here.name, Spelled::Alike(data_of(word)))?;
            }
            Some(Spelled::Otherwise) => {}
            Some(Spelled::Alike(data)) => {
                if data.as_slice() != without_zeros(word.body()) {
                    self.found.push(here)?;
                    self.spelled.insert(here.name, Spelled::Otherwise)?;
                }
            }
        }
        Ok(())
    }
}

/// Takes the station of a block that is a setup, or the target of one that is a sight.
pub(crate) fn mention(
    names: &mut SeenNames,
    book: u32,
    line: u32,
    entered: &Entered,
    words: &[Word<'_>],
) -> Result<(), AllocError>
    ensures { OnOk result (IsSeenNext (mention_by book line entered.now (map parts_of words.now)) names.old names.new) }
{
    let Some(word) = words.first() else {
        return Ok(());
    };
    let Some(name) = entered.target.or(entered.station) else {
        return Ok(());
    };
    names.take(Spelling { book, line, name }, word)
}

/// A copy of a word's data, without leading zeros.
fn data_of(word: &Word<'_>) -> ArrayVec<u8, MAX_DATA>
    ensures { result ≡ record { items = without_zeros (parts_of word.now).body } }
{
    match ArrayVec::try_from(without_zeros(word.body())) {
        Ok(data) => data,
        Err(_) => unreachable!(),
    }
}

/// Data without their leading zeros, which pad them to the width of their block.
fn without_zeros(bytes: &[u8]) -> &[u8]
    ensures value { result.now ≡ without_zeros bytes.now }
    ensures within { length result.now ≤ length bytes.now }
{
    let mut left = bytes;
    while let [b'0', rest @ ..] = left {
        left = rest;
    }
    left
}
