//! Odd blocks: sights that are directions alone, and sights that change the instrument height.
ghost use Rattle.std.specs.Prelude.{◌≡◌, ◌++◌, ℕ, List, OnOk, map};
ghost use Rattle.std.specs.List.{list_any};
ghost use Rattle.gsi_word.specs.Words.{parts_of};
ghost use Rattle.th_book.specs.Lines.{counts_for};
ghost use Rattle.th_entries.specs.Inside.Oddities.{changes, line_if, points};
ghost use Rattle.th_entries.specs.Listed.{IsListed};
ghost use Rattle.th_entries.specs.Oddities.{differ, is_no_distance, is_zero};

use crate::listed::Listed;
use gsi_word::{SLOPE_DISTANCE, Word, length_of, two_digit};
use std::alloc::AllocError;
use th_book::{Entered, Setup};
use th_units::Len;

/// Whether a word counts for an index.
pub(crate) fn counts_for(word: &Word<'_>, index: u8) -> bool
    ensures { result ≡ counts_for index (parts_of word.now) }
{
    match two_digit(word) {
        Some(own) => own == index,
        None => false,
    }
}

/// Whether a block points in a direction alone: it enters a height difference of zero, and writes a
/// distance of zero.
pub(crate) fn is_direction(entered: &Entered, words: &[Word<'_>]) -> bool
    ensures { result ≡ points entered.now (map parts_of words.now) }
{
    is_zero(entered.sighted) && has_no_distance(words)
}

/// Whether a block writes a distance of zero.
fn has_no_distance(words: &[Word<'_>]) -> bool
    ensures { result ≡ list_any is_no_distance (map parts_of words.now) }
{
    let mut none = false;
    for word in words {
        none = none | is_no_distance(word);
    }
    none
}

/// Whether a word writes a distance of zero.
fn is_no_distance(word: &Word<'_>) -> bool
    ensures { result ≡ is_no_distance (parts_of word.now) }
{
    counts_for(word, SLOPE_DISTANCE) && is_zero(length_of(word).ok())
}

/// Whether a length is there, and is zero.
fn is_zero(length: Option<Len>) -> bool
    ensures { result ≡ is_zero length }
{
    match length {
        Some(length) => length.get() == 0,
        None => false,
    }
}

/// Whether a sight enters another instrument height than the running setup has.
pub(crate) fn changes_height(running: &Option<Setup>, entered: &Entered) -> bool
    ensures { result ≡ changes running.now entered.now }
{
    match running {
        Some(setup) => entered.target.is_some() && differ(setup.instrument, entered.instrument),
        None => false,
    }
}

/// Whether two lengths are there, and differ.
fn differ(before: Option<Len>, own: Option<Len>) -> bool
    ensures { result ≡ differ before own }
{
    match (before, own) {
        (Some(before), Some(own)) => before != own,
        _ => false,
    }
}

/// Lists a line where it is odd.
pub(crate) fn list_if(lines: &mut Listed<u32>, odd: bool, line: u32) -> Result<(), AllocError>
    ensures { OnOk result ((before : List ℕ) → IsListed before lines.old
        → IsListed (before ++ line_if odd line) lines.new) }
{
    if odd {
        lines.push(line)?;
    }
    Ok(())
}
