//! The words of a mended line, written one after the other.
ghost use Rattle.std.specs.Prelude.{◌≡◌, ◌<◌, ◌++◌, IfErr, OnOk, find, length, map};
ghost use Rattle.std.specs.Option.{option_copied};
ghost use Rattle.gsi_block.specs.Blocks.{block_parts};
ghost use Rattle.gsi_word.specs.Words.{closed, parts_of};
ghost use Rattle.th_mend.specs.Inside.Stops.{AreWritten, IsStopOf};
ghost use Rattle.th_mend.specs.MendedLines.{added_by, added_words, changed, changed_by, is_name, is_of_word, kind_of, later_words, made, name_edit, or_else, own_words, word_edit};
ghost use Rattle.th_mend.specs.declared.misfits.Misfit.{Misfit};

use crate::changes::{Reach, What};
use crate::counting::{counts_for, holds};
use crate::edits::{Edit, index_changed, index_of};
use crate::faults::{MendKind, RowFault};
use crate::misfits::Misfit;
use crate::new_words::{NewWord, added_word, with_length, with_name, with_other_sign};
use crate::stops::Stop;
use arrayvec::ArrayVec;
use gsi_block::Block;
use gsi_word::{Word, write_word};
use std::alloc::AllocError;
use th_entries::HeightKind;

/// Appends the words of a block, of which the first may hold a name, as the edits of a place change
/// them.
pub(crate) fn append_own(
    edits: &[Edit],
    place: u32,
    words: &[Word<'_>],
    text: &mut Vec<u8>,
) -> Result<(), Stop>
    ensures written { OnOk result (AreWritten (own_words edits.now place (map parts_of words.now))
        text.old.items text.new.items) }
    ensures fault { IfErr result (IsStopOf (own_words edits.now place (map parts_of words.now))) }
{
    let Some((word, later)) = words.split_first() else {
        return Ok(());
    };
    append_changed(first_edit(edits, place, word), word, text)?;
    append_later(edits, place, later, text)
}

/// Appends the words behind the first.
fn append_later(
    edits: &[Edit],
    place: u32,
    words: &[Word<'_>],
    text: &mut Vec<u8>,
) -> Result<(), Stop>
    ensures written { OnOk result (AreWritten (later_words edits.now place (map parts_of words.now))
        text.old.items text.new.items) }
    ensures fault { IfErr result (IsStopOf (later_words edits.now place (map parts_of words.now))) }
{
    let Some((word, later)) = words.split_first() else {
        return Ok(());
    };
    append_changed(word_edit(edits, place, word), word, text)?;
    append_later(edits, place, later, text)
}

/// Appends the words that a block gets.
pub(crate) fn append_added(
    edits: &[Edit],
    place: u32,
    block: &Block<'_>,
    text: &mut Vec<u8>,
) -> Result<(), Stop>
    ensures written { OnOk result (AreWritten (added_words edits.now place (block_parts block.now))
        text.old.items text.new.items) }
    ensures fault { IfErr result (IsStopOf (added_words edits.now place (block_parts block.now))) }
{
    let Some((edit, later)) = edits.split_first() else {
        return Ok(());
    };
    append_added_by(edit, place, block, text)?;
    append_added(later, place, block, text)
}

/// Appends the word that a block gets by an edit, if it gets one.
fn append_added_by(
    edit: &Edit,
    place: u32,
    block: &Block<'_>,
    text: &mut Vec<u8>,
) -> Result<(), Stop>
    ensures written { OnOk result (AreWritten (added_by edit.now edit.now.what place (block_parts block.now))
        text.old.items text.new.items) }
    ensures fault { IfErr result (IsStopOf (added_by edit.now edit.now.what place (block_parts block.now))) }
{
    match edit.what {
        What::Height(kind, Reach::Since, length)
            if edit.first == place && !holds(index_of(kind), block.words()) => {
            append_made(
                edit.row,
                added_word(block.width(), index_of(kind), length),
                text,
            )
        }
        _ => Ok(()),
    }
}

/// Appends what becomes of a word by its edit.
fn append_changed(edit: Option<Edit>, word: &Word<'_>, text: &mut Vec<u8>) -> Result<(), Stop>
    ensures written { OnOk result (AreWritten (changed edit (parts_of word.now))
        text.old.items text.new.items) }
    ensures fault { IfErr result (IsStopOf (changed edit (parts_of word.now))) }
{
    match edit {
        Some(edit) => append_changed_by(&edit, word, text),
        None => Ok(append_word(word, text)?),
    }
}

/// Appends what becomes of a word by an edit.
fn append_changed_by(edit: &Edit, word: &Word<'_>, text: &mut Vec<u8>) -> Result<(), Stop>
    ensures written { OnOk result (AreWritten (changed_by edit.now edit.now.what (parts_of word.now))
        text.old.items text.new.items) }
    ensures fault { IfErr result (IsStopOf (changed_by edit.now edit.now.what (parts_of word.now))) }
{
    match edit.what {
        What::Height(_, _, length) | What::Sighted(length) => {
            append_made(edit.row, with_length(word, length), text)
        }
        What::LeftOut => Ok(()),
        What::OtherSign => Ok(append_word(&with_other_sign(word), text)?),
        What::Target(name) | What::Station(name) => {
            append_made(edit.row, with_name(word, &name), text)
        }
    }
}

/// Appends a word that a record makes.
fn append_made(row: u32, own: Result<NewWord, Misfit>, text: &mut Vec<u8>) -> Result<(), Stop>
    ensures written { OnOk result (AreWritten (made row own) text.old.items text.new.items) }
    ensures fault { IfErr result (IsStopOf (made row own)) }
{
    match own {
        Ok(word) => Ok(append_word(&word.word(), text)?),
        Err(misfit) => Err(Stop::Row(RowFault {
            row,
            kind: kind_of(misfit),
        })),
    }
}

/// Appends a word, and the space that closes it.
fn append_word(word: &Word<'_>, text: &mut Vec<u8>) -> Result<(), AllocError>
    ensures { OnOk result (text.new.items ≡ text.old.items ++ closed (parts_of word.now)) }
{
    let mut bytes = ArrayVec::new();
    write_word(word, &mut bytes);
    text.extend_from_slice(bytes.as_slice())
}

/// The kind of the fault of a record whose word has no place for something.
fn kind_of(misfit: Misfit) -> MendKind
    ensures { result ≡ kind_of misfit }
{
    match misfit {
        Misfit::NoUnit => MendKind::NoUnit,
        Misfit::NotWhole => MendKind::NotWhole,
        Misfit::TooManyDigits => MendKind::TooManyDigits,
        Misfit::LongName => MendKind::LongName,
    }
}

/// The edit of the first word of a block: that of its name, or else that of the word.
fn first_edit(edits: &[Edit], place: u32, word: &Word<'_>) -> Option<Edit>
    ensures { result ≡ or_else (name_edit edits.now place) (word_edit edits.now place (parts_of word.now)) }
{
    match name_edit(edits, place) {
        Some(edit) => Some(edit),
        None => word_edit(edits, place, word),
    }
}

/// The edit of a word at a place, if there is one.
fn word_edit(edits: &[Edit], place: u32, word: &Word<'_>) -> Option<Edit>
    ensures { result ≡ word_edit edits.now place (parts_of word.now) }
{
    let (edit, later) = edits.split_first()?;
    if edit.covers(place) && is_of_word(word, &edit.what) {
        return Some(*edit);
    }
    word_edit(later, place, word)
}

/// The edit of the name at a place, if there is one.
fn name_edit(edits: &[Edit], place: u32) -> Option<Edit>
    ensures { result ≡ name_edit edits.now place }
{
    let (edit, later) = edits.split_first()?;
    if edit.covers(place) && is_name(&edit.what) {
        return Some(*edit);
    }
    name_edit(later, place)
}

/// Whether something changes a word wherever it is in its line.
fn is_of_word(word: &Word<'_>, what: &What) -> bool
    ensures { result ≡ is_of_word (parts_of word.now) what.now }
{
    !is_name(what) && counts_for(index_changed(what), word)
}

/// Whether something changes the name that a line begins with.
fn is_name(what: &What) -> bool
    ensures { result ≡ is_name what.now }
{
    matches!(what, What::Target(_) | What::Station(_))
}
