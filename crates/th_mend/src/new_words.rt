//! Words that own their data.
ghost use Rattle.std.specs.Prelude.{◌≡◌, ◌<◌};
ghost use Rattle.gsi_word.specs.Words.{data_len, parts, parts_of};
ghost use Rattle.th_mend.specs.NewWords.{added_in, added_word, in_unit, with_length, with_name, with_other_sign};

use crate::bodies::{Body, length_data, name_data};
use crate::lengths::info_of;
use crate::misfits::Misfit;
use gsi_word::{Name, Width, Word};
use std::marker::Model;
use th_units::{Unit, unit_of};

/// A word that owns its data.
#[derive(Drop)]
pub struct NewWord {
    index: u8,
    info: [u8; 4],
    negative: bool,
    body: Body,
}

impl Model for NewWord {
    ghost use Rattle.std.specs.Prelude.{◌≡◌, ◌<◌, ◌==◌, ◌||◌, IsTrue, length, true};
    ghost use Rattle.std.specs.List.{list_all};
    ghost use Rattle.gsi_word.specs.Bytes.{is_data, is_info};
    ghost use Rattle.gsi_word.specs.Words.{Parts, parts};

    ghost Value = { Parts };

    ghost view = { λ own. parts own.index own.info own.negative own.body.items };

    ghost invariant = { λ own. (own.index < 100)
        × ((length own.info ≡ 4)
        × (IsTrue (list_all is_info own.info)
        × (IsTrue ((length own.body.items == 8) || (length own.body.items == 16))
        × IsTrue (list_all is_data own.body.items)))) };
}

impl NewWord {
    /// The word, which borrows the data.
    pub fn word(&self) -> Word<'_>
        ensures { parts_of result ≡ self.now }
    {
        match Word::new(self.index, self.info, self.negative, self.body.as_slice()) {
            Some(word) => word,
            None => unreachable!(),
        }
    }
}

/// A word with another length, in units of 10 nm: its data are the number of the length in the word's
/// own unit, and its sign is that of the length. Zero has a plus.
pub fn with_length(word: &Word<'_>, length: i64) -> Result<NewWord, Misfit>
    ensures { result ≡ with_length length (parts_of word.now) }
{
    let [_, _, _, code] = word.info();
    match unit_of(code) {
        Some(unit) => in_unit(word, length, unit),
        None => Err(Misfit::NoUnit),
    }
}

/// A word with another length in a unit.
fn in_unit(word: &Word<'_>, own: i64, unit: Unit) -> Result<NewWord, Misfit>
    ensures { result ≡ in_unit own (parts_of word.now) (Some unit) }
{
    let body = length_data(word.width(), own, unit)?;
    Ok(NewWord {
        index: word.index(),
        info: word.info(),
        negative: own.is_negative(),
        body,
    })
}

/// A word with the other sign. A zero keeps its value.
pub fn with_other_sign<'a>(word: &Word<'a>) -> Word<'a>
    ensures { parts_of result ≡ with_other_sign (parts_of word.now) }
{
    match Word::new(word.index(), word.info(), !word.negative(), word.body()) {
        Some(word) => word,
        None => unreachable!(),
    }
}

/// A word with another name in its data, which begin with zeros where the name is short.
pub fn with_name(word: &Word<'_>, name: &Name) -> Result<NewWord, Misfit>
    ensures { result ≡ with_name name.now (parts_of word.now) }
{
    let body = name_data(word.width(), name)?;
    Ok(NewWord {
        index: word.index(),
        info: word.info(),
        negative: word.negative(),
        body,
    })
}

/// The word of a length in units of 10 nm that is added to a block of this width: in 1/100 mm, or in
/// 1/10,000 ft where the length is a whole number of these alone.
pub fn added_word(width: Width, index: u8, length: i64) -> Result<NewWord, Misfit>
    requires { index < 100 }
    ensures { result ≡ added_word width index length }
{
    if length.unsigned_abs() % 1_000 == 0 {
        added_in(width, index, length, Unit::HundredthMm)
    } else {
        added_in(width, index, length, Unit::TenMilliFoot)
    }
}

/// The word of a length in a unit.
fn added_in(width: Width, index: u8, length: i64, unit: Unit) -> Result<NewWord, Misfit>
    requires { index < 100 }
    ensures { result ≡ added_in width index length unit }
{
    let body = length_data(width, length, unit)?;
    Ok(NewWord {
        index,
        info: info_of(unit),
        negative: length.is_negative(),
        body,
    })
}
