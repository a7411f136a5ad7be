//! The blocks of a book that is printed from rows.
ghost use Rattle.std.specs.Prelude.{◌≡◌, ◌<◌, ◌≤◌, ◌++◌, OnOk, length, map, unsigned_abs};
ghost use Rattle.gsi_block.specs.Blocks.{block_parts};
ghost use Rattle.gsi_block.specs.Limits.{max_words};
ghost use Rattle.gsi_block.specs.Spelled.{AreSpelled};
ghost use Rattle.gsi_block.specs.Writing.{block_text};
ghost use Rattle.gsi_word.specs.Words.{parts_of};
ghost use Rattle.gsi_word.specs.declared.words.Width.TheVariants.{Sixteen};
ghost use Rattle.th_conversions.specs.Books.{setup_block, sight_block};
ghost use Rattle.th_conversions.specs.Limits.{max_len};

use crate::limits::HUNDREDTH;
use crate::rows::Row;
use gsi_block::{Block, write_block};
use gsi_word::laws::spelling_of_is_the_spelling;
use gsi_word::{
    HEIGHT_DIFFERENCE, INSTRUMENT_HEIGHT, Name, REFLECTOR_HEIGHT, STATION_EASTING, Word,
};
use std::alloc::AllocError;
use th_columns::last_digits;
use th_report::{number_word, padded_name, word_of};

/// Appends the line of a setup at a station, with this number in its book. An easting of zero marks
/// it, and its reflector and its instrument have the height zero.
pub(crate) fn write_setup(text: &mut Vec<u8>, number: u64, station: &Name) -> Result<(), AllocError>
    ensures { OnOk result (text.new.items
        ≡ text.old.items ++ block_text (setup_block number station.now)) }
{
    let name = padded_name(station);
    let zeros: [u8; 16] = last_digits(0);
    let block = block_of(&[
        number_word(number, &name),
        word_of(STATION_EASTING, *b"..40", false, &zeros),
        word_of(REFLECTOR_HEIGHT, *b"..48", false, &zeros),
        word_of(INSTRUMENT_HEIGHT, *b"..48", false, &zeros),
    ]);
    write_block(&block, text)
}

/// Appends the line of the sight of a row, with this number in its book.
pub(crate) fn write_sight(text: &mut Vec<u8>, number: u64, row: &Row) -> Result<(), AllocError>
    requires { unsigned_abs row.now.difference ≤ max_len }
    ensures { OnOk result (text.new.items
        ≡ text.old.items ++ block_text (sight_block number row.now)) }
{
    let name = padded_name(&row.to);
    let digits: [u8; 16] = last_digits(row.difference.unsigned_abs() / HUNDREDTH);
    let block = block_of(&[
        number_word(number, &name),
        word_of(
            HEIGHT_DIFFERENCE,
            *b"..48",
            row.difference.is_negative(),
            &digits,
        ),
    ]);
    write_block(&block, text)
}

/// The block of some words of GSI-16.
fn block_of<'a>(words: &[Word<'a>]) -> Block<'a>
    requires some { 0 < length words.now }
    requires few { length words.now ≤ max_words }
    requires spelled { AreSpelled Sixteen (map parts_of words.now) }
    ensures { block_parts result ≡ record { width = Sixteen; words = map parts_of words.now } }
{
    spelling_of_is_the_spelling();
    match Block::of(words) {
        Some(block) => block,
        None => unreachable!(),
    }
}
