//! Heights as GSI-16 blocks.
ghost use Rattle.std.specs.Prelude.{◌≡◌, ◌<◌, ◌∷◌, ◌++◌, [], IfOk, OnOk, codes, false, true, unsigned_abs};
ghost use Rattle.std.specs.List.{list_all};
ghost use Rattle.gsi_block.specs.Blocks.{block_parts};
ghost use Rattle.gsi_word.specs.Bytes.{is_data};
ghost use Rattle.gsi_word.specs.Indexes.{point_number, target_height};
ghost use Rattle.gsi_word.specs.Words.{Spells, parts, parts_of, spelling_of};
ghost use Rattle.gsi_word.specs.declared.words.Width.TheVariants.{Sixteen};
ghost use Rattle.th_network.specs.Limits.{height_limit};
ghost use Rattle.th_network.specs.Heights.{heights_at};
ghost use Rattle.th_network.specs.Networks.{AreAtPoints, points_of};
ghost use Rattle.th_units.specs.Metres.{last_digits};
ghost use Rattle.th_report.specs.Gsi.{gsi_text, has_minus, hundredths, padded_name, point_text};

use gsi_block::{Block, write_block};
use gsi_word::{Name, POINT_NUMBER, TARGET_HEIGHT, Word};
use std::alloc::{AllocError, Global};
use th_columns::last_digits;
use th_network::Network;

/// A GSI-16 block for each point of a network. Word 11 has the point's number from 1 and its name.
/// Word 83 has the height in 1/100 mm, rounded to the nearest, halves away from zero. Heights are
/// in point order and in units of 10 nm.
///
/// The name is read back from its word; no height is written as minus zero.
pub fn heights_gsi(alloc: Global, network: &Network, heights: &[i64]) -> Result<Vec<u8>, AllocError>
    requires { AreAtPoints network.now heights.now }
    ensures { IfOk result (λ text. text.items ≡ gsi_text network.now
        (heights_at (points_of network.now) heights.now)) }
{
    let mut text = Vec::new(alloc);
    for (k, name) in network.points().iter().enumerate() {
        write_point(&mut text, k as u64 + 1, name, heights[k])?;
    }
    Ok(text)
}

/// Appends the line of a point.
fn write_point(text: &mut Vec<u8>, number: u64, name: &Name, height: i64) -> Result<(), AllocError>
    requires { unsigned_abs height < height_limit }
    ensures { OnOk result (text.new.items ≡ text.old.items ++ point_text number name.now height) }
{
    let padded = padded_name(name);
    let digits = last_digits(hundredths(height));
    let block = block_of(
        &number_word(number, &padded),
        &height_word(has_minus(height), &digits),
    );
    write_block(&block, text)
}

/// The block of two words of GSI-16.
fn block_of<'a>(first: &Word<'a>, second: &Word<'a>) -> Block<'a>
    requires first { Spells (parts_of first.now) (spelling_of (parts_of first.now)) Sixteen }
    requires second { Spells (parts_of second.now) (spelling_of (parts_of second.now)) Sixteen }
    ensures { block_parts result ≡ record {
      width = Sixteen;
      words = parts_of first.now ∷ parts_of second.now ∷ [];
    } }
{
    match Block::of(&[*first, *second]) {
        Some(block) => block,
        None => unreachable!(),
    }
}

/// The word with these parts, which is spelled in GSI-16.
pub fn word_of<'a>(index: u8, info: [u8; 4], negative: bool, body: &'a [u8]) -> Word<'a>
    requires { let word = parts index info negative body.now in
        Spells word (spelling_of word) Sixteen }
    ensures parts { parts_of result ≡ parts index info negative body.now }
    ensures spelled { Spells (parts_of result) (spelling_of (parts_of result)) Sixteen }
{
    match Word::new(index, info, negative, body) {
        Some(word) => word,
        None => unreachable!(),
    }
}

/// The word 11 of a point's number and of its name in 16 bytes.
pub fn number_word<'a>(number: u64, name: &'a [u8; 16]) -> Word<'a>
    requires { list_all is_data name.now ≡ true }
    ensures parts { parts_of result ≡ parts point_number (last_digits 4 number) false name.now }
    ensures spelled { Spells (parts_of result) (spelling_of (parts_of result)) Sixteen }
{
    word_of(POINT_NUMBER, last_digits(number), false, name)
}

/// The word 83 of a height in 1/100 mm.
fn height_word<'a>(negative: bool, digits: &'a [u8; 16]) -> Word<'a>
    requires { list_all is_data digits.now ≡ true }
    ensures parts { parts_of result ≡ parts target_height (codes "..48") negative digits.now }
    ensures spelled { Spells (parts_of result) (spelling_of (parts_of result)) Sixteen }
{
    word_of(TARGET_HEIGHT, *b"..48", negative, digits)
}

/// A name with zeros before it, in the data of a word.
pub fn padded_name(name: &Name) -> [u8; 16]
    ensures value { result ≡ padded_name name.now }
    ensures data { list_all is_data result ≡ true }
{
    let bytes = name.as_bytes();
    let mut data = [b'0'; 16];
    data[16 - bytes.len()..].copy_from_slice(bytes);
    data
}

/// The size of a height in 1/100 mm.
fn hundredths(height: i64) -> u64
    requires { unsigned_abs height < height_limit }
    ensures { result ≡ hundredths height }
{
    (height.unsigned_abs() + 500) / 1000
}

/// Whether a height is below zero and is not rounded to zero.
fn has_minus(height: i64) -> bool
    requires { unsigned_abs height < height_limit }
    ensures { result ≡ has_minus height }
{
    height < 0 && hundredths(height) != 0
}
