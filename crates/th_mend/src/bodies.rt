//! The data of a word: those of a length, and those of a name.
ghost use Rattle.std.specs.Prelude.{◌≡◌, ◌≤◌, IfOk, Some, length, replicate};
ghost use Rattle.gsi_word.specs.Names.{name_of};
ghost use Rattle.gsi_word.specs.Words.{data_len, result_map};
ghost use Rattle.th_units.specs.Metres.{last_digits};
ghost use Rattle.th_mend.specs.Inside.Bodies.{IsBody};
ghost use Rattle.th_mend.specs.NewWords.{length_data, name_data};

use crate::lengths::{numbers_of, units_in};
use crate::misfits::Misfit;
use arrayvec::ArrayVec;
use gsi_word::{Name, Width};
use th_columns::last_digits;
use th_units::Unit;

/// The most bytes of data that a word has.
pub(crate) const MAX_DATA: usize = 16;

/// The data of a word.
pub(crate) type Body = ArrayVec<u8, MAX_DATA>;

/// The data of a length in a unit, in a width.
pub(crate) fn length_data(width: Width, own: i64, unit: Unit) -> Result<Body, Misfit>
    ensures body { result_map (λ body. body.items) result ≡ length_data (data_len width) own unit }
    ensures fits { IfOk result (λ body. IsBody body.items) }
{
    let size = own.unsigned_abs();
    if size % units_in(unit) != 0 {
        return Err(Misfit::NotWhole);
    }
    let number = size / units_in(unit);
    if number >= numbers_of(width) {
        return Err(Misfit::TooManyDigits);
    }
    Ok(digits(width, number))
}

/// A number in so many digits as the data of a width have bytes.
fn digits(width: Width, number: u64) -> Body
    ensures { result.items ≡ last_digits (data_len width) number }
{
    match width {
        Width::Eight => data_of(&last_digits::<8>(number)),
        Width::Sixteen => data_of(&last_digits::<16>(number)),
    }
}

/// Bytes as data.
fn data_of(bytes: &[u8]) -> Body
    requires { length bytes.now ≤ 16 }
    ensures { result.items ≡ bytes.now }
{
    let mut body = ArrayVec::new();
    let _ = body.try_extend_from_slice(bytes);
    body
}

/// The data of a name in a width.
pub(crate) fn name_data(width: Width, name: &Name) -> Result<Body, Misfit>
    ensures body { result_map (λ body. body.items) result ≡ name_data (data_len width) name.now }
    ensures reduced { name_of name.now ≡ Some name.now }
{
    let bytes = name.as_bytes();
    let size = size_of(width);
    if bytes.len() > size {
        return Err(Misfit::LongName);
    }
    let mut body = zeros(size - bytes.len());
    let _ = body.try_extend_from_slice(bytes);
    Ok(body)
}

/// So many zeros.
fn zeros(count: usize) -> Body
    requires { count ≤ 16 }
    ensures { result.items ≡ replicate count 48 }
{
    let all = [b'0'; MAX_DATA];
    data_of(&all[..count])
}

/// How many bytes of data a width has.
fn size_of(width: Width) -> usize
    ensures { result ≡ data_len width }
{
    match width {
        Width::Eight => 8,
        Width::Sixteen => 16,
    }
}
