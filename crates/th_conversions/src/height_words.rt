//! The words that a height sight gets.
ghost use Rattle.std.specs.Prelude.{◌≡◌, ◌<◌};
ghost use Rattle.gsi_word.specs.Words.{data_len, parts_of};

use crate::height_faults::HeightKind;
use gsi_word::{Width, Word};
use std::marker::Model;
use th_columns::last_digits;
use th_mend::{info_of, numbers_of, units_in};
use th_units::{MAX_LEN, Unit};

/// A length as a word writes it: its sign, and its number in a unit, in the data of each width.
#[derive(Drop)]
pub(crate) struct Written {
    unit: Unit,
    length: i64,
    narrow: [u8; 8],
    wide: [u8; 16],
}

impl Model for Written {
    ghost use Rattle.std.specs.Prelude.{◌≡◌, ◌/◌, unsigned_abs};
    ghost use Rattle.th_units.specs.Metres.{last_digits};
    ghost use Rattle.th_units.specs.Units.{step};
    ghost use Rattle.th_conversions.specs.Words.{Written};

    ghost Value = { Written };

    ghost view = { λ own. record { unit = own.unit; length = own.length } };

    ghost invariant = { λ own. (own.narrow ≡ last_digits 8 (unsigned_abs own.length / step own.unit))
        × (own.wide ≡ last_digits 16 (unsigned_abs own.length / step own.unit)) };
}

impl Written {
    ghost use Rattle.std.specs.Int.{is_negative};
    ghost use Rattle.th_units.specs.Metres.{last_digits};
    ghost use Rattle.th_conversions.specs.Words.{if_room, number_of, word_of, written_of, zero_height};

    /// A length of zero, in 1/100 mm.
    pub(crate) fn zero() -> Written
        ensures { result ≡ zero_height }
    {
        Written::in_unit(0, Unit::HundredthMm)
    }

    /// A length in 1/100 mm, or in 1/10,000 ft where it is no whole number of these. `NoUnit` if it
    /// is no whole number of either, `FarTarget` if it is more than 10 km in size, or if its number
    /// has more digits than a word of this width.
    pub(crate) fn of(width: Width, length: i64) -> Result<Written, HeightKind>
        ensures { result ≡ written_of width length }
    {
        let size = length.unsigned_abs();
        if size % units_in(Unit::HundredthMm) == 0 {
            Written::if_room(width, length, Unit::HundredthMm)
        } else if size % units_in(Unit::TenMilliFoot) == 0 {
            Written::if_room(width, length, Unit::TenMilliFoot)
        } else {
            Err(HeightKind::NoUnit)
        }
    }

    /// A length in a unit, if it is at most 10 km and its number has room.
    fn if_room(width: Width, length: i64, unit: Unit) -> Result<Written, HeightKind>
        ensures { result ≡ if_room width (record { unit = unit; length = length }) }
    {
        let size = length.unsigned_abs();
        if size > MAX_LEN || size / units_in(unit) >= numbers_of(width) {
            return Err(HeightKind::FarTarget);
        }
        Ok(Written::in_unit(length, unit))
    }

    /// A length in a unit.
    fn in_unit(length: i64, unit: Unit) -> Written
        ensures { result ≡ record { unit = unit; length = length } }
    {
        let number = length.unsigned_abs() / units_in(unit);
        Written {
            unit,
            length,
            narrow: last_digits(number),
            wide: last_digits(number),
        }
    }

    /// The word of this index, in a width.
    pub(crate) fn word(&self, width: Width, index: u8) -> Word<'_>
        requires { index < 100 }
        ensures { parts_of result ≡ word_of width index self.now }
    {
        match Word::new(
            index,
            info_of(self.unit),
            self.is_negative(),
            self.digits(width),
        ) {
            Some(word) => word,
            None => unreachable!(),
        }
    }

    /// Whether the length is below zero.
    fn is_negative(&self) -> bool
        ensures { result ≡ is_negative self.now.length }
    {
        self.length.is_negative()
    }

    /// The digits of the number, in the data of a width.
    fn digits(&self, width: Width) -> &[u8]
        ensures { result.now ≡ last_digits (data_len width) (number_of self.now) }
    {
        match width {
            Width::Eight => &self.narrow,
            Width::Sixteen => &self.wide,
        }
    }
}
