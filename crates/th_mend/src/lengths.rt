//! A length as the number of its units: how many of them a word can write, and the code of the unit.
ghost use Rattle.std.specs.Prelude.{◌≡◌, ◌<◌, ◌^◌, IsTrue};
ghost use Rattle.std.specs.List.{list_all};
ghost use Rattle.gsi_word.specs.Bytes.{is_info};
ghost use Rattle.gsi_word.specs.Words.{data_len};
ghost use Rattle.th_units.specs.Units.{step};
ghost use Rattle.th_mend.specs.NewWords.{info_of};

use gsi_word::Width;
use th_units::{Unit, step};

/// How many units of 10 nm a unit has.
pub fn units_in(unit: Unit) -> u64
    ensures value { result ≡ step unit }
    ensures some { 0 < result }
{
    step(unit).unsigned_abs()
}

/// How many numbers the data of a word can write.
pub fn numbers_of(width: Width) -> u64
    ensures { result ≡ 10 ^ data_len width }
{
    match width {
        Width::Eight => 100_000_000,
        Width::Sixteen => 10_000_000_000_000_000,
    }
}

/// The information of a word that is written in a unit: calculated (mode 4), and the unit's code.
pub fn info_of(unit: Unit) -> [u8; 4]
    ensures value { result ≡ info_of unit }
    ensures allowed { IsTrue (list_all is_info result) }
{
    match unit {
        Unit::TenMilliFoot => *b"..47",
        _ => *b"..48",
    }
}
