//! The units of a book's lengths: the code of each, and its size in units of 10 nm.
ghost use Rattle.std.specs.Prelude.{◌≡◌, pos};
ghost use Rattle.th_units.specs.Units.{step, unit_of};

/// The unit of the last digit of a book's length.
///
/// The codes are those of the Leica GSI Online manual, position 6 of a data word. Feet are
/// international feet of 0.3048 m; codes of other units have no meaning here.
#[derive(Clone, Copy, Debug, PartialEq, Eq)]
pub enum Unit {
    /// A millimetre.
    Mm,
    /// A thousandth of a foot.
    MilliFoot,
    /// A tenth of a millimetre.
    TenthMm,
    /// A ten-thousandth of a foot.
    TenMilliFoot,
    /// A hundredth of a millimetre.
    HundredthMm,
}

/// The unit with this ASCII character as its code, if there is one.
pub fn unit_of(code: u8) -> Option<Unit>
    ensures { result ≡ unit_of code }
{
    match code {
        b'0' => Some(Unit::Mm),
        b'1' => Some(Unit::MilliFoot),
        b'6' => Some(Unit::TenthMm),
        b'7' => Some(Unit::TenMilliFoot),
        b'8' => Some(Unit::HundredthMm),
        _ => None,
    }
}

/// The length of one unit, in units of 10 nm.
pub fn step(unit: Unit) -> i64
    ensures { result ≡ pos (step unit) }
{
    match unit {
        Unit::Mm => 100_000,
        Unit::MilliFoot => 30_480,
        Unit::TenthMm => 10_000,
        Unit::TenMilliFoot => 3_048,
        Unit::HundredthMm => 1_000,
    }
}
