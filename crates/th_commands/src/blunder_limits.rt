//! The limit of blunders, given in millimetres or micrometres, and kept within its range in units of 10 nm.
ghost use Rattle.std.specs.Prelude.{◌≡◌, ◌<◌, ◌*◌, option_map};
ghost use Rattle.th_commands.specs.BlunderLimits.{before_end, limit_from, limit_in_micrometres, limit_in_unit, limit_of, limit_with_unit};

use crate::limits::{DEFAULT_BLUNDER, MAX_BLUNDER};
use std::marker::Model;

/// The units of 10 nm in a micrometre.
const UNITS_IN_MICROMETRE: i64 = 100;

/// The micrometres in a millimetre.
const MICROMETRES_IN_MILLIMETRE: u32 = 1_000;

/// The size above which a residual is reported as a blunder, in units of 10 nm: from 0 to that of
/// `MAX_BLUNDER`.
#[derive(Clone, Copy, Debug, PartialEq, Eq)]
pub struct Limit {
    units: i64,
}

impl Model for Limit {
    ghost use Rattle.std.specs.Prelude.{ℤ, ◌≤ℤ◌, ◌*◌, pos};
    ghost use Rattle.th_commands.specs.PlanLimits.{max_blunder, units_in_micrometre};

    ghost Value = { ℤ };

    ghost view = { λ limit. limit.units };

    ghost invariant = { λ limit. (pos 0 ≤ℤ limit.units)
        × (limit.units ≤ℤ pos (units_in_micrometre * max_blunder)) };

    ghost inverse = { λ units. record { units = units } };
}

impl Limit {
    ghost use Rattle.std.specs.Prelude.{◌≤ℤ◌, ◌*◌, pos};
    ghost use Rattle.th_commands.specs.PlanLimits.{max_blunder, units_in_micrometre};

    /// The limit of this many micrometres; `None` above `MAX_BLUNDER`.
    pub fn of_micrometres(micrometres: u32) -> Option<Limit>
        ensures { result ≡ limit_of micrometres }
    {
        if micrometres > MAX_BLUNDER {
            return None;
        }
        Some(Limit {
            units: UNITS_IN_MICROMETRE * i64::from(micrometres),
        })
    }

    /// The limit of two options, given their texts: one with its unit, and one in micrometres. `None` if both
    /// are there, or if the text is no limit.
    pub(crate) fn of_options(with_unit: Option<&str>, micrometres: Option<&str>) -> Option<Limit>
        ensures { result ≡ limit_from (option_map (λ text. text.now) with_unit.entry)
            (option_map (λ text. text.now) micrometres.entry) }
    {
        match (with_unit, micrometres) {
            (None, None) => Limit::of_micrometres(DEFAULT_BLUNDER),
            (Some(text), None) => limit_with_unit(text),
            (None, Some(text)) => limit_in_unit(1, text),
            (Some(_), Some(_)) => None,
        }
    }

    /// The limit in units of 10 nm.
    pub fn get(self) -> i64
        ensures value { result ≡ self }
        ensures not_below_zero { pos 0 ≤ℤ result }
        ensures in_range { result ≤ℤ pos (units_in_micrometre * max_blunder) }
    {
        self.units
    }
}

/// A limit with its unit: whole millimetres or whole micrometres, as `5mm` or `500um`.
fn limit_with_unit(text: &str) -> Option<Limit>
    ensures { result ≡ limit_with_unit text.now }
{
    match before_end("mm", text) {
        Some(number) => limit_in_unit(MICROMETRES_IN_MILLIMETRE, number),
        None => limit_in_micrometres(text),
    }
}

/// A limit in whole micrometres, with this unit.
fn limit_in_micrometres(text: &str) -> Option<Limit>
    ensures { result ≡ limit_in_micrometres text.now }
{
    limit_in_unit(1, before_end("um", text)?)
}

/// A limit that a text gives as a number of a unit, which has so many micrometres.
fn limit_in_unit(unit: u32, number: &str) -> Option<Limit>
    requires { 0 < unit }
    ensures { result ≡ limit_in_unit unit number.now }
{
    match number.parse::<u32>() {
        Ok(count) => limit_of_count(unit, count),
        Err(_) => None,
    }
}

/// A limit of so many of a unit, which has so many micrometres.
fn limit_of_count(unit: u32, count: u32) -> Option<Limit>
    ensures { result ≡ limit_of (unit * count) }
{
    match unit.checked_mul(count) {
        Some(micrometres) => Limit::of_micrometres(micrometres),
        None => None,
    }
}

/// What a text has before this end, if it ends so.
fn before_end<'a>(end: &str, text: &'a str) -> Option<&'a str>
    ensures { option_map (λ own. own.now) result ≡ before_end end.now text.entry.now }
{
    text.strip_suffix(end)
}
