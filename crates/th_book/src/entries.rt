//! What a block enters into its book, by its counting words, or why it is refused.
ghost use Rattle.std.specs.Prelude.{◌≡◌, ◌||◌, true, None, Some, map, option_and_then, IfErr, IfOk};
ghost use Rattle.std.specs.Result.{result_err, result_ok};
ghost use Rattle.gsi_word.specs.Words.{parts_of};
ghost use Rattle.th_book.specs.Lines.{point_name};
ghost use Rattle.th_book.specs.Faults.{begins_with_point, first_applying, own_faults, point_faults};

use crate::countings::Counted;
use crate::faults::BookKind;
use gsi_word::{LengthFault, Name, POINT_NUMBER, Word};
use th_units::Len;

/// What a block enters into its book: the station of a setup, the target of a sight, and the lengths
/// that it writes.
#[derive(Clone, Copy, Debug)]
pub struct Entered {
    pub sighted: Option<Len>,
    pub reflector: Option<Len>,
    pub instrument: Option<Len>,
    pub station: Option<Name>,
    pub target: Option<Name>,
}

impl Entered {
    ghost use Rattle.th_book.specs.Entered.{entered_by, nothing};
    ghost use Rattle.th_book.specs.Inside.Countings.{counted_in, lengths_with};

    /// What a blank line enters, and a block of which no word counts.
    #[inline(always)]
    pub(crate) fn nothing() -> Entered
        ensures { result ≡ nothing }
    {
        Entered {
            sighted: None,
            reflector: None,
            instrument: None,
            station: None,
            target: None,
        }
    }

    // Not inlined: readers with different witnesses call it.
    /// What a block enters, by what its words count, or the first kind of fault that they have.
    #[inline(never)]
    pub(crate) fn of(counted: &Counted, words: &[Word<'_>]) -> Result<Entered, BookKind>
        requires { counted.now ≡ counted_in (map parts_of words.now) }
        ensures fault { result_err result ≡ first_applying (own_faults (map parts_of words.now)) }
        ensures entry { IfOk result (λ entry. entry ≡ entered_by (map parts_of words.now)) }
    {
        if counted.repeated {
            return Err(BookKind::RepeatedWord);
        }
        let is_sight = counted.is_sight();
        let is_setup = counted.is_setup();
        let named = is_sight | is_setup;
        if !named {
            counted.check_lengths()?;
            return Ok(Entered::with_names(counted, None, None));
        }
        let point = point_name(words);
        check_point(&point, words)?;
        counted.check_lengths()?;
        let station = if is_setup { point } else { None };
        let target = if is_sight { point } else { None };
        Ok(Entered::with_names(counted, station, target))
    }

    /// The lengths that were counted, beside the names that a block enters.
    #[inline(always)]
    fn with_names(counted: &Counted, station: Option<Name>, target: Option<Name>) -> Entered
        ensures { result ≡ lengths_with station target counted.now }
    {
        Entered {
            station,
            target,
            sighted: readable(counted.sighted),
            reflector: readable(counted.reflector),
            instrument: readable(counted.instrument),
        }
    }
}

/// The length of a word that counts, if there is one and its length can be read.
fn readable(length: Option<Result<Len, LengthFault>>) -> Option<Len>
    ensures { result ≡ option_and_then result_ok length }
{
    match length {
        Some(Ok(length)) => Some(length),
        _ => None,
    }
}

/// The name of the point that a block begins with, where its first word gives one.
fn point_name(words: &[Word<'_>]) -> Option<Name>
    ensures { result ≡ point_name (map parts_of words.now) }
{
    match words.first() {
        Some(word) => word.name(),
        None => None,
    }
}

/// Refuses a block that does not begin with a named point.
fn check_point(point: &Option<Name>, words: &[Word<'_>]) -> Result<(), BookKind>
    requires { point.now ≡ point_name (map parts_of words.now) }
    ensures { result_err result ≡ first_applying (point_faults true (map parts_of words.now)) }
{
    match words.first() {
        Some(word) if word.index() == POINT_NUMBER => {}
        _ => return Err(BookKind::NoPointNumber),
    }
    if point.is_none() {
        return Err(BookKind::BadName);
    }
    Ok(())
}
