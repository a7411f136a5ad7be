//! The words and marks of a review.
ghost use Rattle.std.specs.Prelude.{◌≡◌};
ghost use Rattle.th_review_rows.specs.Words.{benchmark_mark, benchmark_word, blamed_of, blames_of, kind_word, mistake_mark, mistake_word, moves_of, number_or_dash, point_mark, shared_mistake_mark, shared_mistake_word};

use itoa::Buffer;
use th_entries::HeightKind;
use th_reliability::{Blame, Mistake, SharedMistake};

/// The word for what a mistake in an observation would do.
pub fn mistake_word(mistake: &Mistake) -> &[u8]
    ensures { result.now ≡ mistake_word mistake.now }
{
    match mistake {
        Mistake::Shows => b"shows",
        Mistake::Ties => b"ties",
        Mistake::Hides => b"hides",
        Mistake::Unchecked => b"unchecked",
    }
}

/// The word for what a mistake in an entry would do.
pub fn shared_mistake_word(mistake: &SharedMistake) -> &[u8]
    ensures { result.now ≡ shared_mistake_word mistake.now }
{
    match mistake {
        SharedMistake::Shows => b"shows",
        SharedMistake::Ties => b"ties",
        SharedMistake::Drags => b"drags",
        SharedMistake::Unchecked => b"unchecked",
    }
}

/// The index of the word that gives a height of this kind.
pub fn kind_word(kind: &HeightKind) -> &[u8]
    ensures { result.now ≡ kind_word kind.now }
{
    match kind {
        HeightKind::Reflector => b"87",
        HeightKind::Instrument => b"88",
    }
}

/// The mark of an observation.
pub fn mistake_mark(mistake: &Mistake) -> &[u8]
    ensures { result.now ≡ mistake_mark mistake.now }
{
    match mistake {
        Mistake::Shows => b"",
        Mistake::Ties => b"  =",
        Mistake::Hides => b"  <",
        Mistake::Unchecked => b"  0",
    }
}

/// The mark of an entry.
pub fn shared_mistake_mark(mistake: &SharedMistake) -> &[u8]
    ensures { result.now ≡ shared_mistake_mark mistake.now }
{
    match mistake {
        SharedMistake::Shows => b"",
        SharedMistake::Ties => b"  =",
        SharedMistake::Drags => b"  <",
        SharedMistake::Unchecked => b"  0",
    }
}

/// The word for what a wrong height of a benchmark would do; nothing if no observation has an end there.
pub fn benchmark_word(mistake: &Option<SharedMistake>) -> &[u8]
    ensures { result.now ≡ benchmark_word mistake.now }
{
    match mistake {
        Some(mistake) => shared_mistake_word(mistake),
        None => b"",
    }
}

/// The mark of a benchmark.
pub fn benchmark_mark(mistake: &Option<SharedMistake>) -> &[u8]
    ensures { result.now ≡ benchmark_mark mistake.now }
{
    match mistake {
        Some(mistake) => shared_mistake_mark(mistake),
        None => b"",
    }
}

/// The mark of a point: whether one observation alone holds it, and whether its best heights differ.
pub fn point_mark(alone: bool, differ: bool) -> &'static [u8]
    ensures { result.now ≡ point_mark alone differ }
{
    match (alone, differ) {
        (true, true) => b"  1=",
        (true, false) => b"  1",
        (false, true) => b"  =",
        (false, false) => b"",
    }
}

/// The digits of a number, and a dash where there is none.
pub fn number_or_dash(digits: &mut Buffer, number: Option<u32>) -> &[u8]
    ensures { result.now ≡ number_or_dash number }
{
    match number {
        Some(number) => digits.format(number).as_bytes(),
        None => b"-",
    }
}

/// The digits of a count, and a dash where there is none.
pub fn count_or_dash(digits: &mut Buffer, count: Option<usize>) -> &[u8]
    ensures { result.now ≡ number_or_dash count }
{
    match count {
        Some(count) => digits.format(count).as_bytes(),
        None => b"-",
    }
}

/// How many points a mistake would move; `None` if it shows.
pub fn moves_of(blame: Option<Blame>) -> Option<usize>
    ensures { result ≡ moves_of blame }
{
    match blame {
        Some(blame) => Some(blame.moves),
        None => None,
    }
}

/// How many observations would be blamed for a mistake; `None` if it shows.
pub fn blames_of(blame: Option<Blame>) -> Option<usize>
    ensures { result ≡ blames_of blame }
{
    match blame {
        Some(blame) => Some(blame.blames),
        None => None,
    }
}

/// The number of the heaviest of these; `None` if there is none, or the mistake shows.
pub fn blamed_of(blame: Option<Blame>) -> Option<usize>
    ensures { result ≡ blamed_of blame }
{
    match blame {
        Some(blame) => blame.blamed,
        None => None,
    }
}
