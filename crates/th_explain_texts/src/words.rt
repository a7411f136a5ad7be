//! Kinds of numbers, and the words for them.
ghost use Rattle.std.specs.Prelude.{◌≡◌};
ghost use Rattle.th_explain_texts.specs.Words.{is_pole, is_sight, kind_word, since_mark, word_index};

use crate::rows::Kind;
use th_entries::HeightKind;

/// The name of a kind.
pub(crate) fn kind_word(kind: &Kind) -> &[u8]
    ensures { result.now ≡ kind_word kind.now }
{
    match kind {
        Kind::Instrument => b"instrument",
        Kind::Reflector => b"reflector",
        Kind::InstrumentSince => b"instrument since",
        Kind::ReflectorSince => b"reflector since",
        Kind::Sight => b"sight",
        Kind::Benchmark => b"benchmark",
        Kind::Book => b"book",
    }
}

/// The index of the word that a number is; none for a sight and a benchmark.
pub(crate) fn word_index(kind: &Kind) -> &[u8]
    ensures { result.now ≡ word_index kind.now }
{
    match kind {
        Kind::Instrument => b"88",
        Kind::Reflector => b"87",
        Kind::InstrumentSince => b"88",
        Kind::ReflectorSince => b"87",
        Kind::Sight => b"",
        Kind::Benchmark => b"",
        Kind::Book => b"33",
    }
}

/// What follows the line of a change that was forgotten.
pub(crate) fn since_mark(kind: &Kind) -> &[u8]
    ensures { result.now ≡ since_mark kind.now }
{
    match kind {
        Kind::Instrument => b"",
        Kind::Reflector => b"",
        Kind::InstrumentSince => b"  since",
        Kind::ReflectorSince => b"  since",
        Kind::Sight => b"",
        Kind::Benchmark => b"",
        Kind::Book => b"",
    }
}

/// Whether a number is the difference of a sight.
pub fn is_sight(kind: &Kind) -> bool
    ensures { result ≡ is_sight kind.now }
{
    match kind {
        Kind::Instrument => false,
        Kind::Reflector => false,
        Kind::InstrumentSince => false,
        Kind::ReflectorSince => false,
        Kind::Sight => true,
        Kind::Benchmark => false,
        Kind::Book => false,
    }
}

/// Whether a height is that of the reflector.
pub fn is_pole(height: HeightKind) -> bool
    ensures { result ≡ is_pole height }
{
    match height {
        HeightKind::Reflector => true,
        HeightKind::Instrument => false,
    }
}
