//! The words for kinds of heights, and for kinds of numbers.
ghost use Rattle.std.specs.Prelude.{◌≡◌};
ghost use Rattle.th_html.specs.Words.{entry_words, number_words};

use th_entries::HeightKind;
use th_explain_texts::Kind;

/// Which height an entry gives.
pub fn entry_words(kind: &HeightKind) -> &[u8]
    ensures { result.now ≡ entry_words kind.now }
{
    match kind {
        HeightKind::Reflector => b"reflector",
        HeightKind::Instrument => b"instrument",
    }
}

/// Which number explains.
pub(crate) fn number_words(kind: &Kind) -> &[u8]
    ensures { result.now ≡ number_words kind.now }
{
    match kind {
        Kind::Instrument => b"instrument height",
        Kind::Reflector => b"reflector height",
        Kind::InstrumentSince => b"instrument height since",
        Kind::ReflectorSince => b"reflector height since",
        Kind::Sight => b"sight",
        Kind::Benchmark => b"benchmark",
        Kind::Book => b"word 33 of the book",
    }
}
