//! Words that a book may have in place of sights, and which of them its blocks have.
ghost use Rattle.std.specs.Prelude.{◌≡◌, false, map};
ghost use Rattle.std.specs.List.{list_any};
ghost use Rattle.gsi_word.specs.Words.{parts_of};
ghost use Rattle.th_entries.specs.Inside.Watches.{with_words};
ghost use Rattle.th_entries.specs.Words.{has, is_numbered, is_one_of, measured, number_of};

use gsi_word::Word;

/// How many words tell what a book has in place of sights.
pub const MEASURED_WORDS: usize = 14;

/// The numbers of these words: a vertical angle, a slope and a horizontal distance, the height of the
/// target, and the readings of a digital level (Leica GSI Online manual, table of word indexes).
pub const MEASURED: [u16; MEASURED_WORDS] = [
    22, 31, 32, 83, 330, 331, 332, 333, 334, 335, 336, 337, 338, 339,
];

/// The number of a word: two digits where position 3 is a dot, or else three.
fn number_of(word: &Word<'_>) -> Option<u16>
    ensures { result ≡ number_of (parts_of word.now) }
{
    let index = u16::from(word.index());
    let [third, ..] = word.info();
    match third {
        b'.' => Some(index),
        b'0'..=b'9' => Some(index * 10 + u16::from(third - b'0')),
        _ => None,
    }
}

/// Whether a word has a number.
fn is_numbered(word: &Word<'_>, number: u16) -> bool
    ensures { result ≡ is_numbered number (parts_of word.now) }
{
    match number_of(word) {
        Some(own) => own == number,
        None => false,
    }
}

/// Whether one of some words has a number.
fn has(words: &[Word<'_>], number: u16) -> bool
    ensures { result ≡ has number (map parts_of words.now) }
{
    let mut found = false;
    for word in words {
        found = found | is_numbered(word, number);
    }
    found
}

/// Whether a word may have one of the numbers `MEASURED`, by its index alone: a number of two digits is an
/// index, and one of three begins with one, as `022` and `330` do.
fn may_be_measured(word: &Word<'_>) -> bool
    ensures { result ≡ false → is_one_of measured (parts_of word.now) ≡ false }
{
    let index = word.index();
    if index > 33 {
        return index == 83;
    }
    matches!(index, 2 | 3 | 8 | 22 | 31 | 32 | 33)
}

/// Whether one of some words may have one of the numbers `MEASURED`.
fn may_measure(words: &[Word<'_>]) -> bool
    ensures { result ≡ false → list_any (is_one_of measured) (map parts_of words.now) ≡ false }
{
    for word in words {
        if may_be_measured(word) {
            return true;
        }
    }
    false
}

/// Notes which of the numbers `MEASURED` the words of a block have. Most blocks of a book that has them
/// at all have none: those are passed by in one look.
pub(crate) fn see_measured(seen: &mut [bool], words: &[Word<'_>])
    ensures { seen.new ≡ with_words (map parts_of words.now) seen.old measured }
{
    if may_measure(words) {
        see(seen, &MEASURED, words);
    }
}

// Not inlined, so that a block is passed by in few steps.
/// Notes which of some numbers the words of a block have.
#[inline(never)]
fn see(seen: &mut [bool], numbers: &[u16], words: &[Word<'_>])
    ensures { seen.new ≡ with_words (map parts_of words.now) seen.old numbers.now }
{
    let Some((own, later)) = seen.split_first_mut() else {
        return;
    };
    let Some((number, rest)) = numbers.split_first() else {
        return;
    };
    *own = *own | has(words, *number);
    see(later, rest, words);
}
