//! Help against the faults of books.
ghost use Rattle.std.specs.Prelude.{◌≡◌};
ghost use Rattle.th_messages.specs.Books.{block_help, book_help, converted_help, fault_help, first_line_help, first_word_help, heights_help, word_help};

use gsi_block::BlockFault;
use gsi_word::WordFault;
use th_book::{BookFault, BookKind};
use th_conversions::HeightKind;

/// What helps against a fault of a book, in its line.
pub fn fault_help(fault: &BookFault) -> &'static str
    ensures { result.now ≡ fault_help fault.now }
{
    if fault.line == 1 {
        first_line_help(fault.kind)
    } else {
        book_help(fault.kind)
    }
}

/// What helps against a fault of the first line of a book.
fn first_line_help(kind: BookKind) -> &'static str
    ensures { result.now ≡ first_line_help kind }
{
    match kind {
        BookKind::Block(BlockFault::BadWord(1, fault)) => first_word_help(fault),
        other => book_help(other),
    }
}

/// What helps against a bad first word of a book.
fn first_word_help(fault: WordFault) -> &'static str
    ensures { result.now ≡ first_word_help fault }
{
    match fault {
        WordFault::Short | WordFault::BadIndex =>
            "this is no GSI book: no zip, XML, table or UTF-16, and nothing before the first word, as a byte order mark, quotes or a blank",
        other => word_help(1, other),
    }
}

/// What helps against a fault of a book.
pub fn book_help(kind: BookKind) -> &'static str
    ensures { result.now ≡ book_help kind }
{
    match kind {
        BookKind::Block(fault) => block_help(fault),
        BookKind::RepeatedWord => "the line has two words 33, 84, 85, 86, 87 or 88",
        BookKind::NoPointNumber => "the line of a station or of a sight begins with word 11",
        BookKind::BadName => "word 11 has a name of 1 to 16 characters",
        BookKind::BadNumber => "words 33, 87 and 88 have nothing but digits behind the sign",
        BookKind::BadUnit => "position 6 of words 33, 87 and 88 is 0, 1, 6, 7 or 8",
        BookKind::TooLarge => "words 33, 87 and 88 are at most 10 km",
        BookKind::SightBeforeSetup =>
            "before its sights comes a station line: word 11, and 84, 85 or 86",
        BookKind::NoInstrumentHeight => "the station line needs word 88, the instrument height",
        BookKind::NoReflectorHeight =>
            "the recording mask needs word 87, the pole height, in the station line or in each sight",
        BookKind::SightToItself =>
            "the sight has the name of its own station: one of the two names is wrong",
        BookKind::BookTooLong => "a book has at most 64 MiB",
        BookKind::NoMemory => "this is no fault of the book",
    }
}

/// What helps against a fault of a book with heights, which `book --heights` converts.
pub fn heights_help(kind: HeightKind) -> &'static str
    ensures { result.now ≡ heights_help kind }
{
    match kind {
        HeightKind::Book(kind) => converted_help(kind),
        HeightKind::HasDifference => "a book with words 33 needs no conversion",
        HeightKind::NoUnit => "words 83, 86, 87 and 88 are all metric, or all in feet",
        HeightKind::FarTarget => "a word 33 is at most 10 km, and in GSI-8 it has room for 1 km",
        HeightKind::NoStationHeight => "the station line needs word 86, the height of the station",
    }
}

/// What helps against a fault of a book that is converted, if other books may have it too.
fn converted_help(kind: BookKind) -> &'static str
    ensures { result.now ≡ converted_help kind }
{
    match kind {
        BookKind::Block(BlockFault::TooManyWords) =>
            "a line has at most 64 words, and a sight gets up to three more",
        BookKind::RepeatedWord => "a line has one word each of 83, 84, 85, 86, 87 and 88",
        BookKind::BadNumber => "words 83, 86, 87 and 88 have nothing but digits behind the sign",
        BookKind::BadUnit => "position 6 of words 83, 86, 87 and 88 is 0, 1, 6, 7 or 8",
        BookKind::TooLarge => "words 83, 86, 87 and 88 are at most 10 km",
        other => book_help(other),
    }
}

/// What helps against a line that is no block.
fn block_help(fault: BlockFault) -> &'static str
    ensures { result.now ≡ block_help fault }
{
    match fault {
        BlockFault::BadWord(number, fault) => word_help(number, fault),
        BlockFault::TooManyWords => "a line has at most 64 words",
        BlockFault::LineTooLong =>
            "a line has at most 1,600 bytes: the file is no book, or its line ends are lost",
        BlockFault::BadSeparator(_) =>
            "a line of GSI-16 words begins with *; between two words is one blank, and no tab",
    }
}

/// What helps against a bad word, by its number in the line.
fn word_help(number: u32, fault: WordFault) -> &'static str
    ensures { result.now ≡ word_help number fault }
{
    match fault {
        WordFault::Short if number == 1 =>
            "the line is cut, or bytes 1A or 00 end the file: remove them",
        WordFault::Short => "the line is cut, or has more than one blank between words",
        WordFault::BadIndex if number == 1 =>
            "a line begins with a word: no byte order mark, quotes or blanks before it, and no UTF-16",
        WordFault::BadIndex => "between two words is one blank, and no tab",
        WordFault::BadInfo => "positions 3 to 6 of a word are digits and dots",
        WordFault::BadSign => "position 7 of a word is + or -",
        WordFault::BadData => "words are printable ASCII: no accents, and no control characters",
    }
}
