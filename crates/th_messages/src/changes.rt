//! Help against the faults of a table of changes, and where a change has no place in a book.
ghost use Rattle.std.specs.Prelude.{◌≡◌};
ghost use Rattle.th_messages.specs.Changes.{changes_help, unfit_help};

use th_mend::{ChangeKind, MendKind};

/// What helps against a fault of a table of changes.
pub fn changes_help(kind: ChangeKind) -> &'static str
    ensures { result.now ≡ changes_help kind }
{
    match kind {
        ChangeKind::BadHeader =>
            "the first line must be: line,word,value (commas, no semicolons, no blanks)",
        ChangeKind::FieldCount =>
            "each line has three fields, separated by commas; decimals by a dot",
        ChangeKind::BadLine => "the lines of the book count from 1, blank ones too",
        ChangeKind::BadWord => "a word is 88, 87, 88 since, 87 since, 33, sign, to or from",
        ChangeKind::BadLength =>
            "a length is in metres with a dot, no comma, no blank, and at most 10000, as 1.567",
        ChangeKind::GivenValue => "sign changes + to - and - to +: its value is empty",
        ChangeKind::BadName => "a name has 1 to 16 characters of ASCII",
        ChangeKind::TableTooLong =>
            "a table of changes has at most 64 KiB: mend with a part of it, and the mended book with the rest",
        ChangeKind::NoMemory => "this is no fault of the table",
    }
}

/// What helps where a change has no place in a book.
pub fn unfit_help(kind: MendKind) -> &'static str
    ensures { result.now ≡ unfit_help kind }
{
    match kind {
        MendKind::NoLine => "the lines of the book count from 1, blank ones too",
        MendKind::NoSight => "33, sign and to change a sight: a line with word 33",
        MendKind::NoSetup =>
            "from changes a setup: a line with word 84, 85 or 86, and without word 33",
        MendKind::NoHeight =>
            "a height is in force from its own line to that of the next one or of the next setup",
        MendKind::BeginsSetup =>
            "the line has word 84, 85 or 86: without word 33 it would be a station line",
        MendKind::Clash => "one record changes all words of an entry",
        MendKind::NoUnit => "position 6 of the word is 0, 1, 6, 7 or 8",
        MendKind::NotWhole => "round the length to the unit of the word, mm or finer",
        MendKind::TooManyDigits => "a word of GSI-8 has 8 digits, one of GSI-16 has 16",
        MendKind::LongName => "a name in a line of GSI-8 has at most 8 characters",
    }
}
