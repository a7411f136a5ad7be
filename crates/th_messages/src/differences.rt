//! Help against the faults of a table of differences.
ghost use Rattle.std.specs.Prelude.{◌≡◌};
ghost use Rattle.th_messages.specs.Differences.{differences_help};

use th_conversions::DifferenceKind;

/// What helps against a fault of a table of differences.
pub fn differences_help(kind: DifferenceKind) -> &'static str
    ensures { result.now ≡ differences_help kind }
{
    match kind {
        DifferenceKind::BadHeader =>
            "the first line must be: from,to,difference (commas, no semicolons, no blanks), or that of a list",
        DifferenceKind::FieldCount =>
            "each line has as many fields as the first: fields are separated by commas, decimals by a dot",
        DifferenceKind::BadName => "a name has 1 to 16 characters of ASCII",
        DifferenceKind::BadDifference =>
            "a difference is in metres with a dot, no comma, in steps of 0.00001 and at most 10000, as -1.2345",
        DifferenceKind::ToItself =>
            "a difference leads from a point to another one; 007 and 7 are one name",
        DifferenceKind::TableTooLong => "a table of differences has at most 4 MiB: divide it",
        DifferenceKind::NoMemory => "this is no fault of the table",
    }
}
