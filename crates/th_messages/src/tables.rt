//! Help against the faults of tables.
ghost use Rattle.std.specs.Prelude.{◌≡◌};
ghost use Rattle.th_messages.specs.Tables.{benchmarks_help, weights_help};

use th_tables::TableKind;

/// What helps against a fault of the table of benchmarks.
pub fn benchmarks_help(kind: TableKind) -> &'static str
    ensures { result.now ≡ benchmarks_help kind }
{
    match kind {
        TableKind::BadHeader =>
            "the first line must be: point,height (a comma, no semicolon, no blank)",
        TableKind::FieldCount =>
            "each line has 2 fields: fields are separated by commas, decimals by a dot",
        TableKind::BadName => "a name has 1 to 16 characters of ASCII",
        TableKind::BadHeight =>
            "a height is in metres with a dot, no comma, no blank, and at most 8 decimals, as 250.1112",
        TableKind::BadWeight => "the table of benchmarks has no weights",
        TableKind::Repeated => "each point has one height; 007 and 7 are one name",
        TableKind::TableTooLong => "a table has at most 1 MiB",
        TableKind::NoMemory => "this is no fault of the table",
    }
}

/// What helps against a fault of the table of weights.
pub fn weights_help(kind: TableKind) -> &'static str
    ensures { result.now ≡ weights_help kind }
{
    match kind {
        TableKind::BadHeader => {
            "the first line must be: from,to,weight (commas, no semicolons, no blanks)"
        }
        TableKind::FieldCount => "each line has 3 fields: fields are separated by commas",
        TableKind::BadName => "a name has 1 to 16 characters of ASCII",
        TableKind::BadHeight => "the table of weights has no heights",
        TableKind::BadWeight => "a weight is a whole number from 1 to 1000",
        TableKind::Repeated => "each pair has one weight; 007 and 7 are one name",
        TableKind::TableTooLong => "a table has at most 1 MiB",
        TableKind::NoMemory => "this is no fault of the table",
    }
}
