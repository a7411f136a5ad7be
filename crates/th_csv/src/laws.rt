//! Laws that relate the definitions to one another. They call nothing of the code.

ghost use Rattle.std.specs.Prelude.{◌≡◌, ◌≤◌, ◌+◌, All, ℕ, List, length};
ghost use Rattle.th_csv.specs.Records.{Fields, records_of};
ghost use Rattle.th_csv.specs.Texts.{HasField, IsUnmarked, csv_text};

/// Rows that are written are read again: the records of their text are the rows, if each has a
/// field and the text has no byte order mark at its beginning.
pub fn records_of_rows_are_the_rows()
    ensures { (rows : List Fields) → All HasField rows → IsUnmarked (csv_text rows) → records_of (csv_text rows) ≡ rows }
{}

/// A text has at most one record more than it has bytes.
pub fn records_are_few()
    ensures { (text : List ℕ) → length (records_of text) ≤ length text + 1 }
{}
