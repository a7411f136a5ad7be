//! Laws that relate the definitions to one another. They call nothing of the code.

ghost use Rattle.std.specs.Prelude.{◌≡◌, ◌∷◌, ℕ, ℤ, All, List, Some, map, take};
ghost use Rattle.gsi_block.specs.Lines.{lines_of};
ghost use Rattle.gsi_word.specs.Names.{name_of};
ghost use Rattle.th_network.specs.Networks.{Survey, points_of};
ghost use Rattle.th_report.specs.Gsi.{gsi_text, name_on, padded_name};
ghost use Rattle.th_report.specs.Heights.{heights_header, heights_text, printed_height, printed_heights};
ghost use Rattle.th_report.specs.Lines.{EndsItsLines, HasNoSpaceAtEnd};
ghost use Rattle.th_report.specs.Reports.{report_text};

use gsi_block::laws::{block_line_is_read, lines_of_is_the_list_of_lines};
use th_csv::laws::records_of_rows_are_the_rows;

/// A point's name is read back from the data of its word 11, in which zeros come before it.
pub fn padded_name_is_read_back()
    ensures { (name : List ℕ) → name_of name ≡ Some name → name_of (padded_name name) ≡ Some name }
{}

/// The points are read back from the GSI file: its lines are blocks, and the data of their first
/// words, each a word 11, give the names of the points, in point order.
pub fn points_are_read_back_from_gsi()
    ensures { (survey : Survey) (heights : List ℕ → ℤ)
        → All (λ name. name_of name ≡ Some name) (points_of survey)
        → map name_on (lines_of (gsi_text survey heights)) ≡ map Some (points_of survey) }
{
    block_line_is_read();
    lines_of_is_the_list_of_lines();
}

/// Each line of the report is ended by LF, and none ends with a space, whatever the names of the
/// points are.
pub fn no_line_of_report_ends_with_space()
    ensures ended { (survey : Survey) (heights : List ℕ → ℤ) (limit : ℤ)
        → All (λ name. name_of name ≡ Some name) (points_of survey)
        → EndsItsLines (report_text survey heights limit) }
    ensures spaces { (survey : Survey) (heights : List ℕ → ℤ) (limit : ℤ)
        → All (λ name. name_of name ≡ Some name) (points_of survey)
        → HasNoSpaceAtEnd (report_text survey heights limit) }
{}

/// The records of the heights file are read back as a header and, for each point, its name and its
/// lowest best height. The highest best heights are left out here.
pub fn heights_are_read_back()
    ensures { (survey : Survey) (low high : List ℕ → ℤ)
        → printed_heights (heights_text survey low high)
        ≡ take 3 heights_header ∷ map (printed_height low) (points_of survey) }
{
    records_of_rows_are_the_rows();
}
