//! Laws that relate the definitions to one another. They call nothing of the code.

ghost use Rattle.std.specs.Prelude.{◌≡◌, ℕ, List, Ok};
ghost use Rattle.th_book.specs.Books.{book_answer, parsed_of};
ghost use Rattle.th_observations.specs.Observed.{Observed};
ghost use Rattle.th_report.specs.Lists.{list_text};
ghost use Rattle.th_conversions.specs.Lists.{rows_text};
ghost use Rattle.th_conversions.specs.Books.{AreSeenAs, book_of_table};
ghost use Rattle.th_conversions.specs.Tables.{rows_of};
ghost use Rattle.th_conversions.specs.declared.rows.Row.{Row};
ghost use Rattle.th_conversions.specs.Printed.{book_of_heights};
ghost use Rattle.th_conversions.specs.Seen.{AreSeenAs as AreHeightsSeenAs, nowhere, sights_from};

use gsi_block::laws::{block_at_reads_blocks, block_line_is_read, lines_of_is_the_list_of_lines};
use gsi_word::laws::{name_of_name_is_itself, spelling_of_is_the_spelling};
use th_book::laws::new_book_owes_its_lines;

/// The book of a table has exactly the observations of the table's rows, in order.
pub fn book_has_the_rows()
    ensures { (bytes text : List ℕ) (number : ℕ) → book_of_table bytes ≡ Ok text →
        (rows : List Row) × (rows_of bytes ≡ Ok rows) × AreSeenAs (book_answer number text) rows }
{
    name_of_name_is_itself();
    block_line_is_read();
    lines_of_is_the_list_of_lines();
    new_book_owes_its_lines();
}

/// The list of the book prints the table again: its header, and the rows, numbered from 1.
pub fn list_prints_the_table()
    ensures { (bytes text : List ℕ) (number : ℕ) (rows : List Row) (observations : List Observed) →
        book_of_table bytes ≡ Ok text → rows_of bytes ≡ Ok rows → book_answer number text ≡ Ok observations →
        list_text observations ≡ rows_text rows }
{
    book_has_the_rows();
}

/// The observations of the printed book are those of the height sights, in order: their station,
/// their target, and 83 less the 86 of their setup.
pub fn printed_book_has_the_height_sights()
    ensures { (bytes text : List ℕ) (number : ℕ) → book_of_heights bytes ≡ Ok text →
        AreHeightsSeenAs (book_answer number text) (sights_from nowhere (parsed_of bytes)) }
{
    spelling_of_is_the_spelling();
    block_at_reads_blocks();
    block_line_is_read();
    lines_of_is_the_list_of_lines();
    new_book_owes_its_lines();
}
