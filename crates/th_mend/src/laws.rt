//! Laws that relate the definitions to one another. They call nothing of the code.

ghost use Rattle.std.specs.Prelude.{◌≡◌, [], ℕ, List, Ok, true};
ghost use Rattle.th_book.specs.Lines.{ParsedLine, is_sight};
ghost use Rattle.th_book.specs.Places.{words_at};
ghost use Rattle.th_entries.specs.Entries.{entry_behind, entry_line};
ghost use Rattle.th_book.specs.Books.{book_answer};
ghost use Rattle.th_observations.specs.Observed.{Observed};
ghost use Rattle.th_mend.specs.Ends.{Ended, ended_lines};
ghost use Rattle.th_mend.specs.Laws.{AreMended, joined};
ghost use Rattle.th_mend.specs.MendedBooks.{mended, mended_text};
ghost use Rattle.th_mend.specs.declared.edits.Edit.{Edit};

/// The entry that is in force in the line of a sight is the entry that the sight uses.
pub fn entry_in_force_is_that_of_the_sight()
    ensures { (index : ℕ) (parsed : List ParsedLine) (place : ℕ) → is_sight (words_at parsed place) ≡ true →
        entry_behind index parsed place ≡ entry_line index parsed place }
{}

/// The lines of a text and their ends are the text.
pub fn ended_lines_are_the_text()
    ensures { (bytes : List ℕ) → joined (ended_lines bytes) ≡ bytes }
{}

/// The mended text has a line for each line of the book, which is mended by itself and ends as it did.
/// A line that no change reaches is the same, byte for byte.
pub fn other_lines_stay()
    ensures { (edits : List Edit) (bytes text : List ℕ) → mended_text edits bytes ≡ Ok text →
        (lines : List Ended) × (text ≡ joined lines) × AreMended edits 0 (ended_lines bytes) lines }
{}

/// A book without a fault that nothing changes is the same book.
pub fn no_change_is_the_same_book()
    ensures { (bytes : List ℕ) (observations : List Observed) → book_answer 1 bytes ≡ Ok observations →
        mended [] bytes ≡ Ok bytes }
{}
