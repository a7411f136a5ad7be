//! Laws that relate the definitions to one another. They call nothing of the code.

ghost use Rattle.std.specs.Prelude.{◌≡◌, ◌<◌, ◌≤◌, Contains, ℕ, List, None, Ok, length, map, true};
ghost use Rattle.gsi_block.specs.Blocks.{block_at};
ghost use Rattle.gsi_block.specs.Lines.{lines_of};
ghost use Rattle.th_book.specs.Books.{book_answer, lines_answer, observed_at};
ghost use Rattle.th_book.specs.Due.{due, empty};
ghost use Rattle.th_book.specs.Entered.{IsSound};
ghost use Rattle.th_book.specs.Faults.{first_fault};
ghost use Rattle.th_book.specs.Limits.{max_book};
ghost use Rattle.th_book.specs.Lines.{ParsedLine, is_sight};
ghost use Rattle.th_observations.specs.Observed.{Observed};
ghost use Rattle.th_book.specs.Places.{line_at, words_at};

/// What a new book must return for the lines that follow is what these lines give as a whole.
///
/// What lines give is defined by places in the book, such as the last setup before a sight. A book
/// keeps less: the running setup and its last heights. The law states that this is enough.
pub fn new_book_owes_its_lines()
    ensures { (book : ℕ) (lines : List (List ℕ)) →
        due (empty book) lines ≡ lines_answer book lines }
{}

/// Each line of a book without a fault is blank, or a block of sound words: none of them is at
/// fault, and they lack no point and no height.
pub fn faultless_book_is_sound()
    ensures { (parsed : List ParsedLine) (place : ℕ) →
        first_fault parsed ≡ None → place < length parsed → IsSound (line_at parsed place) }
{}

/// A book that gives observations has no fault in a line, and no more lines than a book may have bytes.
pub fn answered_book_is_faultless()
    ensures faultless { (book : ℕ) (bytes : List ℕ) (observations : List Observed) →
        book_answer book bytes ≡ Ok observations → first_fault (map block_at (lines_of bytes)) ≡ None }
    ensures short { (book : ℕ) (bytes : List ℕ) (observations : List Observed) →
        book_answer book bytes ≡ Ok observations → length (lines_of bytes) ≤ max_book }
{}

/// Each observation of a book is that of one of its sights, and has the book's number.
pub fn observation_is_of_a_sight()
    ensures sight { (book : ℕ) (bytes : List ℕ) (observations : List Observed) (o : Observed) →
        book_answer book bytes ≡ Ok observations → Contains observations o →
        let parsed = map block_at (lines_of bytes) in
        (place : ℕ) × (is_sight (words_at parsed place) ≡ true) × (o ≡ observed_at book parsed place) }
    ensures book { (book : ℕ) (bytes : List ℕ) (observations : List Observed) (o : Observed) →
        book_answer book bytes ≡ Ok observations → Contains observations o → o.book ≡ book }
{}
