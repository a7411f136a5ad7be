//! Laws that relate the definitions to one another. They call nothing of the code.

ghost use Rattle.std.specs.Prelude.{◌≡◌, ◌≢◌, ◌<◌, ◌≤◌, ◌++◌, [], All, Contains, ℕ, List, Ok, Some, true, length};
ghost use Rattle.th_book.specs.Books.{book_answer, known};
ghost use Rattle.th_book.specs.Lines.{ParsedLine, is_sight};
ghost use Rattle.th_observations.specs.Observed.{Observed};
ghost use Rattle.th_book.specs.Places.{height_at, last_below, words_at};
ghost use Rattle.th_entries.specs.declared.entries.Entry.{Entry};
ghost use Rattle.th_entries.specs.Entries.{entries_of, length_at, uses, writes};
ghost use Rattle.th_entries.specs.Reviews.{parsed_of};
ghost use Rattle.th_entries.specs.Several.{AreObserved, entries_of_books, numbered};
ghost use Rattle.th_entries.specs.Stations.{HasOneStation};

use th_book::laws::observation_is_of_a_sight;

/// The sights that use a height are exactly those from its line to the last one that uses it.
pub fn sights_from_line_to_last_use_it()
    ensures all { (index : ℕ) (parsed : List ParsedLine) (line last place : ℕ) →
        last_below (uses index parsed line) (length parsed) ≡ Some last →
        is_sight (words_at parsed place) ≡ true → line ≤ place → place ≤ last →
        uses index parsed line place ≡ true }
    ensures others { (index : ℕ) (parsed : List ParsedLine) (line last place : ℕ) →
        last_below (uses index parsed line) (length parsed) ≡ Some last → place < length parsed →
        uses index parsed line place ≡ true → (line ≤ place) × (place ≤ last) }
{}

/// The length of an entry is the height that each of its sights uses: the words from the entry's line
/// to that of the sight's own last word repeat it.
pub fn entry_has_the_height_of_its_sights()
    ensures { (index : ℕ) (parsed : List ParsedLine) (line place : ℕ) →
        uses index parsed line place ≡ true → known (height_at index parsed place) ≡ length_at index parsed line }
{}

/// So is the height that each word of the entry writes: the one that begins it, and those behind it that
/// repeat it.
pub fn words_of_an_entry_have_its_height()
    ensures height { (index : ℕ) (parsed : List ParsedLine) (line place : ℕ) →
        writes index parsed line place ≡ true → length_at index parsed place ≡ length_at index parsed line }
    ensures behind { (index : ℕ) (parsed : List ParsedLine) (line place : ℕ) →
        writes index parsed line place ≡ true → line ≤ place }
{}

/// The sights of an entry are from one station, where the book has no fault.
pub fn entry_has_one_station()
    ensures book { (number : ℕ) (parsed : List ParsedLine) (entry : Entry) →
        Contains (entries_of number parsed) entry → entry.book ≡ number }
    ensures station { (number : ℕ) (text : List ℕ) (observations : List Observed) (entry : Entry) →
        book_answer number text ≡ Ok observations → Contains (entries_of number (parsed_of text)) entry →
        HasOneStation observations entry }
{
    observation_is_of_a_sight();
}

/// They still are if observations of other books come before or after those of its book.
pub fn other_books_keep_the_station()
    ensures before { (others observations : List Observed) (entry : Entry) →
        All (λ o. o.book ≢ entry.book) others → HasOneStation observations entry →
        HasOneStation (others ++ observations) entry }
    ensures behind { (observations others : List Observed) (entry : Entry) →
        HasOneStation observations entry → All (λ o. o.book ≢ entry.book) others →
        HasOneStation (observations ++ others) entry }
{}

/// So the sights of each entry of several books without a fault are from one station, among the
/// observations of all these books.
pub fn entry_of_several_books_has_one_station()
    ensures { (number : ℕ) (texts : List (List ℕ)) (observations : List Observed) (entry : Entry) →
        AreObserved number [] texts observations → Contains (entries_of_books (numbered number texts)) entry →
        HasOneStation observations entry }
{
    observation_is_of_a_sight();
    entry_has_one_station();
}
