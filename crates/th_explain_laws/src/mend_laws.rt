//! Laws that relate the definitions to one another. A law is its contract: it computes nothing.

ghost use Rattle.std.specs.Prelude.{◌≡◌, ◌++◌, ◌-ℤ◌, ◌∷◌, [], ℕ, ℤ, List, Ok, Some};
ghost use Rattle.th_book.specs.Books.{book_answer, parsed_of};
ghost use Rattle.th_changes.specs.Numbers.{changed};
ghost use Rattle.th_mend.specs.Edits.{edits_of};
ghost use Rattle.th_mend.specs.MendedBooks.{mended};
ghost use Rattle.th_mend.specs.declared.edits.Edit.{Edit};
ghost use Rattle.th_mend.specs.Tables.{changes_of};
ghost use Rattle.th_mend.specs.declared.changes.Change.{Change};
ghost use Rattle.th_explain_laws.specs.Corrected.{corrected};
ghost use Rattle.th_explain_laws.specs.Typed.{AreOfOthers, IsOfBook, typed};
ghost use Rattle.th_network.specs.Networks.{surveyed};
ghost use Rattle.th_numbers.specs.Candidates.{given_of, number_of};
ghost use Rattle.th_numbers.specs.declared.candidates.Candidate.{Candidate};
ghost use Rattle.th_observations.specs.Observed.{Observed};
ghost use Rattle.th_tables.specs.Rows.{BenchmarkRows, WeightRows};

use gsi_block::laws::{block_at_passes_spaces, block_at_reads_blocks};
use gsi_word::laws::{
    name_of_name_is_itself, spelling_of_is_the_spelling, word_at_reads_spellings,
};
use th_book::laws::observation_is_of_a_sight;
use th_entries::laws::{entry_has_the_height_of_its_sights, sights_from_line_to_last_use_it};

/// A mended book has the observations of its book with just these numbers and names changed, and no
/// others. Sights that are left out are missing.
pub fn mended_book_has_just_the_changes()
    ensures { (table bytes text : List ℕ) (changes : List Change) (number : ℕ) →
        changes_of table ≡ Ok changes → mended changes bytes ≡ Ok text →
        (edits : List Edit) × (edits_of (parsed_of bytes) changes ≡ Ok edits)
        × (book_answer number text ≡ Ok (corrected edits number (parsed_of bytes))) }
{
    name_of_name_is_itself();
    spelling_of_is_the_spelling();
    word_at_reads_spellings();
    block_at_passes_spaces();
    block_at_reads_blocks();
}

/// Another value of a number, typed into a table of changes, gives the survey with that number changed.
/// The number is a keyed-in height in all its lines or from a line on, or one sight.
pub fn typed_number_is_changed()
    ensures { (table bytes text : List ℕ) (number : ℕ) (candidate : Candidate) (own : ℤ) (change : Change)
        (before observations behind news : List Observed)
        (benchmarks : BenchmarkRows) (weights : WeightRows) →
        book_answer number bytes ≡ Ok observations →
        IsOfBook number (parsed_of bytes) observations candidate →
        typed (parsed_of bytes) candidate own ≡ Some change → changes_of table ≡ Ok (change ∷ []) →
        mended (change ∷ []) bytes ≡ Ok text → book_answer number text ≡ Ok news →
        AreOfOthers number before → AreOfOthers number behind →
        changed (number_of candidate) (own -ℤ given_of benchmarks candidate)
        (surveyed (before ++ observations ++ behind) benchmarks weights)
        ≡ surveyed (before ++ news ++ behind) benchmarks weights }
{
    name_of_name_is_itself();
    observation_is_of_a_sight();
    sights_from_line_to_last_use_it();
    entry_has_the_height_of_its_sights();
    mended_book_has_just_the_changes();
}
