//! Laws that relate new words to how words are read. They call nothing of the code.

ghost use Rattle.std.specs.Prelude.{◌≡◌, ◌<◌, ◌≤◌, ℕ, ℤ, List, Ok, Some, length, unsigned_abs};
ghost use Rattle.gsi_word.specs.Names.{name_of};
ghost use Rattle.gsi_word.specs.Values.{length_of};
ghost use Rattle.gsi_word.specs.Words.{Parts};
ghost use Rattle.gsi_word.specs.declared.words.Width.{Width};
ghost use Rattle.th_mend.specs.NewWords.{added_word, with_length, with_name};
ghost use Rattle.th_units.specs.Limits.{max_len};

/// A word with another length is read as this length, if it is at most 10 km in size.
pub fn word_with_a_length_writes_it()
    ensures { (own : ℤ) (word new : Parts) → 0 < length word.body → unsigned_abs own ≤ max_len →
        with_length own word ≡ Ok new → length_of new ≡ Ok own }
{}

/// So is a word that is added to a block.
pub fn added_word_writes_its_length()
    ensures { (width : Width) (index : ℕ) (own : ℤ) (new : Parts) → unsigned_abs own ≤ max_len →
        added_word width index own ≡ Ok new → length_of new ≡ Ok own }
{}

/// A word with another name has this name.
pub fn word_with_a_name_has_it()
    ensures { (name : List ℕ) (word new : Parts) → name_of name ≡ Some name →
        with_name name word ≡ Ok new → name_of new.body ≡ Some name }
{}
