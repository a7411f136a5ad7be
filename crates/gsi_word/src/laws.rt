//! Laws that relate the definitions to one another. They call nothing of the code.

ghost use Rattle.std.specs.Prelude.{◌≡◌, ◌↔◌, ◌++◌, ℕ, List, Ok, Some, take};
ghost use Rattle.gsi_word.specs.Names.{name_of};
ghost use Rattle.gsi_word.specs.Words.{Parts, Spells, spelling_len, spelling_of, word_at};
ghost use Rattle.gsi_word.specs.declared.words.Width.{Width};

/// A word is read exactly where the bytes begin with its spelling.
pub fn word_at_reads_spellings()
    ensures { (width : Width) (bytes : List ℕ) (word : Parts) →
        (word_at width bytes ≡ Ok word) ↔ Spells word (take (spelling_len width) bytes) width }
{}

/// A word has at most one spelling.
pub fn spelling_of_is_the_spelling()
    ensures { (word : Parts) (bytes : List ℕ) (width : Width) →
        Spells word bytes width → bytes ≡ spelling_of word }
{}

/// A word's spelling is read as that word, whatever follows it.
pub fn spelling_of_is_read()
    ensures { (word : Parts) (bytes rest : List ℕ) (width : Width) →
        Spells word bytes width → word_at width (spelling_of word ++ rest) ≡ Ok word }
{}

/// The name of a name's bytes is that name.
pub fn name_of_name_is_itself()
    ensures { (bytes name : List ℕ) → name_of bytes ≡ Some name → name_of name ≡ Some name }
{}
