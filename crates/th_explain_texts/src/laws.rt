//! Laws of the texts. A law is its contract: it computes nothing.
ghost use Rattle.std.specs.Prelude.{◌≡◌, ◌≢◌, ◌++◌, ◌∷◌, ℕ, All, List, codes};
ghost use Rattle.th_explain_texts.specs.Sentences.{firsts, sentences};
ghost use Rattle.th_explain_texts.specs.declared.rows.Named.{Named};
ghost use Rattle.th_explain_texts.specs.declared.rows.ReadingRow.{ReadingRow};
ghost use Rattle.th_explain_texts.specs.declared.rows.Row.{Row};
ghost use Rattle.th_explain_texts.specs.declared.rows.Summary.{Summary};

/// Where marks stay whichever of the numbers that explain most is mended, the text does not say that one wrong number
/// explains this: it begins by saying that none explains all.
pub fn marks_that_stay_are_said()
    ensures { (summary : Summary) (row : Row) (rows : List Row) (named : List Named) (readings : List ReadingRow)
        → All (λ own. own.blunders ≢ 0) (firsts (row ∷ rows))
        → (rest : List ℕ) × (sentences summary (row ∷ rows) named readings ≡ codes "No one number explains all of this. " ++ rest) }
{}
