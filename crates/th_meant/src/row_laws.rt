//! Laws of what is named. A law is its contract: it computes nothing.
ghost use Rattle.std.specs.Prelude.{◌≡◌, ℤ, ◌⊎◌, List, All, false, true};
ghost use Rattle.th_entries.specs.declared.entries.Entry.{Entry};
ghost use Rattle.th_explain_texts.specs.declared.rows.Named.{Named};
ghost use Rattle.th_explain_texts.specs.declared.rows.Row.{Row};
ghost use Rattle.th_meant.specs.Doubted.{IsMeant};
ghost use Rattle.th_meant.specs.Keyed.{tolerance_of};
ghost use Rattle.th_meant.specs.Named.{AreNamedIn, is_pole_elsewhere};

use crate::laws::named_are_candidates;

/// Each height that is named may have been meant where a row with number 1 doubts another one. So it is not that one, fits
/// the observations or is at most a tenth of the limit outside, and is a slip of it, or in force elsewhere where it is.
pub fn named_may_have_been_meant()
    ensures { (entries : List Entry) (limit : ℤ) (rows : List Row) (named : List Named)
        → AreNamedIn entries limit rows named
        → All (IsMeant entries (tolerance_of limit) rows) named }
{
    named_are_candidates();
}

/// Where a pole that is in force elsewhere may have been meant, only such poles are named.
pub fn poles_elsewhere_come_first()
    ensures { (entries : List Entry) (limit : ℤ) (rows : List Row) (named : List Named)
        → AreNamedIn entries limit rows named
        → All (λ own. is_pole_elsewhere own ≡ true) named ⊎ All (λ own. is_pole_elsewhere own ≡ false) named }
{}
